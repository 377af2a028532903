//! Why a file is refused, in words: what was found at the place of the fault, and what was wanted there.
//!
//! - A program reads its files through [`KeptFiles`], which **keeps** the bytes that come ([`Kept`]), since a pipe can't be read twice.
//! - [`explain_place`] and its neighbours read a kept text again, and tell of its first fault the place, what is **found** there
//!   ([`Found`]) and what is **wanted** ([`Wanted`]); [`say_refusal`] writes that to standard error, in one line.
//! - A line of a file is of a **kind** ([`LineKind`]), which the lines before it tell; `table.rt` says what each word of a kind has to be.
//!
//! Promise: what is found is the word at that place, lines and words being counted as refusals count them (`specs/Finding.antt`).
//! The rest is proved to return, whatever the files are.
//! Not said here: that what is wanted is what the readers want. `scripts/check-refusals` holds it against spoilt files.
#![tactic(auto)]

mod calls_lines;
mod finding;
mod found;
mod keeping;
mod kinds;
mod place_lines;
mod quoting;
mod refusals;
mod report_lines;
mod saying;
mod schedule_lines;
mod table;
mod walking;
mod wanted;

pub use finding::{line_in, word_in};
pub use found::Found;
pub use keeping::{Kept, KeptFiles, KeptText};
pub use kinds::{Known, LineKind};
pub use quoting::Quoted;
pub use refusals::{
    Explained, explain_calls, explain_place, explain_report, explain_schedule, found_at, place_in,
};
pub use saying::{Third, say_refusal};
pub use wanted::Wanted;
