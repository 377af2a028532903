//! Reports of a replay or a run: their value, their text, and the history that they tell.
//!
//! - A **report** ([`Report`]) has a part for each shard ([`ShardReport`]), what each rank did ([`Done`]), and, for a
//!   replay, how often each answer came.
//! - The **history** of a shard is its journal and its ranks' transcripts in one order ([`merge`], or
//!   [`merge_lent`] of lent ones).
//! - A queue's **tally** counts its settlements and passes ([`tallies`]); a **budget** bounds it ([`within`]).
//! - [`report_text`] prints a report, [`read_report`] reads one.
//!
//! Promise: `merge` is the history. A text is read as a report exactly where it spells that report (`specs/Spelling.antt`),
//! every other text is refused at its first fault (`specs/Reading.antt`, which can be held against the file's table line
//! by line), and what is printed is read back. Only want of memory is free.
//! Not said here: whether a report is a lawful one, which is a matter of what a run promises.
#![tactic(auto)]

mod counting;
mod entry_printer;
mod entry_reader;
mod event_reader;
mod line_reader;
mod merging;
mod naming;
mod printer;
mod putting;
mod ranges;
mod reader;
mod report;
mod sections;
mod version;

pub use counting::{tallies, within};
pub use merging::{merge, merge_lent};
pub use naming::{Naming, QueueName};
pub use printer::{is_printed, put_end, put_event, report_text};
pub use putting::{put_value, put_word};
pub use ranges::{replies_fit, tallies_fit};
pub use reader::{no_report_fault, read_report};
pub use report::{Done, Report, ShardReport};
