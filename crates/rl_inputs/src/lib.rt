//! What a replay is made of: its three files, read one after the other and refused at the first fault.
//!
//! - The **files** ([`Files`]) are a placement, calls and a schedule, by name. A **stop** ([`Stop`]) is what ends the reading early: the line
//!   that refuses a file, a fault of the source, or want of memory.
//! - [`read_placed`], [`read_called`] and [`read_scheduled`] read one file each, and [`read_replay`] all three as a
//!   [`Replay`]. A reader of another kind of file is made of [`read_within`] and [`stopped`].
//! - An **answer** ([`Answer`]) is a status and the bytes that belong to it. [`tell`] writes it, or the line that refuses a file, and gives the
//!   status; [`tell_text`] does so for bytes at hand.
//! - [`words`] are those of the command line, and [`say_why`] says on standard error why a status has no output, with the system's reason.
//!
//! The promise: what is read is what the bytes spell, or the line that refuses the first file with a fault, for every source; a fault is blamed
//! on the source exactly where its count of faults rose. `specs/Reading.antt` and `specs/Files.antt` say it. What a program did, which answers
//! so, says `specs/Done.antt`.
//!
//! Not said here: what is made of the files.
#![tactic(auto)]

mod answer;
mod command_line;
mod files;
mod reading;
mod replay;
mod stop;

pub use answer::{Answer, tell, tell_text};
pub use command_line::{say_why, words};
pub use files::Files;
pub use reading::{read_called, read_placed, read_scheduled, read_within};
pub use replay::{Replay, read_replay};
pub use stop::{Stop, stopped};
