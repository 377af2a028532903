//! What the program `rmalock` does for the words of its command line, and the status and the bytes that it ends with.
//!
//! - [`rmalock`] is the top call, and the one for users: a replay, a run by threads, a check, a made run or a shape, over any source of
//!   files and any sink.
//! - [`offline`] does the same without threads, so it never waits; `run` is no form to it. It is a part of the top call, public so that the
//!   program's tests can try it by itself.
//!
//! Promise: status and bytes belong to the words and to the bytes of the named files, and each fault has its cause (`specs/Answer.antt`,
//! `RunAnswer.antt` and `CheckAnswer.antt`). What is true of a replay and of a run whose report is written says `specs/Headline.antt` and
//! `RunHeadline.antt`; and that the report is read back and legal, `ReadBack.antt`.
//! Not said here: that a run comes to an end, or which of several lawful reports it gives.
#![tactic(auto)]

mod answer;
mod checking;
mod command;
mod program;
mod replaying;
mod running;
mod showing;
mod threadless;

pub use program::rmalock;
pub use replaying::replay_report;
pub use threadless::offline;
