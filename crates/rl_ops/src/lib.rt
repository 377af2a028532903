//! The calls file and the schedule file.
//!
//! - The **calls** (`Ops`) are what each rank asks for, in its order. A calls file has a line for each call, and may
//!   interleave its ranks.
//! - A **batch** is 2 to 8 updates of one shard that a rank asks for in one go, and a **block** is a batch or a call alone.
//!   A calls file is a list of blocks. Beside each call of a rank stands its **size**, which says where blocks begin.
//! - A **schedule** (`Schedule`) says which rank makes how many steps, turn by turn, and which rank stops.
//! - The **room** (`Room`) is how many calls and updates each rank makes on one shard.
//!
//! Promise: a reader gives a value exactly where the text spells it, and else the first fault of the text. What is
//! printed spells the value, and is read back as it. What the two files are is said by `specs/`: lines of words, built
//! from the value; which fault comes first is said by the reading there, one line for each word.
//!
//! Not said here: what the calls do, and that a batch is done whole.
#![tactic(auto)]

mod appending;
mod by_rank;
mod call_printer;
mod call_reader;
mod calls_line;
mod laws;
mod line_reader;
mod ops;
mod ops_printer;
mod ops_reader;
mod progress;
mod room;
mod schedule;
mod schedule_printer;
mod schedule_reader;
mod short_reader;

pub use by_rank::ByRank;
pub use call_printer::{LONGEST_CALL, call_text, write_call};
pub use call_reader::{next_call, read_call};
pub use laws::{calls_are_blocks, no_ops_fault, no_schedule_fault};
pub use ops::{MOST_CALLS, MOST_IN_BATCH, Ops};
pub use ops_printer::ops_text;
pub use ops_reader::read_ops;
pub use room::Room;
pub use schedule::{MOST_STEPS, Schedule, Turn, Turns};
pub use schedule_printer::schedule_text;
pub use schedule_reader::read_schedule;
