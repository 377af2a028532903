//! Whether a report is legal for a placement and calls: its tests, in a stated order, and the first of them that fails.
//!
//! - A report is tested **shard** by shard and then **rank** by rank ([`Group`]). A **test** ([`Test`]) is made at a
//!   **place**: an entry of the shard, an event of it, or a call of the rank.
//! - A **fault** ([`Illegal`]) is a test that fails. The **first fault** is the first of them in the order of the tests.
//! - [`check_shard`] and [`check_rank`] make the tests of one shard or rank, [`check_one`] those of a whole report, and
//!   [`check_all`] the same, where threads may help.
//!
//! What the tests stand on is public too, for who says why one fails: [`one_thread`], [`Queues`], [`is_begun`].
//!
//! Promise: nothing is told exactly where no test fails, and else the first fault (`specs/Tests.antt`). What each test asks
//! is said in `specs/Entries.antt`, `Shards.antt` and `Ranks.antt`. A report of a run passes all tests exactly where it is
//! lawful, and so does one of a replay ([`report_laws`]). Only want of memory is free.
//! Not said here: how the report came about. A report of another program is tested like one of this one.
#![tactic(auto)]

mod blocks;
mod due_replies;
mod entries;
mod events;
mod illegal;
mod laws;
mod queues;
mod ranks;
mod shards;
mod slots;
mod threads;
mod whole;

pub use blocks::is_begun;
pub use due_replies::{OneThread, one_thread};
pub use illegal::{Group, Illegal, Test};
pub use laws::report_laws;
pub use queues::Queues;
pub use ranks::check_rank;
pub use shards::check_shard;
pub use threads::check_all;
pub use whole::check_one;
