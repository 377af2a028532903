//! A shard of the hash table, whose window threads share, and a seat on it for each rank.
//!
//! - A *shard* (`Shard`) is one part of the table behind a lock of its own: a window of words and cards (`rl_window`) under the
//!   rule of a rank's machine on one shard (`ShardCore` of `rl_core`).
//! - A *seat* (`Seat`) is the one right to act as a rank on the shard. Whoever has a seat and a `&Shard` opens a *block*, which is
//!   a call alone or the calls of a batch, and steps until no block is open; in a thread of its own too.
//! - A rank's *tallies* (`Tallies`) are how often its own acts settled and passed each queue of the lock. A shard's core keeps
//!   no such counts; `Counting` is the core with them.
//!
//! Promise, for every core that keeps the laws of one: between any two table steps the rule holds, so one rank writes at most, and
//! none reads beside it (`exclusion`), only holders come to count, volume and journal, and writers to store there (`guards`), no queue was
//! passed more often than its budget allows (`budgets`), and the two domains stay apart (`domains`). A step is exactly one table step, or
//! Finished where no block is open; its answer has its cause (`specs/Steps`). What a closed shard leaves (`specs/Ends`) is what some order of the
//! ranks' openings and atoms leaves, each of the core's machine (`specs/Reached`), and it is legal: the history gives every entry its reply
//! on one thread, the pairs are the table after it, each queue kept its budget in all, and was settled and passed as often as it was had.
//! Not said here: that two threads ran, that any rank gets on, or an order in time between ranks.
#![tactic(auto)]

mod closed;
mod closing;
mod counting;
mod laws;
mod opening;
mod seat;
mod shard;
mod stepping;
mod tallies;

pub use closed::Closed;
pub use counting::{CountedView, Counting};
pub use laws::{budgets, domains, exclusion, guards};
pub use seat::Seat;
pub use shard::Shard;
pub use tallies::Tallies;
