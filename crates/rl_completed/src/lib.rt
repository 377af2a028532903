//! A schedule made complete: further turns by which all calls of all ranks end.
//!
//! - A schedule is **complete** where a replay of it ends all calls of all ranks. [`completed`] makes one complete: the given turns stand in
//!   front as they were, and behind them those of the way on, the rank that goes next at each step ([`finish`](rl_finish::finish)).
//! - What can't be made complete is told by its reason ([`Reason`]): a rank that is stopped, or a schedule that would have more steps or
//!   more bytes than a schedule may have.
//!
//! Promise: a replay takes the text, and all is done then; the further turns are those of whoever goes next (`specs/Completing`). Each reason
//! comes exactly where it holds, and want of memory alone is free.
//! Not said here: that the way on is the shortest, or fair.
#![tactic(auto)]

mod completing;
mod stops;
mod uncompleted;

pub use completing::completed;
pub use stops::first_stop;
pub use uncompleted::{Reason, Uncompleted, reason_line};
