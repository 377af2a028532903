//! What the first fault of a report comes to, in words: what was told, and what was due.
//!
//! - [`explain_fault`] takes the fault that a check found, and gives the **verdict** ([`Verdict`]): the line of the report, what stands there,
//!   and the **reason** ([`Reason`]), which has the numbers that were told and those that were due.
//! - [`say_verdict`] reads the kept texts of a check again, and writes the verdict to standard error, in one line.
//!
//! The numbers that are due come from what the tests themselves call: `one_thread` and `Queues` of `rl_check`, and `tallies` of
//! `rl_report`.
//! Promise: it returns, whatever the report is. What a verdict says of each test is held against bent reports by `scripts/check-refusals`.
#![tactic(auto)]

mod entries;
mod events;
mod explaining;
mod places;
mod ranks;
mod reasons;
mod saying;
mod shards;
mod spelling;

pub use explaining::{Of, Verdict, explain_fault};
pub use reasons::{BatchPart, Reason};
pub use saying::say_verdict;
pub use spelling::{SpelledCall, SpelledReply};
