//! A lock that can't get stuck: somebody can always go on.
//!
//! - A rank *can go on* where it holds the lock, or where the act that it plans leaves less to do (`specs/Ending`).
//! - What is *left* is a number that each lock gives, of its words and the ranks' views: mostly how *far* each rank is from its end, and how
//!   *near* it is among those that are as far (`specs/TwoSums`).
//!
//! Promise: in each good state of a lock that is `Ending` all ranks are out, or somebody can go on (`somebody_goes_on`). So from each such
//! state some steps lead to an end (`specs/laws/Reach`), which is what the machines above make of it.
//! A lock that is `Guiding` says who that is, of each rank by its view and the lock's words (`specs/Guiding`).
//! Not said here: fairness, time, or which ranks a schedule takes. A rank that waits may be passed over as long as there is anything to do.
#![tactic(auto)]

mod ending;
mod guiding;

pub use ending::{Ending, somebody_goes_on};
pub use guiding::Guiding;
