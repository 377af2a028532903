//! ALock: a queue of the ranks on the shard's home and one of all others, whose heads meet in an entry for two.
//!
//! - A *cohort* (`Cohort`) is the ranks on the shard's home, which are *local*, or all others, which are *remote*. Each has a queue
//!   of its own, with a *budget* of its own.
//! - The *head* of a queue that must settle makes the *entry* (`SettleStage`): it *announces* its cohort, which makes it the *victim*, the one
//!   that yields. Then it looks by turns whether the other's queue is empty, and whether the other is the victim by now. Either lets
//!   it settle and enter.
//! - A rank's *view* (`AlockView`) is its view of its cohort's queue and its place in the entry.
//!
//! Promise: `Alock` meets all laws of a lock (`Algo`), so it excludes, each cohort is served first come, first served, and no queue is
//! passed on more often than its budget. It says further (`BoundsOvertaking`): once a cohort has announced itself, and until a rank of
//! it enters, at most the other's budget and one ranks of the other enter. And it keeps two domains (`two_domains`): ranks on the home
//! make no act through a card, and all others no local compare-and-swap. It has no dead end (`Ending`), and says who goes
//! on (`Guiding`).
//! Not said here: that a rank that asks ever enters.
#![tactic(auto)]

mod alock;
mod cohort;
mod ending;
mod guiding;
mod laws;
mod view;

pub use alock::Alock;
pub use cohort::Cohort;
pub use laws::two_domains;
pub use view::{AlockView, SettleStage};
