//! The spin lock: one word that a rank puts its number into.
//!
//! - The *word* is a card word on the shard's home, 0 while the lock is free and one more than the rank that has it.
//! - A rank *tries*: it compares the word with 0 and swaps its own number in, again and again until that succeeds. Then it
//!   is *inside*. To *release* the lock it swaps 0 back in.
//!
//! Promise: `Spin` meets all laws of a lock (`Algo`), so it excludes: at most one rank is inside. Readers are writers
//! to it. It has no queue and no settings. It has no dead end (`Ending`), and says who goes on (`Guiding`).
//! Not said here: that a rank that tries ever succeeds, or in which order ranks do.
//!
//! It is the plain compare-and-swap lock of textbooks, made through the network card of the word's home, and is here as
//! the smallest lock there is.
#![tactic(auto)]

mod ending;
mod guiding;
mod spin;
mod view;

pub use spin::Spin;
pub use view::{SpinPhase, SpinView};
