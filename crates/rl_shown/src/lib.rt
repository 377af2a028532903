//! What is shown of a replay as text: its steps, and the state before one of them.
//!
//! - The **listing** ([`listing_text`], [`Lister`]) has a line for each step in a window: its atom, what that finds, its answer and its events, and whether the
//!   rank is out of the lock again.
//! - The **state** ([`state_text`], [`Stater`]) before a step tells each word by its name, with its home and its value, who is in a card, and how each
//!   rank stands.
//!
//! Promise: the bytes are exactly those that `specs/Listing` and `specs/State` make of the run. Only want of memory is free.
//! Not said here: who stands in which queue.
#![tactic(auto)]

mod copying;
mod cores;
mod front;
mod listing;
mod ranks;
mod state;
mod stepping;
mod telling;
mod words;

pub use copying::copied;
pub use front::total_steps;
pub use listing::{Lister, listing_text};
pub use state::{Stater, state_text};
