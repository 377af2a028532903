//! Numbers that are drawn by chance: the same numbers from the same beginning, on every machine.
//!
//! Promise: what is drawn is what `specs/Draws` says. Not said here: that the numbers are good ones.
#![tactic(auto)]

mod generator;

pub use generator::Generator;
