//! A run of which all but a number is made: a placement and calls drawn from the number, laps of the machine over them, and a summary of
//! what came of it.
//!
//! - [`generate`] makes the placement and the calls of a number, of so many ranks with so many calls.
//! - [`made_summary`] makes the run of them under ALock, a step of each rank in turn, lap after lap, and tells what came of it as a text.
//!
//! Promise: what is drawn says `specs/Generate.antt`, which steps are made `specs/Laps.antt`, and what is told of them
//! `specs/Summary.antt`: the same as of the report of the machine. Only want of memory is free.
#![tactic(auto)]

mod counts;
mod generating;
mod laps;
mod making;
mod summary;

pub use generating::generate;
pub use making::made_summary;
