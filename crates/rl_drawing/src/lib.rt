//! Schedules that are drawn of sketches: the machine of a placement and calls makes the steps that a sketch speaks of, and what each line came to is written down
//! as turns.
//!
//! - A step **shows** a sight, where the sight's words stand in its own as a listing has them, or the machine tells it (`specs/Sights`).
//! - [`drawn`] draws a sketch over the lock of its placement, and [`draw_with`] over a core. The outcome ([`Drawn`]) is the schedule, or the first line that comes to
//!   no end.
//!
//! Promise: the turns are exactly those that `specs/Drawing` says of the machine, and a line is refused exactly where it has none within the steps of a schedule.
//! Only want of memory is free.
//! Not said here: that a line comes to its end.
#![tactic(auto)]

mod anew;
mod courses;
mod drawing;
mod laps;
mod looking;
mod outcome;
mod stage;

pub use drawing::{draw_with, drawn};
pub use outcome::Drawn;
