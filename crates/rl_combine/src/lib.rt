//! Flat combining: ranks post their calls, and whoever has the lock does all that it finds posted.
//!
//! - A **post** is nine words of a rank's own, its **owner**'s, behind the lock's: a **flag**, the five words of a call, and the three of
//!   its **answer**. The flag is 0 where nothing is posted, 1 where a call is, and 2 where it is done.
//! - A **stage** ([`CombineStage`]) is where a rank stands in its call: it posts the call, asks for the lock, and looks whether its call
//!   is done by then. If not it **sweeps** over the posts of all ranks and does the calls that it finds. At the end it **collects**
//!   its own answer.
//! - A **side** ([`CombineSide`]) is what a rank knows of that, with the entries that it has collected.
//!
//! Promise: a way of working ([`CombineWork`], [`combine_laws`]), over any lock that lets one writer in at a time. Journal and
//! transcripts are legal at every moment, also where a call was done by another rank and isn't collected yet; no posted call is
//! done more than once; a sweep that found a flag 1 has made it 2 before its rank leaves. The code does what the definitions say,
//! and takes no memory after the start. It has no dead end over a lock that has none (`WorkEnding`).
//! Not said here: that a rank ever gets the lock, and so that its call is ever done, whatever the schedule.
#![tactic(auto)]

mod combine;
mod ending;
mod laws;
mod posts;
mod side;
mod stage;

pub use combine::CombineWork;
pub use laws::combine_laws;
pub use side::CombineSide;
pub use stage::CombineStage;
