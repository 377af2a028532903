//! Counters of readers: how a rank comes in beside others and goes out again, and how a writer makes sure that nobody is in.
//!
//! - Ranks are in *groups*. Each group has a *counter*, which is two words: *arrive*, to which a reader adds itself as it comes, and
//!   *depart*, to which it adds itself as it goes (`CounterNames`). A reader is in where it found fewer in arrive than the bound.
//! - One that found more is *refused*: it takes itself off arrive again. Where it saw no writer it makes a *reset*: what is in depart
//!   is taken out, and then taken off arrive. Else it waits, in *rounds* of two loads, until it may try again.
//! - A writer puts a *mark* of 2^32 on the arrive word of each counter, in order, so that nobody comes in any more. Then it waits at
//!   each counter, in order, until as many have departed as have arrived. Once its work is done it takes the marks off, each with what
//!   has departed.
//! - A rank's *view* (`CounterView`) is the counter of its group and what it is about to do (`Doing`); a *task* (`Task`) is what
//!   a lock lets it begin.
//!
//! Promise: `counter_laws` says what holds of the counters of any groups: arrive is the mark and all that is known to be in it, so it is
//! never too small, also while a reset is under way; and nobody is in a counter that a writer has found clear, until it takes the mark
//! off. Each act keeps it so.
//! Not said here: who may put marks up (one rank at a time), and that any rank ever comes in.
#![tactic(auto)]

mod counter;
mod laws;
mod names;
mod view;

pub use counter::{counter_begin, counter_busy, counter_idle, counter_learn, counter_plan};
pub use laws::counter_laws;
pub use names::CounterNames;
pub use view::{CounterView, Doing, Task};
