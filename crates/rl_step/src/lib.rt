//! The machine of locks: what a step is, what a lock is, and plain words to make steps on.
//!
//! - An *atom* is one indivisible step of a rank; its *answer* (`Stepped`) says how it went, its *events* (`Event`, listed in `Events`) what
//!   happened. A *trace* is the list of a shard's events.
//! - A *lock* (`Algo`) is one shard's lock, over whole acts. A *core* (`Core`) is a rank's whole machine, over atoms.
//! - A *port* (`Port`) is where a rank makes its atoms; `advance` makes one. `Words` is a plain window of words and
//!   cards; `Flat` holds one with the views of all ranks, and `FlatPort` is the port of a rank on it.
//!
//! Promise: `Words::apply` is the definition of an atom, exactly. One `advance` is Finished, with nothing changed, or one
//! atom. `specs/` says what is asked of every lock (`Lock`), and what exclusion (`Exclusion`), the pass budget and first
//! come, first served (`Queues`) mean, over events alone.
//! Not said here: that any rank ever gets a lock.
#![tactic(auto)]

mod algo;
mod cores;
mod event_list;
mod events;
mod flat;
mod port;
mod queues;
mod tallies;
mod words;

pub use algo::Algo;
pub use cores::{Core, Plan};
pub use event_list::Events;
pub use events::{Event, Learnt, Standing, Stepped};
pub use flat::{Flat, FlatPort, advance_flat};
pub use port::{Port, advance};
pub use queues::queue_count;
pub use tallies::{Steps, Tally};
pub use words::Words;
