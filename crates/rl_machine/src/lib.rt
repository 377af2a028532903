//! All shards of a table in plain vectors, and runs of all ranks over them, for every core of a shard.
//!
//! - A *machine* ([`Machine`]) is all shards of a table, each with a core of its own (`ShardCore`): a rank's machine for the shard, with the
//!   words, the cards and a view for each rank. One *step* of a rank opens its next block on the shard of its calls, where none is open and
//!   one is left, and makes one atom.
//! - A *run* is steps one after the other, by a list of ranks (`run_of` of `specs/Run`).
//! - The *window* of a shard has word 0, which is always 1, then the count word, the volume, the journal and the words behind it.
//! - A rank *rests* where its next step counts one answer and changes nothing else (`specs/Rest`). Where a rank is seen to rest, or to go in a round of two
//!   loads (`Machine::waits`, `Machine::round`), it does so whatever other ranks do, while the words and cards of its shard show it
//!   (`specs/Rested`).
//!
//! Promise, for every core that keeps the laws of one: a step is the definition's (`specs/Run`), its answer has its cause
//! (`specs/Causes`), and however the steps interleave the machine is sound (`specs/Promises`): on each shard the trace is exclusive, the
//! lock's queues keep what they promise, its events name what the lock has and stand in their order, its two domains stay apart, and
//! journal and transcripts are legal; and each rank's entries are its first calls, each once, in its order. What a lock promises beside,
//! and what its queues promise, is said of every run from the start on (`specs/RunTransitions`). Where the cores have no dead end, the machine has
//! none: from each of its states some steps lead to the end of all calls ([`no_dead_end`]).
//! Not said here: that a rank ever gets the lock, whatever the schedule.
#![tactic(auto)]

mod machine;
mod opening;
mod records;
mod rest;
mod shard;
mod start;
mod state;
mod step_end;

pub use machine::{Machine, NextAtom, RestAt, RoundAt, no_dead_end, rules, soundness};
pub use state::steps_made;
pub use step_end::{StepEnd, StepOutcome};
