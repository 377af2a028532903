//! A run: a caller for each rank, in a thread of its own, on shards that all of them share.
//!
//! - A *caller* (`Caller`) makes the calls of a rank, block after block, each on the shard of its calls: it opens the next block where none
//!   is open, and steps the rank's seat there.
//! - The seats lie in *rows*, one for each rank, with a seat for each shard; shards are closed by *columns*, each with the next seat of
//!   every row.
//! - A *gate* (of `rl_io`) is told of each block and each step.
//!
//! Promise, for every core that keeps the laws of one: a step of a caller opens its next block, in order, where none is open and one is
//! left, and is then the step of its seat, with all that a seat says of it; it answers Finished exactly where all calls are done. After
//! `Caller::work` no block is open, and the rank's entries on all shards are its calls, all of them, each once and in its order. The report
//! of a whole run ([`run_all`]) is lawful for its placement and calls, and tells of each shard what some order of the ranks' openings and atoms,
//! each of the core's machine, leaves there (`specs/Made`).
//! Not said here: that two threads ran, that a rank gets on, or which of several lawful reports a run gives.
#![tactic(auto)]

mod caller;
mod closing;
mod opening;
mod reporting;
mod rows;
mod run;
mod waiting;
mod whole_run;
mod working;

pub use caller::Caller;
pub use closing::{close_all, rows_of};
pub use opening::{begin_all, callers_of, open_all};
pub use reporting::part_of;
pub use rows::deal_seats;
pub use run::run_callers;
pub use whole_run::run_all;
pub use working::work_all;
