//! The report of a machine: what is said of its shards and ranks after its steps so far.
//!
//! - [`report_of_machine`] makes it, for a machine whose shards and ranks are those of a placement.
//!
//! Promise: the report is what `specs/Reported.antt` says of the machine, part by part, and its numbers are in their ranges. Only want
//! of memory is free.
//! Not said here: that a report is lawful, which the crates above show of the machines that they make.
#![tactic(auto)]

mod reporting;

pub use reporting::report_of_machine;
