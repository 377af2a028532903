//! Draws the schedule of a sketch: lines that say which ranks go on, and up to what their steps show.
//!
//! `rl_sketch` reads the sketch, and `rl_drawing` draws it; what it means is defined there, in `specs/Drawing`.
#![tactic(auto)]

mod answering;
mod explaining;
mod reading;
mod unended;

use crate::answering::Scheduler;
use rl_viewer::run;
use std::process::ExitCode;

/// The one line that says which words are a form.
const USAGE: &[u8] = b"usage: rmalock-schedule PLACE CALLS SKETCH\n";

/// Draws what the command line asks for, and ends with the status.
fn main(rt: HostRuntime) -> ExitCode {
    run::<Scheduler, _>(&rt, "rmalock-schedule", USAGE)
}
