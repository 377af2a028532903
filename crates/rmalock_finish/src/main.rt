//! Makes a schedule complete: prints it with the turns behind it by which all calls of all ranks end.
//!
//! What is printed is defined in `rl_completed`; `rl_viewer` reads the words, and `answering.rt` answers to the files: with the schedule, or the
//! line that says why there is none.
#![tactic(auto)]

mod answering;
mod explaining;

use crate::answering::Finisher;
use rl_viewer::run;
use std::process::ExitCode;

/// The one line that says which words are a form.
const USAGE: &[u8] = b"usage: rmalock-finish PLACE CALLS SCHEDULE\n";

/// Makes the schedule complete that the command line names, and ends with the status.
fn main(rt: HostRuntime) -> ExitCode {
    run::<Finisher, _>(&rt, "rmalock-finish", USAGE)
}
