//! Tells the state before a step of a replay: what each word holds, who is in which card, and how each rank stands.
//!
//! It is a viewer: `rl_viewer` reads the words and the files, and answers with the state that `rl_shown` tells. The bytes with status 0 are
//! exactly the state before the step, which `specs/State` defines there; the names of words are those of `rl_names`.
#![tactic(auto)]

use rl_shown::Stater;
use rl_viewer::{Before, Show, run};
use std::process::ExitCode;

/// The one line that says which words are a form.
const USAGE: &[u8] = b"usage: rmalock-state PLACE CALLS SCHEDULE STEP\n";

/// Tells the state that the command line asks for, and ends with the status.
fn main(rt: HostRuntime) -> ExitCode {
    run::<Show<Stater, Before>, _>(&rt, "rmalock-state", USAGE)
}
