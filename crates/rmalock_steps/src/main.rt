//! Lists a replay: a line for each step, with the atom that it makes on the word that it names, what it finds, its answer and its events.
//!
//! It is a viewer: `rl_viewer` reads the words and the files, and answers with the listing that `rl_shown` makes. The bytes with status 0 are
//! exactly the listing of the run, which `specs/Listing` defines there; the names of words are those of `rl_names`.
#![tactic(auto)]

use rl_shown::Lister;
use rl_viewer::{Show, Steps, run};
use std::process::ExitCode;

/// The one line that says which words are a form.
const USAGE: &[u8] = b"usage: rmalock-steps PLACE CALLS SCHEDULE [FROM TO]\n";

/// Lists what the command line asks for, and ends with the status.
fn main(rt: HostRuntime) -> ExitCode {
    run::<Show<Lister, Steps>, _>(&rt, "rmalock-steps", USAGE)
}
