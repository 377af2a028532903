//! Writes the data of a page of a replay: all that a page for a browser shows of it, as one text. `scripts/show-page` puts it into a page.
//!
//! It is a viewer: `rl_viewer` reads the words and the files, and answers with the data that `rl_page` puts together. The bytes with status 0 are
//! exactly those data, which `specs/PageData` defines there.
#![tactic(auto)]

use rl_page::Pager;
use rl_viewer::{Show, Steps, run};
use std::process::ExitCode;

/// The one line that says which words are a form.
const USAGE: &[u8] = b"usage: rmalock-page PLACE CALLS SCHEDULE [FROM TO]\n";

/// Writes the data of the page that the command line asks for, and ends with the status.
fn main(rt: HostRuntime) -> ExitCode {
    run::<Show<Pager, Steps>, _>(&rt, "rmalock-page", USAGE)
}
