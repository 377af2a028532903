//! Draws a replay: a lane for each rank, time from left to right.
//!
//! The program is also the example of how the library is used. It is a viewer: `rl_viewer` reads the words and the files, and
//! answers. `picturing.rt` has the replay drawn: `recording.rt` makes a machine and its steps and takes down what each tells, in
//! `lanes.rt`, with what `deeds.rt` calls it; `drawing.rt` draws that, in the rows of `scale.rt`, with the labels of `labels.rt`, the legend of
//! `legend.rt` and the elements of `svg.rt`.
#![tactic(auto)]

mod deeds;
mod drawing;
mod labels;
mod lanes;
mod legend;
mod picturing;
mod recording;
mod scale;
mod svg;

use crate::picturing::Drawer;
use rl_viewer::{Show, Steps, run};
use std::process::ExitCode;

/// The one line that says which words are a form.
const USAGE: &[u8] = b"usage: rmalock-picture PLACE CALLS SCHEDULE [FROM TO]\n";

/// Draws what the command line asks for, and ends with the status.
fn main(rt: HostRuntime) -> ExitCode {
    run::<Show<Drawer, Steps>, _>(&rt, "rmalock-picture", USAGE)
}
