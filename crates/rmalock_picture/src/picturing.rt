//! The picture of a replay.
ghost use Rattle.std.specs.Prelude.{◌≤◌};
ghost use Rattle.rmalock_picture.specs.Answer.{IsPicture};

use crate::drawing::{Scene, draw};
use crate::recording::record;
use rl_inputs::Replay;
use rl_ops::Schedule;
use rl_report::Naming;
use rl_viewer::{Viewer, Window};
use std::alloc::{AllocError as OutOfMemory, Global};

/// The most steps that a picture shows.
const MOST_SHOWN: u32 = 2000;

/// The steps of a window that are shown: as many as a picture may have.
fn shown(window: Window) -> Window
    requires { window.to ≤ 2000000 }
    ensures { result.to ≤ 2000000 }
{
    let most = window.from.saturating_add(MOST_SHOWN);
    Window {
        from: window.from,
        to: window.to.min(most),
    }
}

/// How many steps a schedule has.
fn steps_of(schedule: &Schedule) -> u32 {
    let mut steps = 0u32;
    for turn in schedule.turns.as_slice() {
        steps = steps.saturating_add(turn.steps());
    }
    steps
}

/// Shows a replay by its picture: its machine is made, over the lock of the placement, and makes its steps.
pub struct Drawer;

impl Viewer for Drawer {
    ghost shows = { IsPicture };

    fn show(alloc: Global, replay: Replay, window: Window) -> Result<Vec<u8>, OutOfMemory> {
        let window = shown(window);
        let Replay {
            place,
            ops,
            schedule,
        } = replay;
        let lanes = record(alloc, &place, ops, &schedule, window)?;
        let shape = place.shape(alloc)?;
        let naming = Naming::of(alloc, &place)?;
        let scene = Scene {
            lock: place.lock.name(),
            naming: &naming,
            paths: place.paths.as_slice(),
            nodes: shape.node_of.as_slice(),
            homes: place.homes.as_slice(),
            lanes: lanes.as_slice(),
            window,
            steps: steps_of(&schedule),
        };
        draw(alloc, &scene)
    }
}
