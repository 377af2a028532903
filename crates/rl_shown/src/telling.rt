//! What is told of a replay, over the core of whichever lock its placement has.

ghost use Rattle.std.specs.Prelude.{◌≡◌, IfOk};
ghost use Rattle.rl_inputs.specs.Fitting.{IsProper, ReplayFits};
ghost use Rattle.rl_locks.specs.Kinds.{lock_kind_of};
ghost use Rattle.rl_shown.specs.Telling.{told_by};

use crate::listing::list_with;
use crate::state::state_with;
use rl_core::{Resting, ShardGuiding};
use rl_locks::{CoreTask, Promising, over_lock};
use rl_ops::{Ops, Schedule};
use rl_place::Place;
use rl_viewer::Window;
use std::alloc::{AllocError as OutOfMemory, Global};

/// What is told of a replay.
#[derive(Clone, Copy)]
pub enum Telling {
    /// Its steps in a window.
    Steps(Window),
    /// The state before this step.
    Before(u32),
}

/// What is told of a replay, with the core of whichever lock the placement has.
#[derive(Drop)]
struct TellTask<'a> {
    alloc: Global,
    ops: Ops,
    schedule: &'a Schedule,
    what: Telling,
}

impl CoreTask for TellTask<'_> {
    type Out = Result<Vec<u8>, OutOfMemory>;

    ghost takes = { λ r place. ReplayFits place r.ops r.schedule.now };

    ghost gives = { λ r place kind urgent result. IfOk result (λ text. text.items ≡ told_by kind place r.ops r.schedule.now r.what) };

    fn over<C: Resting + Promising + ShardGuiding>(
        self,
        place: &Place,
    ) -> Result<Vec<u8>, OutOfMemory> {
        let TellTask {
            alloc,
            ops,
            schedule,
            what,
        } = self;
        match what {
            Telling::Steps(window) => list_with::<C>(alloc, place, ops, schedule, window),
            Telling::Before(step) => state_with::<C>(alloc, place, ops, schedule, step),
        }
    }
}

/// The text that tells it. Refused only for want of memory.
pub fn told(
    alloc: Global,
    place: &Place,
    ops: Ops,
    schedule: &Schedule,
    what: Telling,
) -> Result<Vec<u8>, OutOfMemory>
    requires proper { IsProper place.now }
    requires fits { ReplayFits place.now ops schedule.now }
    ensures { IfOk result (λ text. text.items ≡ told_by (lock_kind_of place.now.lock) place.now ops schedule.now what) }
{
    over_lock(
        place,
        TellTask {
            alloc,
            ops,
            schedule,
            what,
        },
    )
}
