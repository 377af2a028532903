//! The machine after some turns, made anew: so a step that was looked at is as if it weren't made.

ghost use Rattle.std.specs.Prelude.{◌≡◌, ◌≤◌, length, IfOk};
ghost use Rattle.std.specs.List.{AllByRecursion};
ghost use Rattle.rl_inputs.specs.Fitting.{shape_of, knobs_of};
ghost use Rattle.rl_ops.specs.declared.schedule.TheConstants.{MOST_STEPS};
ghost use Rattle.rl_ops.specs.Schedule.{TurnFits};
ghost use Rattle.rl_machine.specs.Run.{steps_in};
ghost use Rattle.rl_drawing.specs.Leads.{SceneFits, IsAfter};

use crate::looking::Scene;
use rl_core::Resting;
use rl_machine::Machine;
use rl_ops::Turn;
use rl_replay::replay;
use rl_shown::copied;
use std::alloc::AllocError as OutOfMemory;

/// The machine after these turns from its beginning on. Refused only for want of memory.
pub fn machine_after<C: Resting>(
    scene: Scene<'_>,
    turns: &[Turn],
) -> Result<Machine<C>, OutOfMemory>
    requires scene { SceneFits C.batches scene }
    requires knobs { C.suits_knobs (shape_of scene.place.now) (knobs_of scene.place.now.lock) }
    requires there { AllByRecursion (TurnFits (length scene.place.now.paths)) turns.now }
    requires few { steps_in turns.now ≤ MOST_STEPS }
    ensures { IfOk result (IsAfter C.says C.defined scene.entry turns.now) }
{
    let Scene {
        alloc,
        place,
        ops,
        ..
    } = scene;
    let shape = place.shape(alloc)?;
    let ops = copied(alloc, ops)?;
    let homes = place.homes.as_slice();
    replay::<C>(alloc, &shape, place.knobs(), place.geom, homes, ops, turns)
}
