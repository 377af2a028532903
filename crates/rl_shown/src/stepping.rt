//! The steps of a machine, one after the other, each with the line that tells of it.

ghost use Rattle.std.specs.Prelude.{◌≡◌, ◌+◌, ◌-◌, ◌<◌, ◌^◌, ◌++◌, ◌∷◌, [], length, replicate, OnOk};
ghost use Rattle.rl_model.specs.Geom.{GeomFits};
ghost use Rattle.rl_text.specs.Printing.{Puts};
ghost use Rattle.rl_text.specs.Spelling.{text_of};
ghost use Rattle.rl_step.specs.Answers.{steps_made};
ghost use Rattle.rl_ops.specs.Schedule.{TurnFits, steps_of};
ghost use Rattle.rl_machine.specs.Running.{running};
ghost use Rattle.rl_machine.specs.Run.{stepped, run_of, turn_ranks};
ghost use Rattle.rl_report.specs.Printing.{spaced};
ghost use Rattle.rl_shown.specs.Listing.{is_out, out_word, scene_line, scene_lines};

use rl_core::ShardCore;
use rl_machine::{Machine, steps_made};
use rl_names::put_step;
use rl_ops::Turn;
use rl_place::Place;
use rl_report::{Naming, put_value, put_word};
use rl_step::Standing;
use rl_text::put_number;
use rl_viewer::Window;
use std::alloc::AllocError as OutOfMemory;

/// What is listed: the placement, by whose names, and which steps.
#[derive(Clone, Copy)]
pub struct Scene<'a> {
    pub place: &'a Place,
    pub naming: &'a Naming,
    pub window: Window,
}

/// `out`, where a rank that stood at the lock before a step is out of it behind it.
fn put_out(out: &mut Vec<u8>, before: Standing, behind: Standing) -> Result<(), OutOfMemory>
    ensures { Puts result out.old out.new (spaced (out_word before behind)) }
{
    if !is_out(before) && is_out(behind) {
        return put_word(out, b"out");
    }
    Ok(())
}

fn is_out(standing: Standing) -> bool
    ensures { result ≡ is_out standing }
{
    match standing {
        Standing::Out => true,
        Standing::Asking | Standing::Writer | Standing::Reader | Standing::Leaving => false,
    }
}

/// Makes one step of a rank, and appends its line.
fn list_step<C: ShardCore>(
    out: &mut Vec<u8>,
    scene: Scene<'_>,
    machine: &mut Machine<C>,
    rank: u32,
) -> Result<(), OutOfMemory>
    requires there { rank < length machine.old.calls }
    requires few { steps_made machine.old.steps < 2 ^ 32 - 1 }
    requires fits { GeomFits scene.place.now.geom }
    ensures text { Puts result out.old out.new (text_of (scene_line C.says scene.entry machine.old rank ∷ [])) }
    ensures stepped { OnOk result (running C.says machine.new ≡ stepped (running C.says machine.old) rank) }
    ensures counted { OnOk result (steps_made machine.new.steps ≡ steps_made machine.old.steps + 1) }
    ensures calls { OnOk result (machine.new.calls ≡ machine.old.calls) }
{
    put_number(out, u64::from(steps_made(machine.steps())))?;
    put_word(out, b"rank")?;
    put_value(out, u64::from(rank))?;
    let before = machine.standing(rank);
    let _ = put_step(out, scene.place, scene.naming, machine, rank)?;
    put_out(out, before, machine.standing(rank))?;
    out.push(b'\n')?;
    Ok(())
}

/// Makes one step of a rank, and appends its line where it is in the window.
fn take_step<C: ShardCore>(
    out: &mut Vec<u8>,
    scene: Scene<'_>,
    machine: &mut Machine<C>,
    rank: u32,
) -> Result<(), OutOfMemory>
    requires there { rank < length machine.old.calls }
    requires few { steps_made machine.old.steps < 2 ^ 32 - 1 }
    requires fits { GeomFits scene.place.now.geom }
    ensures text { Puts result out.old out.new (text_of (scene_lines C.says scene.entry machine.old (rank ∷ []))) }
    ensures stepped { OnOk result (running C.says machine.new ≡ stepped (running C.says machine.old) rank) }
    ensures counted { OnOk result (steps_made machine.new.steps ≡ steps_made machine.old.steps + 1) }
    ensures calls { OnOk result (machine.new.calls ≡ machine.old.calls) }
{
    if scene.window.has(steps_made(machine.steps())) {
        list_step(out, scene, machine, rank)
    } else {
        machine.step(rank)?;
        Ok(())
    }
}

/// Makes so many steps of a rank.
fn take_steps<C: ShardCore>(
    out: &mut Vec<u8>,
    scene: Scene<'_>,
    machine: &mut Machine<C>,
    rank: u32,
    count: u32,
) -> Result<(), OutOfMemory>
    requires there { rank < length machine.old.calls }
    requires few { steps_made machine.old.steps + count < 2 ^ 32 }
    requires fits { GeomFits scene.place.now.geom }
    ensures text { Puts result out.old out.new (text_of (scene_lines C.says scene.entry machine.old (replicate count rank))) }
    ensures run { OnOk result (running C.says machine.new ≡ run_of (running C.says machine.old) (replicate count rank)) }
    ensures counted { OnOk result (steps_made machine.new.steps ≡ steps_made machine.old.steps + count) }
    ensures calls { OnOk result (machine.new.calls ≡ machine.old.calls) }
{
    for _ in 0..count {
        take_step(out, scene, machine, rank)?;
    }
    Ok(())
}

/// Makes the steps of a turn. A stop has none.
pub fn take_turn<C: ShardCore>(
    out: &mut Vec<u8>,
    scene: Scene<'_>,
    machine: &mut Machine<C>,
    turn: Turn,
) -> Result<(), OutOfMemory>
    requires there { TurnFits (length machine.old.calls) turn }
    requires few { steps_made machine.old.steps + steps_of turn < 2 ^ 32 }
    requires fits { GeomFits scene.place.now.geom }
    ensures text { Puts result out.old out.new (text_of (scene_lines C.says scene.entry machine.old (turn_ranks turn))) }
    ensures run { OnOk result (running C.says machine.new ≡ run_of (running C.says machine.old) (turn_ranks turn)) }
    ensures counted { OnOk result (steps_made machine.new.steps ≡ steps_made machine.old.steps + steps_of turn) }
    ensures calls { OnOk result (machine.new.calls ≡ machine.old.calls) }
{
    match turn {
        Turn::Steps { rank, count } => take_steps(out, scene, machine, u32::from(rank), count),
        Turn::Stop { .. } => Ok(()),
    }
}
