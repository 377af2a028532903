//! The state before a step: its machine is made, over the lock of the placement, makes the steps before it, and is told.

ghost use Rattle.std.specs.Prelude.{◌≡◌, length, IfOk};
ghost use Rattle.rl_inputs.specs.Fitting.{IsProper, shape_of, knobs_of, name_of, does_batches, OpsFit, SuitsLock, ScheduleFits, ReplayFits};
ghost use Rattle.rl_text.specs.Printing.{Puts};
ghost use Rattle.rl_text.specs.Spelling.{text_of};
ghost use Rattle.rl_word.specs.Shapes.{IsProper as IsProperShape};
ghost use Rattle.rl_report.specs.Naming.{naming_of};
ghost use Rattle.rl_machine.specs.Running.{running};
ghost use Rattle.rl_locks.specs.Kinds.{lock_kind_of};
ghost use Rattle.rl_shown.specs.Cores.{HaveTables, tables_of};
ghost use Rattle.rl_shown.specs.State.{head_lines, body_lines, state_spelling, machine_before, state_with, IsState};

use crate::cores::cores_of;
use crate::front::{front_of, total_steps};
use crate::ranks::{put_cards, put_ranks};
use crate::telling::{Telling, told};
use crate::words::put_words;
use rl_core::{Resting, ShardCore};
use rl_inputs::Replay;
use rl_machine::Machine;
use rl_ops::{Ops, Schedule};
use rl_place::Place;
use rl_replay::replay;
use rl_report::{Naming, put_value, put_word};
use rl_viewer::{Viewer, Window};
use rl_word::Shape;
use std::alloc::{AllocError as OutOfMemory, Global};

/// The first lines: the version, and before which of how many steps.
fn head(alloc: Global, step: u32, total: u32) -> Result<Vec<u8>, OutOfMemory>
    ensures { IfOk result (λ text. text.items ≡ text_of (head_lines step total)) }
{
    let mut out = Vec::from_slice(alloc, b"rmalock-state 1\nbefore")?;
    put_value(&mut out, u64::from(step))?;
    put_word(&mut out, b"of")?;
    put_value(&mut out, u64::from(total))?;
    out.push(b'\n')?;
    Ok(out)
}

/// The lines of a machine: its words, whose homes these cores tell, its cards and its ranks.
fn put_body<C: ShardCore>(
    alloc: Global,
    out: &mut Vec<u8>,
    place: &Place,
    machine: &Machine<C>,
    cores: &[C],
) -> Result<(), OutOfMemory>
    requires proper { IsProper place.now }
    requires ranks { length machine.now.calls ≡ length place.now.paths }
    requires cores { HaveTables C.says cores.now (tables_of (running C.says machine.now)) }
    ensures { Puts result out.old out.new (text_of (body_lines place.now (naming_of place.now) (running C.says machine.now))) }
{
    let naming = Naming::of(alloc, place)?;
    put_words(out, place, &naming, machine, cores)?;
    put_cards(out, machine, naming.ranks)?;
    put_ranks(alloc, out, machine, naming.ranks)
}

/// The text of a machine that stands before a step.
fn machine_text<C: ShardCore>(
    alloc: Global,
    place: &Place,
    machine: &Machine<C>,
    cores: &[C],
    step: u32,
    total: u32,
) -> Result<Vec<u8>, OutOfMemory>
    requires proper { IsProper place.now }
    requires ranks { length machine.now.calls ≡ length place.now.paths }
    requires cores { HaveTables C.says cores.now (tables_of (running C.says machine.now)) }
    ensures { IfOk result (λ text. text.items ≡ state_spelling place.now step total (running C.says machine.now)) }
{
    let mut out = head(alloc, step, total)?;
    put_body(alloc, &mut out, place, machine, cores)?;
    out.extend_from_slice(b"end\n")?;
    Ok(out)
}

/// The machine before a step: after the steps before it.
fn machine_before<C: Resting>(
    alloc: Global,
    place: &Place,
    shape: &Shape,
    ops: Ops,
    schedule: &Schedule,
    step: u32,
) -> Result<Machine<C>, OutOfMemory>
    requires proper { IsProper place.now }
    requires knobs { C.suits_knobs (shape_of place.now) (knobs_of place.now.lock) }
    requires batches { C.batches ≡ does_batches (name_of place.now.lock) }
    requires shape { shape.now ≡ shape_of place.now }
    requires well { IsProperShape shape.now }
    requires fits { ReplayFits place.now ops schedule.now }
    ensures { IfOk result (λ m. running C.says m ≡ machine_before C.defined place.now ops schedule.now step) }
{
    let front = front_of(alloc, schedule.turns.as_slice(), step)?;
    replay::<C>(
        alloc,
        shape,
        place.knobs(),
        place.geom,
        place.homes.as_slice(),
        ops,
        front.as_slice(),
    )
}

/// The state before a step, with this core, which is that of the placement's lock.
pub fn state_with<C: Resting>(
    alloc: Global,
    place: &Place,
    ops: Ops,
    schedule: &Schedule,
    step: u32,
) -> Result<Vec<u8>, OutOfMemory>
    requires proper { IsProper place.now }
    requires knobs { C.suits_knobs (shape_of place.now) (knobs_of place.now.lock) }
    requires batches { C.batches ≡ does_batches (name_of place.now.lock) }
    requires fits { ReplayFits place.now ops schedule.now }
    ensures { IfOk result (λ text. text.items ≡ state_with C.defined place.now ops schedule.now step) }
{
    let shape = place.shape(alloc)?;
    let cores: Vec<C> = cores_of(alloc, place, &shape, &ops)?;
    let machine = machine_before(alloc, place, &shape, ops, schedule, step)?;
    let total = total_steps(schedule.turns.as_slice());
    machine_text(alloc, place, &machine, cores.as_slice(), step, total)
}

/// The state before a step of a replay: after the steps before it, or after all where there are no more. The calls and the schedule are of the
/// placement's ranks, and no batch is among the calls where the lock does none. Refused only for want of memory.
pub fn state_text(
    alloc: Global,
    place: &Place,
    ops: Ops,
    schedule: &Schedule,
    step: u32,
) -> Result<Vec<u8>, OutOfMemory>
    requires proper { IsProper place.now }
    requires calls { OpsFit (length place.now.paths) place.now.geom.shards ops }
    requires suits { SuitsLock place.now ops }
    requires schedule { ScheduleFits (length place.now.paths) schedule.now }
    ensures { IfOk result (λ text. text.items ≡ state_with (lock_kind_of place.now.lock).defined place.now ops schedule.now step) }
{
    told(alloc, place, ops, schedule, Telling::Before(step))
}

/// Shows the state before the first step of a window.
pub struct Stater;

impl Viewer for Stater {
    ghost shows = { IsState };

    fn show(alloc: Global, replay: Replay, window: Window) -> Result<Vec<u8>, OutOfMemory> {
        let Replay {
            place,
            ops,
            schedule,
        } = replay;
        state_text(alloc, &place, ops, &schedule, window.from)
    }
}
