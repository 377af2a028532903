//! The listing of a replay: its machine is made, over the lock of the placement, and makes the steps of the schedule.

ghost use Rattle.std.specs.Prelude.{◌≡◌, length, IfOk};
ghost use Rattle.rl_inputs.specs.Fitting.{IsProper, shape_of, knobs_of, name_of, does_batches, OpsFit, SuitsLock, ScheduleFits, ReplayFits};
ghost use Rattle.rl_locks.specs.Kinds.{lock_kind_of};
ghost use Rattle.rl_text.specs.Spelling.{text_of};
ghost use Rattle.rl_shown.specs.Listing.{head_lines, listing_with, IsListing};

use crate::stepping::{Scene, take_turn};
use crate::telling::{Telling, told};
use rl_core::ShardCore;
use rl_inputs::Replay;
use rl_machine::Machine;
use rl_ops::{Ops, Schedule};
use rl_place::Place;
use rl_report::{Naming, put_word};
use rl_viewer::{Viewer, Window};
use std::alloc::{AllocError as OutOfMemory, Global};

/// The first lines: the version, and the lock.
fn head(alloc: Global, naming: &Naming) -> Result<Vec<u8>, OutOfMemory>
    ensures { IfOk result (λ text. text.items ≡ text_of (head_lines naming.now)) }
{
    let mut out = Vec::from_slice(alloc, b"rmalock-steps 2\nreplay")?;
    put_word(&mut out, naming.lock.as_bytes())?;
    out.push(b'\n')?;
    Ok(out)
}

/// The listing of a replay with this core, which is that of the placement's lock.
pub fn list_with<C: ShardCore>(
    alloc: Global,
    place: &Place,
    ops: Ops,
    schedule: &Schedule,
    window: Window,
) -> Result<Vec<u8>, OutOfMemory>
    requires proper { IsProper place.now }
    requires knobs { C.suits_knobs (shape_of place.now) (knobs_of place.now.lock) }
    requires batches { C.batches ≡ does_batches (name_of place.now.lock) }
    requires fits { ReplayFits place.now ops schedule.now }
    ensures { IfOk result (λ text. text.items ≡ listing_with C.defined place.now ops schedule.now window) }
{
    let shape = place.shape(alloc)?;
    let naming = Naming::of(alloc, place)?;
    let mut out = head(alloc, &naming)?;
    let homes = place.homes.as_slice();
    let turns = schedule.turns.as_slice();
    let knobs = place.knobs();
    let mut machine: Machine<C> = Machine::new(alloc, &shape, knobs, place.geom, homes, ops)?;
    let scene = Scene {
        place,
        naming: &naming,
        window,
    };
    for turn in turns {
        take_turn(&mut out, scene, &mut machine, *turn)?;
    }
    out.extend_from_slice(b"end\n")?;
    Ok(out)
}

/// The listing of a replay: a line for each of its steps in the window. The calls and the schedule are of the placement's ranks, and no batch is
/// among the calls where the lock does none. Refused only for want of memory.
pub fn listing_text(
    alloc: Global,
    place: &Place,
    ops: Ops,
    schedule: &Schedule,
    window: Window,
) -> Result<Vec<u8>, OutOfMemory>
    requires proper { IsProper place.now }
    requires calls { OpsFit (length place.now.paths) place.now.geom.shards ops }
    requires suits { SuitsLock place.now ops }
    requires schedule { ScheduleFits (length place.now.paths) schedule.now }
    ensures { IfOk result (λ text. text.items ≡ listing_with (lock_kind_of place.now.lock).defined place.now ops schedule.now window) }
{
    told(alloc, place, ops, schedule, Telling::Steps(window))
}

/// Shows a replay by its listing.
pub struct Lister;

impl Viewer for Lister {
    ghost shows = { IsListing };

    fn show(alloc: Global, replay: Replay, window: Window) -> Result<Vec<u8>, OutOfMemory> {
        let Replay {
            place,
            ops,
            schedule,
        } = replay;
        listing_text(alloc, &place, ops, &schedule, window)
    }
}
