//! The run over a placement and calls that are made from a number.
ghost use Rattle.std.specs.Prelude.{◌≡◌, true, ◌≤◌, length, IfOk};
ghost use Rattle.rl_place.specs.declared.limits.TheConstants.{MOST_RANKS};
ghost use Rattle.rl_place.specs.Places.{IsProper};
ghost use Rattle.rl_place.specs.Shapes.{shape_of, knobs_of};
ghost use Rattle.rl_ops.specs.declared.ops.TheConstants.{MOST_CALLS};
ghost use Rattle.rl_ops.specs.Ops.{OpsFit};
ghost use Rattle.rl_making.specs.Summary.{report_of_laps, counts_in, made_summary};

use crate::counts::{RunCounts, counts_of_machine};
use crate::generating::generate;
use crate::laps::make_laps;
use crate::summary::summary_text;
use rl_core::{Resting, TellsAll};
use rl_locks::AlockCore;
use rl_machine::Machine;
use rl_ops::{MOST_STEPS, Ops};
use rl_place::Place;
use std::alloc::{AllocError as OutOfMemory, Global};

/// What is counted of a run of laps, of at most so many steps, with this kind of lock.
fn counts_of_laps<C: Resting + TellsAll>(
    alloc: Global,
    place: &Place,
    ops: Ops,
    most: u32,
) -> Result<RunCounts, OutOfMemory>
    requires proper { IsProper place.now }
    requires knobs { C.suits_knobs (shape_of place.now) (knobs_of place.now.lock) }
    requires calls { OpsFit (length place.now.paths) place.now.geom.shards ops }
    requires batches { C.batches ≡ true }
    ensures { IfOk result (λ counts. counts ≡ counts_in (report_of_laps C.defined place.now ops most)) }
{
    let shape = place.shape(alloc)?;
    let homes = place.homes.as_slice();
    let ranks = place.paths.len() as u32;
    let mut machine: Machine<C> = Machine::new(
        alloc,
        &shape,
        place.knobs(),
        place.geom,
        homes,
        ops,
    )?;
    make_laps(alloc, &mut machine, ranks, most)?;
    counts_of_machine(alloc, place, &machine)
}

/// The summary of a run of so many calls of so many ranks, all made from a number: laps of the machine under ALock, until no
/// call is open or left, or 2,000,000 steps were made. Refused only for want of memory.
pub fn made_summary(
    alloc: Global,
    number: u64,
    ranks: u32,
    calls: u32,
) -> Result<Vec<u8>, OutOfMemory>
    requires some_ranks { 1 ≤ ranks }
    requires most_ranks { ranks ≤ MOST_RANKS }
    requires most_calls { calls ≤ MOST_CALLS }
    ensures { IfOk result (λ text. text.items ≡ made_summary number ranks calls) }
{
    let (place, ops) = generate(alloc, number, ranks, calls)?;
    let counts = counts_of_laps::<AlockCore>(alloc, &place, ops, MOST_STEPS)?;
    summary_text(alloc, ranks, calls, &counts)
}
