//! A run of all calls of a placement's ranks, from its shards to its report.

ghost use Rattle.std.specs.Prelude.{◌≡◌, ◌≤◌, ◌<◌, ◌^◌, ℕ, [], false, All, IfOk, get_or, length, map, slice_index, vec_len};
ghost use Rattle.rl_place.specs.LockWords.{name_of};
ghost use Rattle.rl_place.specs.Places.{IsProper};
ghost use Rattle.rl_place.specs.Shapes.{shape_of, knobs_of};
ghost use Rattle.rl_step.specs.LockQueues.{readers_share, lock_under, spares_gets};
ghost use Rattle.rl_ops.specs.Ops.{OpsFit, total_calls};
ghost use Rattle.rl_report.specs.Lawful.{IsLawful};
ghost use Rattle.rl_run.specs.Made.{IsRunBy};
ghost use Rattle.rl_run.specs.Runs.{told};
ghost use Rattle.rl_run.specs.Told.{ToldNumbersFit, all_done, part_of as part_told};

use crate::opening::begin_all;
use crate::reporting::part_of;
use crate::run::run_callers;
use rl_core::ShardCore;
use rl_io::Gate;
use rl_ops::Ops;
use rl_place::Place;
use rl_report::{Done, Report, ShardReport};
use rl_shard::Closed;
use std::alloc::{AllocError as OutOfMemory, Global};
use std::sync::Wait;
use std::thread::Threads;

/// What each rank has done once it has done all its calls.
fn all_dones(alloc: Global, ops: &Ops) -> Result<Vec<Done>, OutOfMemory>
    requires { total_calls ops.now.by_rank ≤ 20000 }
    ensures { IfOk result (λ dones. dones.items ≡ all_done ops.now) }
{
    let mut dones = Vec::new(alloc);
    for calls in ops.by_rank.as_slice() {
        let count = calls.len() as u32;
        dones.push(Done {
            done: count,
            given: count,
        })?;
    }
    Ok(dones)
}

/// The parts of the report that closed shards give, in their order.
fn parts_of(alloc: Global, mut ends: Vec<Closed>) -> Result<Vec<ShardReport>, OutOfMemory>
    requires { All (λ e. vec_len e.journal < 2 ^ 32) ends.items }
    ensures parts { IfOk result (λ parts. parts.items ≡ map part_told (map told ends.items)) }
    ensures numbers { IfOk result (λ _. All ToldNumbersFit (map told ends.items)) }
{
    let mut parts = Vec::new(alloc);
    while ends.len() > 0 {
        let closed = ends.remove(0);
        parts.push(part_of(alloc, closed)?)?;
    }
    Ok(parts)
}

/// Runs all calls of a placement's ranks, a thread for each rank, and gives the report.
///
/// `C` is the core of the placement's lock: it stands on the lock on which the placement's stands, and a get alone is a tenure under it where
/// the report counts one; none of the calls is in a batch where the core does none. Each shard is a window that the threads share, each rank
/// has a caller with a seat at each shard, and the gate stands at the callers' blocks and steps. The report tells of a history that one
/// thread could have made, which holds all calls of each rank, once and in its order; and of each shard it tells what some order of the ranks'
/// openings and atoms leaves there, each of `C`'s machine (`made`). Which of several such reports it is depends on how the threads come to
/// their steps. It waits for its threads. Refused only for want of memory, which is asked for before the first step and after the last.
pub fn run_all<C: ShardCore + Send + Sync, G: Gate, R: Threads + Wait + Sync>(
    rt: &R,
    alloc: Global,
    place: &Place,
    ops: Ops,
    gate: &G,
) -> Result<Report, OutOfMemory>
where
    C::View: Send + Sync,
    requires proper { IsProper place.now }
    requires knobs { C.suits_knobs (shape_of place.now) (knobs_of place.now.lock) }
    requires kind { C.name ≡ lock_under (name_of place.now.lock) }
    requires gets { C.spares (readers_share C.name) ≡ spares_gets (name_of place.now.lock) }
    requires batches { C.batches ≡ false → (k i : ℕ) → slice_index (get_or ops.sizes k []) i ≤ 1 }
    requires calls { OpsFit (length place.now.paths) place.now.geom.shards ops }
    ensures lawful { IfOk result (λ report. IsLawful place.now ops report) }
    ensures made { IfOk result (λ report. IsRunBy C.defined place.now ops report) }
{
    let done = all_dones(alloc, &ops)?;
    let (shards, callers) = begin_all::<C>(alloc, place, ops)?;
    let ends = run_callers(rt, alloc, shards, callers, gate)?;
    let parts = parts_of(alloc, ends)?;
    Ok(Report {
        shards: parts,
        done,
        steps: None,
    })
}
