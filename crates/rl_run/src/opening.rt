//! The shards of a run before its first step, and the callers of its ranks.

ghost use Rattle.std.specs.Prelude.{◌≡◌, ◌≤◌, ◌<◌, ℕ, [], false, get_or, length, map, replicate, slice_index, All, IfOk, vec_items, vec_len};
ghost use Rattle.std.specs.List.{AllByRecursion};
ghost use Rattle.rl_model.specs.Geom.{GeomFits};
ghost use Rattle.rl_word.specs.Shapes.{IsProper};
ghost use Rattle.rl_place.specs.Places.{IsProper as IsProperPlace};
ghost use Rattle.rl_place.specs.Shapes.{shape_of, knobs_of};
ghost use Rattle.rl_ops.specs.Ops.{OpsFit, total_calls};
ghost use Rattle.rl_run.specs.Runs.{AreAllNew, AreMadeOf, HaveBegun, CallerMayWork, table_for};

use crate::caller::Caller;
use crate::rows::deal_seats;
use rl_core::ShardCore;
use rl_model::{Call, Geom};
use rl_ops::Ops;
use rl_place::Place;
use rl_shard::{Seat, Shard};
use rl_word::{Knobs, Shape};
use std::alloc::{AllocError as OutOfMemory, Global};

// So many empty rows, each with room for a seat of each shard, so that it moves none while it grows.
fn empty_rows<T: Drop>(
    alloc: Global,
    ranks: usize,
    shards: usize,
) -> Result<Vec<Vec<T>>, OutOfMemory>
    ensures { IfOk result (λ rows. map vec_items rows.items ≡ replicate ranks []) }
{
    let mut rows = Vec::new(alloc);
    for _ in 0..ranks {
        rows.push(Vec::with_capacity(alloc, shards)?)?;
    }
    Ok(rows)
}

/// The shards of a table on these homes, and the seats of each rank, in the order of the shards. Refused only
/// for want of memory.
pub fn open_all<C: ShardCore>(
    alloc: Global,
    shape: &Shape,
    knobs: Knobs,
    geom: Geom,
    homes: &[u32],
    ops: &Ops,
) -> Result<(Vec<Shard<C>>, Vec<Vec<Seat<C>>>), OutOfMemory>
    requires proper { IsProper shape.now }
    requires knobs { C.suits_knobs shape.now knobs }
    requires fits { GeomFits geom }
    requires many { length homes.now ≡ geom.shards }
    requires homes { AllByRecursion (λ home. home < shape.now.nodes) homes.now }
    requires ranks { length ops.now.by_rank ≡ length shape.now.node_of }
    requires few { total_calls ops.now.by_rank ≤ 20000 }
    ensures all { IfOk result (λ p. length p.0.items ≡ geom.shards) }
    ensures made { IfOk result (AreAllNew C.defined C.says (table_for shape.now knobs geom homes.now ops.now.by_rank)) }
{
    let mut rooms = ops.rooms(alloc, geom)?;
    let mut shards = Vec::new(alloc);
    let mut rows = empty_rows(alloc, ops.by_rank.as_slice().len(), geom.shards as usize)?;
    for number in 0..geom.shards {
        let home = homes[number as usize];
        let room = rooms.remove(0);
        let (shard, seats) = Shard::new(alloc, shape, knobs, home, geom, number, room)?;
        rows = deal_seats(alloc, rows, seats)?;
        shards.push(shard)?;
    }
    Ok((shards, rows))
}

/// A caller for each rank, of its calls with their sizes and its row of seats. Refused only for want of memory.
pub fn callers_of<C: ShardCore>(
    alloc: Global,
    geom: Geom,
    mut calls: Vec<Vec<Call>>,
    mut sizes: Vec<Vec<u32>>,
    mut rows: Vec<Vec<Seat<C>>>,
) -> Result<Vec<Caller<C>>, OutOfMemory>
    requires sizes { vec_len sizes ≡ vec_len calls }
    requires rows { vec_len rows ≡ vec_len calls }
    requires few { vec_len calls ≤ 32 }
    ensures made { IfOk result (AreMadeOf geom calls sizes rows) }
    ensures may { IfOk result (λ callers. All (CallerMayWork C.says) callers.items) }
{
    let mut callers = Vec::with_capacity(alloc, calls.len())?;
    let mut rank = 0;
    while calls.len() > 0 {
        let own = calls.remove(0);
        let own_sizes = sizes.remove(0);
        let seats = rows.remove(0);
        let caller = Caller::new(rank, own, own_sizes, geom, seats);
        callers.push_reserved(caller);
        rank += 1;
    }
    Ok(callers)
}

/// The shards of a placement's table, and a caller for each rank, before the first step.
///
/// `C` is a core that the placement's shape and settings suit, as the core of its lock is; none of the calls is in a batch where it does
/// none. Caller K makes the calls of rank K. Refused only for want of memory.
pub fn begin_all<C: ShardCore>(
    alloc: Global,
    place: &Place,
    ops: Ops,
) -> Result<(Vec<Shard<C>>, Vec<Caller<C>>), OutOfMemory>
    requires proper { IsProperPlace place.now }
    requires knobs { C.suits_knobs (shape_of place.now) (knobs_of place.now.lock) }
    requires batches { C.batches ≡ false → (k i : ℕ) → slice_index (get_or ops.sizes k []) i ≤ 1 }
    requires calls { OpsFit (length place.now.paths) place.now.geom.shards ops }
    ensures { IfOk result (λ p. HaveBegun C.defined C.says place.now ops p.0.items p.1.items) }
{
    let shape = place.shape(alloc)?;
    let homes = place.homes.as_slice();
    let (shards, rows) = open_all::<C>(alloc, &shape, place.knobs(), place.geom, homes, &ops)?;
    let Ops { by_rank, sizes } = ops;
    let callers = callers_of::<C>(
        alloc,
        place.geom,
        by_rank.into_vec(),
        sizes.into_vec(),
        rows,
    )?;
    Ok((shards, callers))
}
