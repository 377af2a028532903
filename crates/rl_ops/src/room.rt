//! How many calls and updates each rank makes on each shard.
ghost use Rattle.std.specs.Prelude.{◌≡◌, ◌≤◌, ◌<◌, ◌+◌, ◌==◌, ◌&&◌, ℕ, length, map, slice_index, if◌then◌else◌, IfOk};
ghost use Rattle.rl_model.specs.Geom.{GeomFits};
ghost use Rattle.rl_ops.specs.Ops.{total_calls};
ghost use Rattle.rl_ops.specs.Room.{calls_on, updates_on, AreRooms};

use crate::ops::{MOST_CALLS, Ops};
use rl_model::{Call, Geom};
use std::alloc::{AllocError as OutOfMemory, Global};

/// How many calls each rank makes on one shard, and how many of them are updates.
#[derive(Drop)]
pub struct Room {
    pub calls: Vec<u32>,
    pub updates: Vec<u32>,
}

/// The most shards that a table has.
const MOST_SHARDS: usize = 16;

/// How many calls one rank makes on each shard, and how many of them are updates.
#[derive(Clone, Copy)]
struct Tally {
    calls: [u32; MOST_SHARDS],
    updates: [u32; MOST_SHARDS],
}

/// Counts one more for a shard that is there, if it is counted.
#[inline(always)]
fn count_one(counts: &mut [u32], shard: usize, counted: bool)
    requires few { shard < length counts.old → slice_index counts.old shard < MOST_CALLS }
    ensures { (place : ℕ) → place < length counts.old → slice_index counts.new place ≡ slice_index counts.old place + (if (shard == place) && counted then 1 else 0) }
{
    if counted && shard < counts.len() {
        counts[shard] += 1;
    }
}

/// Goes over the calls of a rank once. A hold of a shard that isn't there is on none.
fn tally_of(calls: &[Call], geom: Geom) -> Tally
    requires fits { GeomFits geom }
    requires few { length calls.now ≤ MOST_CALLS }
    ensures calls { (shard : ℕ) → shard < MOST_SHARDS → slice_index result.calls shard ≡ calls_on geom shard calls.now }
    ensures updates { (shard : ℕ) → shard < MOST_SHARDS → slice_index result.updates shard ≡ updates_on geom shard calls.now }
{
    let mut made = [0; MOST_SHARDS];
    let mut updates = [0; MOST_SHARDS];
    for call in calls {
        let shard = call.shard(geom) as usize;
        count_one(&mut made, shard, true);
        count_one(&mut updates, shard, call.is_update());
    }
    Tally {
        calls: made,
        updates,
    }
}

/// The room on a shard, from what the ranks were counted to make.
fn room_on(alloc: Global, tallies: &[Tally], shard: usize) -> Result<Room, OutOfMemory>
    requires { shard < MOST_SHARDS }
    ensures calls { IfOk result (λ room. room.calls.items ≡ map (λ tally. slice_index tally.calls shard) tallies.now) }
    ensures updates { IfOk result (λ room. room.updates.items ≡ map (λ tally. slice_index tally.updates shard) tallies.now) }
{
    let calls = tallies
        .iter()
        .map(|tally| tally.calls[shard])
        .collect(alloc)?;
    let updates = tallies
        .iter()
        .map(|tally| tally.updates[shard])
        .collect(alloc)?;
    Ok(Room { calls, updates })
}

impl Ops {
    /// How many calls each rank makes on each shard, rank by rank.
    fn tallies(&self, alloc: Global, geom: Geom) -> Result<Vec<Tally>, OutOfMemory>
        requires fits { GeomFits geom }
        requires few { total_calls self.now.by_rank ≤ MOST_CALLS }
        ensures calls { IfOk result (λ tallies. (shard : ℕ) → shard < MOST_SHARDS → map (λ tally. slice_index tally.calls shard) tallies.items ≡ map (calls_on geom shard) self.now.by_rank) }
        ensures updates { IfOk result (λ tallies. (shard : ℕ) → shard < MOST_SHARDS → map (λ tally. slice_index tally.updates shard) tallies.items ≡ map (updates_on geom shard) self.now.by_rank) }
    {
        let mut tallies = Vec::new(alloc);
        for calls in self.by_rank.as_slice() {
            tallies.push(tally_of(calls, geom))?;
        }
        Ok(tallies)
    }

    /// The room on each shard of the table, by the shard's number: how many calls each rank makes there, and how many
    /// of them are updates. There are at most 20,000 calls in all. Refused only for want of memory.
    pub fn rooms(&self, alloc: Global, geom: Geom) -> Result<Vec<Room>, OutOfMemory>
        requires fits { GeomFits geom }
        requires few { total_calls self.now.by_rank ≤ MOST_CALLS }
        ensures all { IfOk result (λ rooms. length rooms.items ≡ geom.shards) }
        ensures each { IfOk result (λ rooms. AreRooms geom self.now.by_rank 0 rooms.items) }
    {
        let tallies = self.tallies(alloc, geom)?;
        let mut rooms = Vec::new(alloc);
        for shard in 0..geom.shards {
            let room = room_on(alloc, tallies.as_slice(), shard as usize)?;
            rooms.push(room)?;
        }
        Ok(rooms)
    }
}
