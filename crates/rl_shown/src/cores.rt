//! The cores of a placement's shards, by themselves: they tell where each word lives.

ghost use Rattle.std.specs.Prelude.{◌≡◌, ◌<◌, ◌≤◌, length, sum, IfOk};
ghost use Rattle.rl_word.specs.Shapes.{IsProper as IsProperShape};
ghost use Rattle.rl_inputs.specs.Fitting.{IsProper, shape_of, knobs_of, OpsFit};
ghost use Rattle.rl_locks.specs.Runs.{start_with};
ghost use Rattle.rl_shown.specs.Cores.{HaveTables, tables_of, table_with};

use rl_core::ShardCore;
use rl_ops::{Ops, Room};
use rl_place::Place;
use rl_site::Site;
use rl_word::Shape;
use std::alloc::{AllocError as OutOfMemory, Global};

/// The core of a shard, in which the ranks make so many updates.
fn core_of<C: ShardCore>(
    alloc: Global,
    place: &Place,
    shape: &Shape,
    shard: u32,
    room: Room,
) -> Result<C, OutOfMemory>
    requires proper { IsProper place.now }
    requires knobs { C.suits_knobs (shape_of place.now) (knobs_of place.now.lock) }
    requires shape { shape.now ≡ shape_of place.now }
    requires well { IsProperShape shape.now }
    requires there { shard < place.now.geom.shards }
    requires ranks { length room.updates.items ≡ length place.now.paths }
    requires few { sum room.updates.items ≤ 20000 }
    ensures { IfOk result (λ core. (C.says core).table ≡ table_with C.defined place.now shard room.updates.items) }
{
    let site = Site {
        geom: place.geom,
        shard,
        rooms: room.updates,
    };
    C::make(
        alloc,
        shape,
        place.knobs(),
        place.homes[shard as usize],
        site,
    )
}

/// The cores of all shards of a placement, by the shards' numbers, for what the ranks ask. They are those that a machine has of these.
/// Refused only for want of memory.
pub fn cores_of<C: ShardCore>(
    alloc: Global,
    place: &Place,
    shape: &Shape,
    ops: &Ops,
) -> Result<Vec<C>, OutOfMemory>
    requires proper { IsProper place.now }
    requires knobs { C.suits_knobs (shape_of place.now) (knobs_of place.now.lock) }
    requires shape { shape.now ≡ shape_of place.now }
    requires well { IsProperShape shape.now }
    requires calls { OpsFit (length place.now.paths) place.now.geom.shards ops.now }
    ensures { IfOk result (λ cores. HaveTables C.says cores.items (tables_of (start_with C.defined place.now ops.now))) }
{
    let mut rooms = ops.rooms(alloc, place.geom)?;
    let mut cores = Vec::new(alloc);
    for shard in 0..place.geom.shards {
        let room = rooms.remove(0);
        cores.push(core_of(alloc, place, shape, shard, room)?)?;
    }
    Ok(cores)
}
