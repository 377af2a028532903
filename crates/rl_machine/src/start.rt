//! The shards of a machine before its first step.

ghost use Rattle.std.specs.Prelude.{◌≡◌, ◌<◌, ◌≤◌, length, replicate, sum, IfOk};
ghost use Rattle.std.specs.List.{AllByRecursion};
ghost use Rattle.rl_model.specs.Geom.{GeomFits};
ghost use Rattle.rl_word.specs.Shapes.{IsProper, layout_of};
ghost use Rattle.rl_step.specs.Batches.{HandsOn};
ghost use Rattle.rl_ops.specs.Ops.{total_calls};
ghost use Rattle.rl_machine.specs.Cores.{EachSits, EachHandsOn};
ghost use Rattle.rl_machine.specs.Start.{first_shard_by, first_shards_of};
ghost use Rattle.rl_machine.specs.State.{running_shard, running_shards, cores_in};

use crate::opening::opening;
use crate::shard::ShardState;
use rl_core::ShardCore;
use rl_model::Geom;
use rl_ops::{Ops, Room};
use rl_site::Site;
use rl_word::{Knobs, Shape};
use std::alloc::{AllocError as OutOfMemory, Global};

/// So many counts of 0 as there are ranks.
pub fn none_opened(alloc: Global, ops: &Ops) -> Result<Vec<u32>, OutOfMemory>
    ensures { IfOk result (λ v. v.items ≡ replicate (length ops.now.by_rank) 0) }
{
    Ok(vec![in alloc; 0; ops.by_rank.as_slice().len()]?)
}

/// The shard with this number, whose words live on this home, with the room that each rank needs there.
fn first_shard<C: ShardCore>(
    alloc: Global,
    shape: &Shape,
    knobs: Knobs,
    home: u32,
    geom: Geom,
    shard: u32,
    room: Room,
) -> Result<ShardState<C>, OutOfMemory>
    requires proper { IsProper shape.now }
    requires knobs { C.suits_knobs shape.now knobs }
    requires home { home < shape.now.nodes }
    requires fits { GeomFits geom }
    requires ranks { length room.calls.items ≡ length shape.now.node_of }
    requires update_ranks { length room.updates.items ≡ length shape.now.node_of }
    requires few { sum room.updates.items ≤ 20000 }
    ensures made { IfOk result (λ s. running_shard C.says s ≡ first_shard_by C.defined shape.now knobs home geom shard room) }
    ensures promised { IfOk result (λ s. HandsOn (C.says s.core).further (C.promised shape.now home knobs)) }
    ensures layout { IfOk result (λ s. (C.says s.core).layout ≡ layout_of shape.now) }
{
    let Room { calls, updates } = room;
    let site = Site {
        geom,
        shard,
        rooms: updates,
    };
    let core = C::make(alloc, shape, knobs, home, site)?;
    let state = opening(alloc, core, shape.nodes, calls.as_slice())?;
    Ok(state)
}

/// All shards, on these homes.
pub fn first_shards<C: ShardCore>(
    alloc: Global,
    shape: &Shape,
    knobs: Knobs,
    geom: Geom,
    homes: &[u32],
    ops: &Ops,
) -> Result<Vec<ShardState<C>>, OutOfMemory>
    requires proper { IsProper shape.now }
    requires knobs { C.suits_knobs shape.now knobs }
    requires fits { GeomFits geom }
    requires many { length homes.now ≡ geom.shards }
    requires homes { AllByRecursion (λ home. home < shape.now.nodes) homes.now }
    requires ranks { length ops.now.by_rank ≡ length shape.now.node_of }
    requires few { total_calls ops.now.by_rank ≤ 20000 }
    ensures made { IfOk result (λ s. running_shards C.says s.items ≡ first_shards_of C.defined shape.now knobs geom homes.now ops.now) }
    ensures promised { IfOk result (λ shards. EachHandsOn C.says C.promised shape.now knobs homes.now (cores_in shards.items)) }
    ensures layout { IfOk result (λ shards. EachSits C.says (layout_of shape.now) homes.now (cores_in shards.items)) }
{
    let mut rooms = ops.rooms(alloc, geom)?;
    let mut shards = Vec::new(alloc);
    for shard in 0..geom.shards {
        let home = homes[shard as usize];
        let room = rooms.remove(0);
        let first = first_shard(alloc, shape, knobs, home, geom, shard, room)?;
        shards.push(first)?;
    }
    Ok(shards)
}
