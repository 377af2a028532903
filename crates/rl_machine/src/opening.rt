//! A shard before the first step.

ghost use Rattle.std.specs.Prelude.{◌≡◌, ◌+◌, ◌<◌, ◌≤◌, ◌^◌, length, sum, IfOk};
ghost use Rattle.rl_model.specs.Geom.{GeomFits};
ghost use Rattle.rl_site.specs.Site.{lock_base};
ghost use Rattle.rl_machine.specs.Start.{first_shard};
ghost use Rattle.rl_machine.specs.State.{running_shard};

use crate::shard::ShardState;
use rl_core::{ShardCore, first_views, first_words};
use rl_step::{Flat, Words};
use std::alloc::{AllocError as OutOfMemory, Global};

/// A shard's list of events has room for so many of each call at first. Few calls have more, and room in which nothing is put costs
/// nothing, while a list that grows is copied.
const EVENTS_OF_A_CALL: usize = 16;

/// How many events a shard has room for at first, whose ranks have so many calls each.
fn events_room(calls: &[u32]) -> usize {
    let all = calls
        .iter()
        .fold(0u32, |all, count| all.saturating_add(*count));
    all as usize * EVENTS_OF_A_CALL
}

/// A shard of so many nodes, whose ranks have room for so many entries each. Refused only for want of memory.
pub fn opening<C: ShardCore>(
    alloc: Global,
    core: C,
    nodes: u32,
    rooms: &[u32],
) -> Result<ShardState<C>, OutOfMemory>
    requires fits { GeomFits (C.says core).table.site.geom }
    requires rooms { sum (C.says core).table.site.rooms ≤ 20000 }
    requires few { lock_base (C.says core).table.site + (C.says core).table.behind < 2 ^ 32 }
    requires ranks { length rooms.now ≡ length (C.says core).layout.node_of }
    requires few_ranks { length rooms.now < 2 ^ 32 }
    ensures made { IfOk result (λ s. running_shard C.says s ≡ first_shard (C.says core).table nodes rooms.now) }
    ensures core { IfOk result (λ s. s.core ≡ core) }
{
    let words = Words::holding(alloc, first_words(alloc, &core)?, nodes)?;
    let views = first_views(alloc, &core, rooms)?;
    Ok(ShardState {
        core,
        flat: Flat::new(words, views),
        events: Vec::with_capacity(alloc, events_room(rooms))?,
    })
}
