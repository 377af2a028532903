//! The views of a shard before its first block.

ghost use Rattle.std.specs.Prelude.{◌≡◌, ◌<◌, ◌^◌, length, IfOk};
ghost use Rattle.rl_model.specs.Geom.{GeomFits};
ghost use Rattle.rl_shard.specs.Counting.{first_counted};

use crate::counting::CountedView;
use crate::tallies::Tallies;
use rl_core::ShardCore;
use std::alloc::{AllocError as OutOfMemory, Global};

/// The views of all ranks, each with room for so many entries, and with a tally of nothing for each of so many queues.
pub fn first_views<C: ShardCore>(
    alloc: Global,
    core: &C,
    rooms: &[u32],
    queues: usize,
) -> Result<Vec<CountedView<C::View>>, OutOfMemory>
    requires fits { GeomFits (C.says core.now).table.site.geom }
    requires ranks { length rooms.now ≡ length (C.says core.now).layout.node_of }
    requires few { length rooms.now < 2 ^ 32 }
    ensures { IfOk result (λ views. views.items ≡ first_counted (C.says core.now).table queues rooms.now) }
{
    let mut views = Vec::new(alloc);
    for rank in 0..rooms.len() as u32 {
        let whole = core.first(alloc, rank, rooms[rank as usize])?;
        let tallies = Tallies::none(alloc, queues)?;
        views.push(CountedView { whole, tallies })?;
    }
    Ok(views)
}
