//! A rank's next block among its calls, and the block's shard.

ghost use Rattle.std.specs.Prelude.{◌≡◌, ◌+◌, ◌<◌, ◌≤◌, length, slice_index};
ghost use Rattle.rl_model.specs.Geom.{GeomFits};
ghost use Rattle.rl_core.specs.Asks.{block_from, block_shard};

use rl_model::{Call, Geom};

/// The calls of the block that begins with the call of this number. `sizes` has for each call that begins a block how many calls it has.
pub fn block_from<'a>(calls: &'a [Call], sizes: &[u32], first: u32) -> &'a [Call]
    requires sized { first < length sizes.now }
    requires within { first + slice_index sizes.now first ≤ length calls.now }
    ensures { result.now ≡ block_from calls.now sizes.now first }
{
    let size = sizes[first as usize];
    &calls[first as usize..][..size as usize]
}

/// The shard of a block, which is that of its first call.
pub fn block_shard(geom: Geom, block: &[Call]) -> u32
    requires fits { GeomFits geom }
    ensures { result ≡ block_shard geom block.now }
{
    match block.first() {
        Some(call) => call.shard(geom),
        None => 0,
    }
}
