//! How many words of the volume the seats of a shard load for a call.

ghost use Rattle.rl_locks.specs.Loads.{LoadsFew};

use rl_core::ShardCore;
use rl_rank::Whole;
use rl_shard::Shard;
use rl_step::Algo;
use rl_work::LockedWork;

/// Few loads, where each block is done under its lock: whatever the words hold, a seat loads for a get alone at most 3 + 2 * overflow words
/// of the volume, for a put one more and for a delete two more, before the call is decided. There is nothing to run.
pub fn few_loads<A: Algo>(shard: &Shard<Whole<A, LockedWork>>)
    ensures { LoadsFew ⟦<Whole<A, LockedWork> as ShardCore>⟧.says shard.now }
{
    let _ = shard;
}
