//! What holds of ranks that read the table under their lock at every moment, on machines and on shards that threads share.

ghost use Rattle.rl_machine.specs.Running.{running};
ghost use Rattle.rl_locks.specs.OnShards.{EachShard, EachMoment, EachState};
ghost use Rattle.rl_locks.specs.Holding.{KeepsReads};

use crate::ways::Promising;
use rl_core::ShardCore;
use rl_machine::{Machine, rules};
use rl_rank::Whole;
use rl_shard::Shard;
use rl_step::Algo;
use rl_work::LockedWork;

/// Ranks that read under their lock on every shard of a machine, now and after whatever steps of its ranks, over whatever lock, also one that
/// readers share: a rank that reads for its block holds the lock, and what it has found still stands; for a call alone it loads few words,
/// each of them once it has found the count; and nobody loads a word of the volume but so. There is nothing to run.
pub fn holders_of_machine<A: Algo>(machine: &Machine<Whole<A, LockedWork>>)
    ensures now { EachShard KeepsReads (running ⟦<Whole<A, LockedWork> as ShardCore>⟧.says machine.now) }
    ensures stays { EachMoment KeepsReads (running ⟦<Whole<A, LockedWork> as ShardCore>⟧.says machine.now) }
{
    rules(machine);
}

/// The same of a shard that threads share: it holds in each state of the window that meets its rule, and so between any two table steps.
/// There is nothing to run.
pub fn holders_of_shard<A: Algo>(shard: &Shard<Whole<A, LockedWork>>)
    ensures { let K = ⟦<Whole<A, LockedWork> as ShardCore>⟧ in EachState K.says KeepsReads shard.now }
{
    let _ = shard;
}

/// A rank that reads for its block holds the lock, and what it has found still stands; for a call alone it loads few words.
impl<A: Algo> Promising for Whole<A, LockedWork> {
    ghost ways = { KeepsReads };

    fn way_laws() {}
}
