//! What holds of optimistic readers at every moment, on machines and on shards that threads share.

ghost use Rattle.rl_machine.specs.Running.{running};
ghost use Rattle.rl_locks.specs.OnShards.{EachShard, EachMoment, EachState};
ghost use Rattle.rl_locks.specs.Optimistic.{KeepsGets};

use crate::ways::Promising;
use rl_core::ShardCore;
use rl_machine::{Machine, rules};
use rl_rank::Whole;
use rl_seq::SeqWork;
use rl_shard::Shard;
use rl_step::Algo;

/// Optimistic readers on every shard of a machine, now and after whatever steps of its ranks, over whatever lock the writers hold: each get
/// alone, from its opening until its entry joins, holds nothing and makes loads alone, of no lock word; it waits exactly where the version
/// that it looks at is odd, and has lost exactly where the second version isn't the first; in each try it loads few words, and none before
/// it has found the count; and no atom lowers the version. There is nothing to run.
pub fn readers_of_machine<A: Algo>(machine: &Machine<Whole<A, SeqWork>>)
    ensures now { EachShard KeepsGets (running ⟦<Whole<A, SeqWork> as ShardCore>⟧.says machine.now) }
    ensures stays { EachMoment KeepsGets (running ⟦<Whole<A, SeqWork> as ShardCore>⟧.says machine.now) }
{
    rules(machine);
}

/// The same of a shard that threads share: it holds in each state of the window that meets its rule, and so between any two table steps.
/// There is nothing to run.
pub fn readers_of_shard<A: Algo>(shard: &Shard<Whole<A, SeqWork>>)
    ensures { let K = ⟦<Whole<A, SeqWork> as ShardCore>⟧ in EachState K.says KeepsGets shard.now }
{
    let _ = shard;
}

/// A get alone is nowhere at the lock, and makes loads alone; it waits and loses by the version, which no atom lowers.
impl<A: Algo> Promising for Whole<A, SeqWork> {
    ghost ways = { KeepsGets };

    fn way_laws() {}
}
