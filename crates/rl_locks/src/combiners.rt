//! What holds of flat combining at every moment, on machines and on shards that threads share.

ghost use Rattle.rl_machine.specs.Running.{running};
ghost use Rattle.rl_locks.specs.OnShards.{EachShard, EachMoment, EachState};
ghost use Rattle.rl_locks.specs.Combining.{KeepsCombining, PostsAtHomeAsDefined};
ghost use Rattle.rl_locks.specs.SweepRuns.{StoresTwoFirst};

use crate::ways::Promising;
use rl_combine::CombineWork;
use rl_core::ShardCore;
use rl_machine::{Machine, rules};
use rl_rank::Whole;
use rl_shard::Shard;
use rl_step::Algo;

/// Flat combining on every shard of a machine, now and after whatever steps of its ranks, over whatever lock: a flag of 1 stands over a
/// posted call that isn't done, but exactly while a writer has counted it and not made the flag 2 yet, and one of 2 over its answer; an
/// owner alone stores 1 to its flag and takes it back to 0, and a writer alone stores 2; each posted call is done at most once, by
/// whichever rank, which loads no more words of the volume for it than the call can want; and a rank that has found a flag 1 in its sweep
/// is a writer until it has stored 2 there. So in every run the rank makes that store before it leaves (`sweeps`). There is nothing to run.
pub fn combiners_of_machine<A: Algo>(machine: &Machine<Whole<A, CombineWork>>)
    ensures now { EachShard KeepsCombining (running ⟦<Whole<A, CombineWork> as ShardCore>⟧.says machine.now) }
    ensures stays { EachMoment KeepsCombining (running ⟦<Whole<A, CombineWork> as ShardCore>⟧.says machine.now) }
    ensures sweeps { StoresTwoFirst (running ⟦<Whole<A, CombineWork> as ShardCore>⟧.says machine.now) }
{
    rules(machine);
}

/// The same of a shard that threads share, but for runs (`sweeps`), which machines alone have: it holds in each state of the window that
/// meets its rule, and so between any two table steps. There is nothing to run.
pub fn combiners_of_shard<A: Algo>(shard: &Shard<Whole<A, CombineWork>>)
    ensures { let K = ⟦<Whole<A, CombineWork> as ShardCore>⟧ in EachState K.says KeepsCombining shard.now }
{
    let _ = shard;
}

/// Where the posts live, whatever the placement's shape, the shard's home and site: each rank's post words on the node on which the rank
/// sits, so that a rank that waits for its answer loads a word of its own node, and whoever has the lock goes to the others'. A machine's
/// and a shard's tables are those that are defined so. There is nothing to run.
pub fn posts_at_home<A: Algo>()
    ensures { PostsAtHomeAsDefined ⟦<Whole<A, CombineWork> as ShardCore>⟧.defined }
{}

/// A posted call is done once at most, by whichever rank, and who has found one in its sweep is a writer until it has told the answer.
impl<A: Algo> Promising for Whole<A, CombineWork> {
    ghost ways = { KeepsCombining };

    fn way_laws() {}
}
