//! What holds of a shard between any two table steps, whatever its ranks do.

ghost use Rattle.std.specs.Prelude.{map};
ghost use Rattle.rl_core.specs.Standings.{AloneIn};
ghost use Rattle.rl_shard.specs.Counting.{CountsKeepBudgets, standing_of};
ghost use Rattle.rl_shard.specs.Shards.{IsOf, AtEachState, table_at, counted_at};
ghost use Rattle.rl_shard.specs.Live.{AtEachTable, LiveExclude};
ghost use Rattle.rl_shard.specs.Guards.{ComesAs, AllComeAs, OneStores};
ghost use Rattle.rl_shard.specs.Domains.{SeatsKeepToCards, SeatsKeepToLocals};

use crate::shard::Shard;
use rl_core::ShardCore;

/// Exclusion: in each state of the window that meets its rule, and so between any two table steps, one rank at most is in as a
/// writer, and none as a reader beside it. The same of the seats that are live: while the window's table keeps its rule, which each of its
/// atoms does, no live seat stands as a holder beside one that stands as a writer. There is nothing to run.
pub fn exclusion<C: ShardCore>(shard: &Shard<C>)
    ensures states { AtEachState C.says shard.now (λ vs. AloneIn (map (standing_of (table_at C.says shard.now)) vs)) }
    ensures live { AtEachTable C.says shard.now (LiveExclude (table_at C.says shard.now)) }
{
    let _ = &shard.window;
}

/// What the lock guards: count, volume and journal, the words before its own. In each state of the window that meets its rule, and so between
/// any two table steps, the next atom of a rank stores there only where the rank stands as a writer, and loads there only where it holds the
/// lock, or has a get alone open for which it isn't at the lock; so it is of each seat. And while one rank's next atom stores there, no other's
/// comes there, but for that of such a get. There is nothing to run.
pub fn guards<C: ShardCore>(shard: &Shard<C>)
    ensures ranks { AtEachState C.says shard.now (AllComeAs (table_at C.says shard.now)) }
    ensures alone { AtEachState C.says shard.now (OneStores (table_at C.says shard.now)) }
    ensures seats { (s : _) → IsOf C.says shard.now s → ComesAs (table_at C.says shard.now) (counted_at s) }
{
    let _ = &shard.window;
}

/// Budgets: in each state of the window that meets its rule, and so between any two table steps, all ranks together have counted, of each
/// queue of the lock that has a budget, at most so many passes for each settlement; unless a count of the queue is full, at 2^64 - 1.
/// There is nothing to run.
pub fn budgets<C: ShardCore>(shard: &Shard<C>)
    ensures { AtEachState C.says shard.now (CountsKeepBudgets (table_at C.says shard.now).queues) }
{
    let _ = &shard.window;
}

/// Two domains: a seat's next atom is one of a card only where the lock lets the rank make acts through cards, and a local
/// compare-and-swap only where it lets the rank make one. There is nothing to run.
pub fn domains<C: ShardCore>(shard: &Shard<C>)
    ensures cards { SeatsKeepToCards C.says shard.now }
    ensures locals { SeatsKeepToLocals C.says shard.now }
{
    let _ = &shard.window;
}
