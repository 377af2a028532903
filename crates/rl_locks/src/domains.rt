//! The two domains of a shard's words, for each lock in one sentence: whatever its seats come to.

ghost use Rattle.rl_shard.specs.Shards.{core_at};
ghost use Rattle.rl_locks.specs.SeatDomains.{KeepsApart, KeepsApartAsDefined, NeverSwapsLocally};

use rl_alock::{Alock, two_domains};
use rl_core::ShardCore;
use rl_mcs::Mcs;
use rl_queue::Dmcs;
use rl_rank::Whole;
use rl_rw::Rw;
use rl_shard::{Shard, domains};
use rl_spin::Spin;
use rl_work::Work;

/// Over ALock the next atom of a seat on the shard's home is never one of a card, and that of any other seat never a local
/// compare-and-swap, however blocks are done: by the nodes and the home that the lock has, and so by those by which the shard was made.
/// There is nothing to run.
pub fn alock_domains<W: Work>(shard: &Shard<Whole<Alock, W>>)
    ensures lock { let L = (core_at shard.now).algo in KeepsApart ⟦<Whole<Alock, W> as ShardCore>⟧.says L.node_of.items L.home shard.now }
    ensures made { let K = ⟦<Whole<Alock, W> as ShardCore>⟧ in KeepsApartAsDefined K.says K.defined shard.now }
{
    domains(shard);
    two_domains();
}

/// Over the spin lock no seat's next atom is a local compare-and-swap, however blocks are done. There is nothing to run.
pub fn spin_domains<W: Work>(shard: &Shard<Whole<Spin, W>>)
    ensures { let K = ⟦<Whole<Spin, W> as ShardCore>⟧ in NeverSwapsLocally K.says shard.now }
{
    domains(shard);
}

/// Over D-MCS no seat's next atom is a local compare-and-swap, however blocks are done. There is nothing to run.
pub fn dmcs_domains<W: Work>(shard: &Shard<Whole<Dmcs, W>>)
    ensures { let K = ⟦<Whole<Dmcs, W> as ShardCore>⟧ in NeverSwapsLocally K.says shard.now }
{
    domains(shard);
}

/// Over RMA-MCS no seat's next atom is a local compare-and-swap, however blocks are done. There is nothing to run.
pub fn mcs_domains<W: Work>(shard: &Shard<Whole<Mcs, W>>)
    ensures { let K = ⟦<Whole<Mcs, W> as ShardCore>⟧ in NeverSwapsLocally K.says shard.now }
{
    domains(shard);
}

/// Over RMA-RW no seat's next atom is a local compare-and-swap, however blocks are done. There is nothing to run.
pub fn rw_domains<W: Work>(shard: &Shard<Whole<Rw, W>>)
    ensures { let K = ⟦<Whole<Rw, W> as ShardCore>⟧ in NeverSwapsLocally K.says shard.now }
{
    domains(shard);
}
