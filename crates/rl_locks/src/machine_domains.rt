//! The two domains of a machine's shards, for each lock in one sentence: whatever its ranks come to.

ghost use Rattle.rl_machine.specs.Running.{running};
ghost use Rattle.rl_locks.specs.OnShards.{EachMoment};
ghost use Rattle.rl_locks.specs.SeatDomains.{ApartAsDefined, SwapsNowhere};

use rl_alock::{Alock, two_domains};
use rl_core::ShardCore;
use rl_machine::{Machine, rules, soundness};
use rl_mcs::Mcs;
use rl_queue::Dmcs;
use rl_rank::Whole;
use rl_rw::Rw;
use rl_spin::Spin;
use rl_work::Work;

/// Over ALock the next atom of a rank on a shard's home is never one of a card, and that of any other rank never a local compare-and-swap,
/// on each shard of a machine and whatever steps of its ranks follow, however blocks are done: by the nodes and the home by which the shard
/// was made. There is nothing to run.
pub fn alock_domains_of_machine<W: Work>(machine: &Machine<Whole<Alock, W>>)
    ensures { let K = ⟦<Whole<Alock, W> as ShardCore>⟧ in EachMoment (ApartAsDefined K.defined) (running K.says machine.now) }
{
    soundness(machine);
    two_domains();
}

/// Over the spin lock no rank's next atom is a local compare-and-swap, on each shard of a machine and whatever steps of its ranks follow, however
/// blocks are done. There is nothing to run.
pub fn spin_domains_of_machine<W: Work>(machine: &Machine<Whole<Spin, W>>)
    ensures { EachMoment SwapsNowhere (running ⟦<Whole<Spin, W> as ShardCore>⟧.says machine.now) }
{
    soundness(machine);
    rules(machine);
}

/// Over D-MCS no rank's next atom is a local compare-and-swap, on each shard of a machine and whatever steps of its ranks follow, however
/// blocks are done. There is nothing to run.
pub fn dmcs_domains_of_machine<W: Work>(machine: &Machine<Whole<Dmcs, W>>)
    ensures { EachMoment SwapsNowhere (running ⟦<Whole<Dmcs, W> as ShardCore>⟧.says machine.now) }
{
    soundness(machine);
    rules(machine);
}

/// Over RMA-MCS no rank's next atom is a local compare-and-swap, on each shard of a machine and whatever steps of its ranks follow, however
/// blocks are done. There is nothing to run.
pub fn mcs_domains_of_machine<W: Work>(machine: &Machine<Whole<Mcs, W>>)
    ensures { EachMoment SwapsNowhere (running ⟦<Whole<Mcs, W> as ShardCore>⟧.says machine.now) }
{
    soundness(machine);
    rules(machine);
}

/// Over RMA-RW no rank's next atom is a local compare-and-swap, on each shard of a machine and whatever steps of its ranks follow, however
/// blocks are done. There is nothing to run.
pub fn rw_domains_of_machine<W: Work>(machine: &Machine<Whole<Rw, W>>)
    ensures { EachMoment SwapsNowhere (running ⟦<Whole<Rw, W> as ShardCore>⟧.says machine.now) }
{
    soundness(machine);
    rules(machine);
}
