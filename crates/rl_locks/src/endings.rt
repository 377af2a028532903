//! The cores that have no dead end, each in one sentence.

ghost use Rattle.rl_machine.specs.MachineEnding.{CanAlwaysFinish};
ghost use Rattle.rl_machine.specs.Running.{running};

use rl_alock::Alock;
use rl_combine::CombineWork;
use rl_core::ShardCore;
use rl_machine::{Machine, no_dead_end};
use rl_mcs::Mcs;
use rl_queue::Dmcs;
use rl_rank::Whole;
use rl_rw::Rw;
use rl_seq::SeqWork;
use rl_spin::Spin;
use rl_work::LockedWork;

/// Each block under a spin lock: from every state of a machine, whatever schedule led to it, some steps lead to the end of all calls of all ranks.
/// There is nothing to run.
pub fn spin_no_dead_end(machine: &Machine<Whole<Spin, LockedWork>>)
    ensures { CanAlwaysFinish (running ⟦<Whole<Spin, LockedWork> as ShardCore>⟧.says machine.now) }
{
    no_dead_end(machine);
}

/// Each block under D-MCS: from every state of a machine, whatever schedule led to it, some steps lead to the end of all calls of all ranks.
/// There is nothing to run.
pub fn dmcs_no_dead_end(machine: &Machine<Whole<Dmcs, LockedWork>>)
    ensures { CanAlwaysFinish (running ⟦<Whole<Dmcs, LockedWork> as ShardCore>⟧.says machine.now) }
{
    no_dead_end(machine);
}

/// Each block under ALock: from every state of a machine, whatever schedule led to it, some steps lead to the end of all calls of all ranks.
/// There is nothing to run.
pub fn alock_no_dead_end(machine: &Machine<Whole<Alock, LockedWork>>)
    ensures { CanAlwaysFinish (running ⟦<Whole<Alock, LockedWork> as ShardCore>⟧.says machine.now) }
{
    no_dead_end(machine);
}

/// Each block under RMA-MCS: from every state of a machine, whatever schedule led to it, some steps lead to the end of all calls of all ranks.
/// There is nothing to run.
pub fn mcs_no_dead_end(machine: &Machine<Whole<Mcs, LockedWork>>)
    ensures { CanAlwaysFinish (running ⟦<Whole<Mcs, LockedWork> as ShardCore>⟧.says machine.now) }
{
    no_dead_end(machine);
}

/// Each block under RMA-RW: from every state of a machine, whatever schedule led to it, some steps lead to the end of all calls of all ranks.
/// There is nothing to run.
pub fn rw_no_dead_end(machine: &Machine<Whole<Rw, LockedWork>>)
    ensures { CanAlwaysFinish (running ⟦<Whole<Rw, LockedWork> as ShardCore>⟧.says machine.now) }
{
    no_dead_end(machine);
}

/// Optimistic readers, with all other blocks under ALock: from every state of a machine, whatever schedule led to it, some steps lead to the end of all
/// calls of all ranks. There is nothing to run.
pub fn seq_no_dead_end(machine: &Machine<Whole<Alock, SeqWork>>)
    ensures { CanAlwaysFinish (running ⟦<Whole<Alock, SeqWork> as ShardCore>⟧.says machine.now) }
{
    no_dead_end(machine);
}

/// Flat combining under ALock: from every state of a machine, whatever schedule led to it, some steps lead to the end of all calls of all ranks. There is
/// nothing to run.
pub fn combine_no_dead_end(machine: &Machine<Whole<Alock, CombineWork>>)
    ensures { CanAlwaysFinish (running ⟦<Whole<Alock, CombineWork> as ShardCore>⟧.says machine.now) }
{
    no_dead_end(machine);
}
