//! Where no shard has a dead end, no machine has one.

ghost use Rattle.rl_machine.specs.MachineEnding.{CanFinish, CanAlwaysFinish, CanFinishSoon};
ghost use Rattle.rl_machine.specs.Running.{running, cores_of};

use crate::machine::Machine;
use rl_core::ShardEnding;

/// From every state of the machine, whatever schedule led to it, some steps lead to the end of all calls of all ranks: so many at most as
/// are left to do. And so it is after any further steps. There is nothing to run.
///
/// It says nothing of fairness, nor of time: which steps these are the schedule must choose.
pub fn no_dead_end<C: ShardEnding>(machine: &Machine<C>)
    ensures now { CanFinish (running C.says machine.now) }
    ensures soon { CanFinishSoon C.left C.most (cores_of machine.now) (running C.says machine.now) }
    ensures later { CanAlwaysFinish (running C.says machine.now) }
{
    let _ = &machine.state;
}
