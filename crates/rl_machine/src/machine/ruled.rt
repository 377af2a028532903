//! The rules of a machine's cores, which hold at every moment.

ghost use Rattle.std.specs.Prelude.{length};
ghost use Rattle.rl_machine.specs.Run.{EverAfter};
ghost use Rattle.rl_machine.specs.Ruled.{AreRuled};
ghost use Rattle.rl_machine.specs.Running.{running, cores_of};

use crate::machine::Machine;
use rl_core::ShardCore;

/// At every moment each shard meets the rule of its core, and a rank whose block is open on a shard stands there. What holds of all
/// states under the rule of one kind of cores so holds of each machine of that kind. There is nothing to run.
pub fn rules<C: ShardCore>(machine: &Machine<C>)
    ensures now { AreRuled C.says (cores_of machine.now) (running C.says machine.now) }
    ensures stays { EverAfter (length machine.now.calls) (running C.says machine.now) (AreRuled C.says (cores_of machine.now)) }
{
    let _ = &machine.state;
}
