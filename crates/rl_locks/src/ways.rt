//! What a core's way of doing blocks promises beyond every core.

ghost use Rattle.std.specs.Prelude.{List};
ghost use Rattle.rl_step.specs.Do.{TheWindow};
ghost use Rattle.rl_core.specs.ShardTables.{ShardTable};
ghost use Rattle.rl_core.specs.Moments.{Moment};
ghost use Rattle.rl_machine.specs.Running.{running};
ghost use Rattle.rl_locks.specs.OnShards.{EachShard, EachMoment};

use rl_core::ShardCore;
use rl_machine::{Machine, rules};

/// A core whose way of doing blocks promises something of a shard's words and of its ranks' views, beyond what every core does.
pub trait Promising: ShardCore {
    /// What it promises, of any table of its kind.
    ghost ways: { ShardTable Self.View → TheWindow → List Self.View → Type 0 };

    /// It holds in each state that is good for a core of the kind. There is nothing to run.
    fn way_laws()
        ensures { (c : Self) (m : Moment Self.View) → (Self.says c).good m → ways (Self.says c).table m.held m.views };
}

/// What the cores' way of doing blocks promises holds on every shard of a machine, now and after whatever steps of its ranks. There is nothing to
/// run.
pub fn ways_of_machine<C: Promising>(machine: &Machine<C>)
    ensures now { EachShard C.ways (running C.says machine.now) }
    ensures stays { EachMoment C.ways (running C.says machine.now) }
{
    rules(machine);
    C::way_laws();
}
