//! All callers at work, each in a thread of its own.

ghost use Rattle.std.specs.Prelude.{◌≡◌, All, map};
ghost use Rattle.rl_run.specs.Callers.{IsCaller, IsAtEnd, HasWorked, who};

use crate::caller::Caller;
use rl_core::ShardCore;
use rl_io::Gate;
use rl_shard::Shard;
use std::sync::Wait;
use std::thread::{Threads, for_each_mut};

/// Each caller makes all its calls, in a thread of its own: the list of callers is halved, and the halves run beside each other, down
/// to single callers. A caller for which no thread can be started runs in the thread of its half. It takes no memory of the callers'.
pub fn work_all<C: ShardCore + Send + Sync, G: Gate, R: Threads + Wait + Sync>(
    rt: &R,
    shards: &[Shard<C>],
    gate: &G,
    callers: &mut [Caller<C>],
)
where
    C::View: Send + Sync,
    requires { All (IsCaller C.says shards.now) callers.old }
    ensures callers { All (IsCaller C.says shards.now) callers.new }
    ensures all_done { All (IsAtEnd C.says shards.now) callers.new }
    ensures same { map who callers.new ≡ map who callers.old }
{
    let threads = callers.len().max(1);
    for_each_mut(
        rt,
        callers,
        threads,
        &|_place: usize, caller: &mut Caller<C>|
            requires { IsCaller C.says shards.now caller.old }
            ensures { HasWorked C.says shards.entry.now caller.old caller.new }
        { caller.work(rt, shards, gate) },
    );
}
