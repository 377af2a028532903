//! A whole run.

ghost use Rattle.std.specs.Prelude.{◌≡◌, All, IfOk, length, vec_len};
ghost use Rattle.rl_shard.specs.Shards.{IsShardOf};
ghost use Rattle.rl_run.specs.Runs.{AreCallers, HasRun};

use crate::caller::Caller;
use crate::closing::{close_all, rows_of};
use crate::working::work_all;
use rl_core::ShardCore;
use rl_io::Gate;
use rl_shard::{Closed, Shard};
use std::alloc::{AllocError as OutOfMemory, Global};
use std::sync::Wait;
use std::thread::Threads;

/// All callers make their calls, each in a thread of its own; then the shards are closed. Memory is wanted only after the last step.
pub fn run_callers<C: ShardCore + Send + Sync, G: Gate, R: Threads + Wait + Sync>(
    rt: &R,
    alloc: Global,
    shards: Vec<Shard<C>>,
    mut callers: Vec<Caller<C>>,
    gate: &G,
) -> Result<Vec<Closed>, OutOfMemory>
where
    C::View: Send + Sync,
    requires rooted { All (IsShardOf C.says (vec_len callers)) shards.items }
    requires callers { AreCallers C.says shards.items callers.items }
    ensures { IfOk result (λ ends. HasRun C.says shards.items callers.items ends.items) }
{
    work_all(rt, shards.as_slice(), gate, callers.as_mut_slice());
    let rows = rows_of(alloc, callers)?;
    close_all(alloc, shards, rows)
}
