//! The shards of a run after its last step, and the report of it.

ghost use Rattle.std.specs.Prelude.{◌≡◌, map, All, IfOk, vec_items, vec_len};
ghost use Rattle.rl_shard.specs.Shards.{IsShardOf};
ghost use Rattle.rl_shard.specs.Ends.{IsEnd};
ghost use Rattle.rl_run.specs.Callers.{seats_of};
ghost use Rattle.rl_run.specs.Rows.{IsGrid, IsColumn, AreEnded};
ghost use Rattle.rl_run.specs.Runs.{IsShutSeat};

use crate::caller::Caller;
use crate::rows::{next_seats, rows_in_turn};
use rl_core::ShardCore;
use rl_shard::{Closed, Seat, Shard};
use std::alloc::{AllocError as OutOfMemory, Global};

/// The seats of each rank.
pub fn rows_of<C: ShardCore>(
    alloc: Global,
    callers: Vec<Caller<C>>,
) -> Result<Vec<Vec<Seat<C>>>, OutOfMemory>
    ensures { IfOk result (λ rows. map vec_items rows.items ≡ map seats_of callers.items) }
{
    let mut rows = Vec::with_capacity(alloc, callers.len())?;
    for caller in callers {
        rows.push_reserved(caller.seats());
    }
    Ok(rows)
}

// Closes one shard, with its seats in the order of the ranks.
fn close_one<C: ShardCore>(shard: Shard<C>, column: Vec<Seat<C>>) -> Result<Closed, OutOfMemory>
    requires rooted { IsShardOf C.says (vec_len column) shard }
    requires column { IsColumn (IsShutSeat C.says) shard column.items }
    ensures { IfOk result (λ e. IsEnd C.says shard column.items e) }
{
    match shard.close(column) {
        Ok(closed) => Ok(closed),
        Err(_) => Err(OutOfMemory),
    }
}

/// Closes the shards one after the other, each with its seats in the order of the ranks. Refused only for want of memory.
pub fn close_all<C: ShardCore>(
    alloc: Global,
    shards: Vec<Shard<C>>,
    rows: Vec<Vec<Seat<C>>>,
) -> Result<Vec<Closed>, OutOfMemory>
    requires rooted { All (IsShardOf C.says (vec_len rows)) shards.items }
    requires grid { IsGrid (IsShutSeat C.says) shards.items (map vec_items rows.items) }
    ensures { IfOk result (λ ends. AreEnded (IsEnd C.says) shards.items (map vec_items rows.items) ends.items) }
{
    let mut ends = Vec::with_capacity(alloc, shards.len())?;
    let mut left = rows_in_turn(alloc, rows)?;
    for shard in shards {
        let (column, rest) = next_seats(alloc, left)?;
        left = rest;
        ends.push_reserved(close_one(shard, column)?);
    }
    Ok(ends)
}
