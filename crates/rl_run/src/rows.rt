//! Seats as a row for each rank, and as a column for each shard.

ghost use Rattle.std.specs.Prelude.{◌≡◌, map, IfOk, vec_items, vec_len};
ghost use Rattle.std.specs.Vec.Iter.{into_iter_items};
ghost use Rattle.rl_run.specs.Rows.{heads, tails, with_column};

use std::alloc::{AllocError as OutOfMemory, Global};
use std::vec::IntoIter;

/// The rows, each to be gone through from its first seat on: where that one is taken, no other seat moves.
pub(crate) fn rows_in_turn<T: Drop>(
    alloc: Global,
    rows: Vec<Vec<T>>,
) -> Result<Vec<IntoIter<T>>, OutOfMemory>
    ensures { IfOk result (λ turns. map into_iter_items turns.items ≡ map vec_items rows.items) }
{
    let mut turns = Vec::with_capacity(alloc, rows.len())?;
    for row in rows {
        turns.push_reserved(row.into_iter());
    }
    Ok(turns)
}

/// The next seat of each row, which are the seats of the next shard, and the rest of each row.
pub(crate) fn next_seats<T: Drop>(
    alloc: Global,
    rows: Vec<IntoIter<T>>,
) -> Result<(Vec<T>, Vec<IntoIter<T>>), OutOfMemory>
    ensures first { IfOk result (λ p. p.0.items ≡ heads (map into_iter_items rows.items)) }
    ensures rest { IfOk result (λ p. map into_iter_items p.1.items ≡ tails (map into_iter_items rows.items)) }
{
    let mut column = Vec::with_capacity(alloc, rows.len())?;
    let mut rest = Vec::with_capacity(alloc, rows.len())?;
    for mut row in rows {
        let seat = row.next();
        rest.push_reserved(row);
        if let Some(seat) = seat {
            column.push_reserved(seat);
        }
    }
    Ok((column, rest))
}

/// One seat more in each row: those of the next shard, in the order of the ranks.
pub fn deal_seats<T: Drop>(
    alloc: Global,
    rows: Vec<Vec<T>>,
    column: Vec<T>,
) -> Result<Vec<Vec<T>>, OutOfMemory>
    requires { vec_len column ≡ vec_len rows }
    ensures { IfOk result (λ dealt. map vec_items dealt.items ≡ with_column (map vec_items rows.items) column.items) }
{
    let mut dealt = Vec::with_capacity(alloc, rows.len())?;
    let mut seats = column.into_iter();
    for mut row in rows {
        if let Some(seat) = seats.next() {
            row.push(seat)?;
            dealt.push_reserved(row);
        }
    }
    Ok(dealt)
}
