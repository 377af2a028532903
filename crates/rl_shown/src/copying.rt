//! A copy of what the ranks ask for, since each machine takes it.

ghost use Rattle.std.specs.Prelude.{◌≡◌, map, IfOk};

use rl_ops::{ByRank, Ops};
use std::alloc::{AllocError as OutOfMemory, Global};

/// A copy of the lists of all ranks.
fn copied_lists<T: Copy>(alloc: Global, lists: &[Vec<T>]) -> Result<Vec<Vec<T>>, OutOfMemory>
    ensures { IfOk result (λ copies. map (λ list. list.items) copies.items ≡ map (λ list. list.items) lists.now) }
{
    let mut copies = Vec::with_capacity(alloc, lists.len())?;
    for list in lists {
        copies.push(Vec::from_slice(alloc, list.as_slice())?)?;
    }
    Ok(copies)
}

/// A copy of what the ranks ask for. Refused only for want of memory.
pub fn copied(alloc: Global, ops: &Ops) -> Result<Ops, OutOfMemory>
    ensures { IfOk result (λ copy. copy ≡ ops.now) }
{
    let calls = copied_lists(alloc, ops.by_rank.as_slice())?;
    let sizes = copied_lists(alloc, ops.sizes.as_slice())?;
    Ok(Ops {
        by_rank: ByRank::from_vec(calls),
        sizes: ByRank::from_vec(sizes),
    })
}
