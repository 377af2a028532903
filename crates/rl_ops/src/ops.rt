//! The calls of each rank.
ghost use Rattle.std.specs.Prelude.{◌≡◌, ◌<◌, [], replicate, length, IfOk, OnOk};
ghost use Rattle.std.specs.List.{list_any};
ghost use Rattle.rl_ops.specs.Ops.{begins_batch, has_batch};
ghost use Rattle.rl_ops.specs.OpsReading.{with_line, IsLineOf};

use crate::by_rank::ByRank;
use crate::calls_line::CallsLine;
use rl_model::Call;
use std::alloc::{AllocError as OutOfMemory, Global};

/// The most calls of all ranks together.
pub const MOST_CALLS: u32 = 20_000;

/// The most calls of a batch.
pub const MOST_IN_BATCH: u32 = 8;

/// The calls of each rank, in the rank's order. A rank without calls has an empty list.
///
/// A rank asks for a call alone, or for the 2 to 8 calls of a batch in one go, which are updates of one shard. Each call
/// has a size: 1 where it stands alone, the number of its batch's calls where it is the first of them, and 0 where it is
/// a later one.
#[derive(Drop)]
pub struct Ops {
    /// The calls, rank by rank.
    pub by_rank: ByRank<Call>,
    /// The size of each call, in the same order.
    pub sizes: ByRank<u32>,
}

// Whether one of these sizes is a batch's.
fn begins_batch(sizes: &[u32]) -> bool
    ensures { result ≡ begins_batch sizes.now }
{
    sizes.iter().any(|size| *size > 1)
}

// Whether one of these lists has a batch's size.
fn any_begins_batch(lists: &[Vec<u32>]) -> bool
    ensures { result ≡ list_any (λ list. begins_batch list.items) lists.now }
{
    lists.iter().any(|sizes| begins_batch(sizes))
}

impl Ops {
    /// Whether a batch is among the calls.
    pub fn has_batch(&self) -> bool
        ensures { result ≡ has_batch self.now }
    {
        any_begins_batch(self.sizes.as_slice())
    }

    // No calls yet, of so many ranks.
    pub(crate) fn new(alloc: Global, ranks: u32) -> Result<Ops, OutOfMemory>
        ensures calls { IfOk result (λ ops. ops.by_rank ≡ replicate ranks []) }
        ensures sizes { IfOk result (λ ops. ops.sizes ≡ replicate ranks []) }
    {
        Ok(Ops {
            by_rank: ByRank::new(alloc, ranks)?,
            sizes: ByRank::new(alloc, ranks)?,
        })
    }

    // What a line asks for, after all that came before it. After want of memory nothing is said of the calls.
    #[inline(always)]
    pub(crate) fn take(&mut self, line: CallsLine) -> Result<(), OutOfMemory>
        requires there { IsLineOf (length self.old.by_rank) line }
        requires sized { length self.old.sizes ≡ length self.old.by_rank }
        ensures { OnOk result (self.new ≡ with_line self.old line) }
    {
        if let CallsLine::Asks { rank, call, size } = line {
            self.by_rank.push(rank, call)?;
            self.sizes.push(rank, size)?;
        }
        Ok(())
    }
}
