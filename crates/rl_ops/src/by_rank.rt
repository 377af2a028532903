//! A list for each rank.
ghost use Rattle.std.specs.Prelude.{◌≡◌, ◌<◌, [], replicate, length, map, IfOk, OnOk, OnErr};
ghost use Rattle.rl_ops.specs.ByRank.{with_item};

use crate::appending::append;
use std::alloc::{AllocError as OutOfMemory, Global};
use std::marker::Model;

/// A list for each rank, from rank 0 on. Contracts see lists.
#[derive(Drop)]
pub struct ByRank<T: Drop> {
    lists: Vec<Vec<T>>,
}

impl<T: Drop> Model for ByRank<T> {
    ghost use Rattle.std.specs.Prelude.{List, map};

    ghost Value = { List (List T) };

    ghost view = { λ b. map (λ list. list.items) b.lists.items };
}

impl<T: Drop> ByRank<T> {
    /// Empty lists of so many ranks.
    pub fn new(alloc: Global, ranks: u32) -> Result<ByRank<T>, OutOfMemory>
        ensures { IfOk result (λ lists. lists ≡ replicate ranks []) }
    {
        ByRank::with_capacity(alloc, ranks, 0)
    }

    /// Empty lists of so many ranks, each with room for so many items: for who knows how many will come. Refused only for want of memory.
    pub fn with_capacity(alloc: Global, ranks: u32, each: usize) -> Result<ByRank<T>, OutOfMemory>
        ensures { IfOk result (λ lists. lists ≡ replicate ranks []) }
    {
        let mut lists = Vec::new(alloc);
        for _ in 0..ranks {
            lists.push(Vec::with_capacity(alloc, each)?)?;
        }
        Ok(ByRank { lists })
    }

    /// These lists, rank by rank. It takes no memory.
    pub fn from_vec(lists: Vec<Vec<T>>) -> ByRank<T>
        ensures { result ≡ map (λ list. list.items) lists.items }
    {
        ByRank { lists }
    }

    /// Gives the lists back, rank by rank.
    pub fn into_vec(self) -> Vec<Vec<T>>
        ensures { map (λ list. list.items) result.items ≡ self }
    {
        self.lists
    }

    /// The lists, rank by rank.
    pub fn as_slice(&self) -> &[Vec<T>]
        ensures { map (λ list. list.items) result.now ≡ self.now }
    {
        self.lists.as_slice()
    }

    /// One item more of a rank, after those that it has.
    #[inline(always)]
    pub fn push(&mut self, rank: u32, item: T) -> Result<(), OutOfMemory>
        requires { rank < length self.old }
        ensures ok { OnOk result (self.new ≡ with_item self.old rank item) }
        ensures err { OnErr result (self.new ≡ self.old) }
    {
        let list = &mut self.lists[rank as usize];
        append(list, item)?;
        Ok(())
    }
}
