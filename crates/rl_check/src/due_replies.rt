//! What one thread gets for the entries of a shard.
ghost use Rattle.std.specs.Prelude.{◌≡◌, ◌<◌, ◌≤◌, ◌+◌, ◌++◌, length, map, drop, take, slice_index, slice_get, Some, None, IfOk, OnOk, ℕ};
ghost use Rattle.rl_model.specs.Geom.{GeomFits};
ghost use Rattle.rl_model.specs.declared.entry.Reply.{Reply};
ghost use Rattle.rl_model.specs.Table.{apply};
ghost use Rattle.rl_journal.specs.Blocks.{apply_batch, calls_of};
ghost use Rattle.rl_check.specs.OneThread.{IsToldTo, with_call, with_batch};

use crate::blocks::{apply_batch, is_whole_batch};
use rl_model::{Entry, Geom, Plain, Reply};
use std::alloc::{AllocError as OutOfMemory, Global};

/// What one thread gets that makes the calls of entries in their order.
#[derive(Drop)]
pub struct OneThread {
    /// Its reply for each entry; none for an entry of a batch that isn't whole.
    pub replies: Vec<Option<Reply>>,
    /// The table that it leaves.
    pub table: Plain,
}

impl OneThread {
    // Makes a call alone.
    fn take_call(&mut self, entry: &Entry) -> Result<(), OutOfMemory>
        ensures size { OnOk result (self.new.table.geom ≡ self.old.table.geom) }
        ensures told { OnOk result (self.new.replies.items ≡ with_call self.old.table self.old.replies.items entry.now.call) }
        ensures table { OnOk result (self.new.table.table ≡ (apply self.old.table.geom entry.now.call self.old.table.table).0) }
    {
        let reply = self.table.call(entry.call)?;
        self.replies.push(Some(reply))?;
        Ok(())
    }

    // Tells these replies of the next entries.
    fn tell(&mut self, replies: &[Reply]) -> Result<(), OutOfMemory>
        ensures table { OnOk result (self.new.table ≡ self.old.table) }
        ensures told { OnOk result (self.new.replies.items ≡ self.old.replies.items ++ map (λ (r : Reply). Some r) replies.now) }
    {
        for reply in replies {
            self.replies.push(Some(*reply))?;
        }
        Ok(())
    }

    // Makes a whole batch.
    fn take_batch(&mut self, alloc: Global, block: &[Entry]) -> Result<(), OutOfMemory>
        ensures size { OnOk result (self.new.table.geom ≡ self.old.table.geom) }
        ensures told { OnOk result (self.new.replies.items ≡ with_batch self.old.table self.old.replies.items (calls_of block.now)) }
        ensures table { OnOk result (self.new.table.table ≡ (apply_batch self.old.table.geom (calls_of block.now) self.old.table.table).0) }
    {
        let replies = apply_batch(alloc, &mut self.table, block)?;
        self.tell(replies.as_slice())
    }

    // Makes the block that begins at the place up to which there are replies, and says how many entries it has.
    fn take_block(
        &mut self,
        alloc: Global,
        entries: &[Entry],
        place: usize,
    ) -> Result<usize, OutOfMemory>
        requires there { place < length entries.now }
        requires so_far { IsToldTo self.old.table.geom entries.now place self.old.replies.items self.old.table.table }
        ensures size { OnOk result (self.new.table.geom ≡ self.old.table.geom) }
        ensures more { IfOk result (λ n. 1 ≤ n) }
        ensures within { IfOk result (λ n. place + n ≤ length entries.now) }
        ensures told { IfOk result (λ n. IsToldTo self.old.table.geom entries.now (place + n) self.new.replies.items self.new.table.table) }
    {
        let entry = &entries[place];
        if entry.batch == 0 {
            self.take_call(entry)?;
            return Ok(1);
        }
        if !is_whole_batch(entries, place) {
            self.replies.push(None)?;
            return Ok(1);
        }
        let size = entry.batch as usize;
        self.take_batch(alloc, &entries[place..place + size])?;
        Ok(size)
    }
}

/// What one thread gets that makes the calls of the entries in order, from the empty table, each whole batch at once.
///
/// It takes time in proportion to the number of entries, since a table is small.
///
/// # Errors
///
/// Want of memory.
pub fn one_thread(alloc: Global, geom: Geom, entries: &[Entry]) -> Result<OneThread, OutOfMemory>
    requires { GeomFits geom }
    ensures { IfOk result (λ told. IsToldTo geom entries.now (length entries.now) told.replies.items told.table.table) }
{
    let mut told = OneThread {
        replies: Vec::with_capacity(alloc, entries.len())?,
        table: Plain::new(alloc, geom),
    };
    let mut place = 0;
    while place < entries.len() {
        place += told.take_block(alloc, entries, place)?;
    }
    Ok(told)
}
