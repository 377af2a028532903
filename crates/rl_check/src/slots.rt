//! A rank's entries by number.
ghost use Rattle.std.specs.Prelude.{◌≡◌, ◌<◌, ◌+◌, ◌++◌, filter, flat_map, take, length, IfOk, OnOk};
ghost use Rattle.rl_journal.specs.Legal.{is_of};
ghost use Rattle.rl_report.specs.Lawful.{transcript_in};
ghost use Rattle.rl_report.specs.Reports.{TheShard};
ghost use Rattle.rl_check.specs.Slots.{AreSlots, slot_with};

use rl_model::Entry;
use rl_report::ShardReport;
use std::alloc::{AllocError as OutOfMemory, Global};

/// What is found among a rank's entries of one number.
#[derive(Clone, Copy, PartialEq, Eq, Debug)]
pub enum Slot {
    /// No entry has it.
    Empty,
    /// This entry alone has it.
    One(Entry),
    /// More than one have it.
    More,
}

// Appends a rank's entries.
fn push_own(own: &mut Vec<Entry>, entries: &[Entry], rank: u32) -> Result<(), OutOfMemory>
    ensures { OnOk result (own.new.items ≡ own.old.items ++ filter (is_of rank) entries.now) }
{
    for entry in entries {
        if entry.rank == rank {
            own.push(*entry)?;
        }
    }
    Ok(())
}

/// A rank's entries, shard after shard.
pub fn own_of(alloc: Global, shards: &[ShardReport], rank: u32) -> Result<Vec<Entry>, OutOfMemory>
    ensures { IfOk result (λ own. own.items ≡ flat_map (λ (S : TheShard). transcript_in S.entries rank) shards.now) }
{
    let mut own = Vec::new(alloc);
    for part in shards {
        push_own(&mut own, part.entries.as_slice(), rank)?;
    }
    Ok(own)
}

// A slot with an entry more.
fn with_entry(slot: Slot, entry: Entry) -> Slot
    ensures { result ≡ slot_with slot entry }
{
    match slot {
        Slot::Empty => Slot::One(entry),
        Slot::One(_) => Slot::More,
        Slot::More => Slot::More,
    }
}

// Puts the entry at a place into its slot, after those before it. One whose number has no slot is in none.
fn put(slots: &mut [Slot], own: &[Entry], place: usize)
    requires there { place < length own.now }
    requires so_far { AreSlots (take place own.now) slots.old }
    ensures slots { AreSlots (take (place + 1) own.now) slots.new }
{
    let entry = own[place];
    if (entry.seq as usize) < slots.len() {
        slots[entry.seq as usize] = with_entry(slots[entry.seq as usize], entry);
    }
}

/// As many slots as there are entries, each with those of its number. Entries with greater numbers are in none.
pub fn slots_of(alloc: Global, own: &[Entry]) -> Result<Vec<Slot>, OutOfMemory>
    ensures each { IfOk result (λ slots. length slots.items ≡ length own.now) }
    ensures slots { IfOk result (λ slots. AreSlots own.now slots.items) }
{
    let mut slots = vec![in alloc; Slot::Empty; own.len()]?;
    for place in 0..own.len() {
        put(slots.as_mut_slice(), own, place);
    }
    Ok(slots)
}
