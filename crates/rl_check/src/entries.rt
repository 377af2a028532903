//! The tests of a shard's entries.
ghost use Rattle.std.specs.Prelude.{◌≡◌, ◌↔◌, ◌<◌, ◌≤◌, length, slice_get, slice_index, Some, IsTrue, IfSome};
ghost use Rattle.std.specs.Option.{option_copied};
ghost use Rattle.rl_model.specs.Geom.{GeomFits};
ghost use Rattle.rl_model.specs.declared.entry.Reply.{Reply};
ghost use Rattle.rl_check.specs.Entries.{before, updates_before, StandsBefore};
ghost use Rattle.rl_check.specs.Finding.{AreGood, FoundAmong};
ghost use Rattle.rl_check.specs.Shards.{entry_tests};
ghost use Rattle.rl_check.specs.Tests.{IsFirstOf};
ghost use Rattle.rl_check.specs.OneThread.{is_begun, IsToldTo};

use crate::blocks::{is_begun, may_follow, stands_before};
use crate::due_replies::OneThread;
use crate::illegal::Test;
use rl_model::{Entry, Geom};

// The entry before a place.
fn before(entries: &[Entry], place: usize) -> Option<&Entry>
    requires { place ≤ length entries.now }
    ensures { option_copied result ≡ before entries.entry.now place }
{
    if place == 0 {
        return None;
    }
    Some(&entries[place - 1])
}

// Whether an entry stands after the one before it, if there is one.
fn is_in_order(before: Option<&Entry>, entry: &Entry) -> bool
    ensures { IsTrue result ↔ ((d : _) → option_copied before.entry ≡ Some d → StandsBefore d entry.now) }
{
    match before {
        Some(last) => stands_before(last, entry),
        None => true,
    }
}

// Whether the entry at a place has the reply that one thread gets there, if one is told.
fn has_reply(told: &OneThread, place: usize, entry: &Entry) -> bool
    requires { place < length told.now.replies.items }
    ensures { IsTrue result ↔ ((reply : Reply) → slice_get told.now.replies.items place ≡ Some (Some reply) → entry.now.reply ≡ reply) }
{
    match told.replies[place] {
        Some(reply) => entry.reply == reply,
        None => true,
    }
}

// The first test that the entry at a place fails, where those before it pass theirs and have so many updates.
fn fault_at(
    geom: Geom,
    shard: u32,
    entries: &[Entry],
    told: &OneThread,
    place: usize,
    updates: u32,
) -> Option<Test>
    requires geom { GeomFits geom }
    requires there { place < length entries.now }
    requires told { IsToldTo geom entries.now (length entries.now) told.now.replies.items told.now.table.table }
    requires good { AreGood geom shard entries.now place }
    requires counted { updates ≡ updates_before entries.now place }
    ensures { IsFirstOf (entry_tests geom shard entries.now place) result }
{
    let entry = &entries[place];
    let last = before(entries, place);
    if entry.call.shard(geom) != shard {
        return Some(Test::Shard);
    }
    if !is_in_order(last, entry) {
        return Some(Test::Order);
    }
    if !may_follow(last, entry) {
        return Some(Test::Batch);
    }
    if entry.at != updates {
        return Some(Test::At);
    }
    if !has_reply(told, place, entry) {
        return Some(Test::Reply);
    }
    None
}

/// How many updates the entries have.
///
/// # Errors
///
/// The first test that an entry fails, with the entry's place.
pub fn first_fault(
    geom: Geom,
    shard: u32,
    entries: &[Entry],
    told: &OneThread,
) -> Result<u32, (u32, Test)>
    requires geom { GeomFits geom }
    requires few { length entries.now ≤ 20000 }
    requires told { IsToldTo geom entries.now (length entries.now) told.now.replies.items told.now.table.table }
    ensures { FoundAmong geom shard entries.now result }
{
    let mut updates = 0;
    for place in 0..entries.len() {
        if let Some(test) = fault_at(geom, shard, entries, told, place, updates) {
            return Err((place as u32, test));
        }
        updates += u32::from(entries[place].call.is_update());
    }
    Ok(updates)
}

/// Whether the last entry leaves a batch begun.
pub fn ends_in_batch(entries: &[Entry]) -> bool
    ensures { result ≡ is_begun (before entries.now (length entries.now)) }
{
    is_begun(before(entries, entries.len()))
}
