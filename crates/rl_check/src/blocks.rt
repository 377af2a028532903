//! The order of entries, where a batch goes on, and what one thread gets for a batch.
ghost use Rattle.std.specs.Prelude.{◌≡◌, ◌↔◌, ◌<◌, length, slice_get, Some, IsTrue, IfOk, OnOk};
ghost use Rattle.rl_journal.specs.Blocks.{stops, any_stops, only_first, in_turn, apply_batch, calls_of, is_last};
ghost use Rattle.rl_check.specs.Entries.{GoesOnInBatch, IsFirstOfBlock, MayFollow, StandsBefore, IsWholeBatch};
ghost use Rattle.rl_check.specs.OneThread.{is_begun};
ghost use Rattle.rl_check.specs.Only.{told_next};
ghost use Rattle.std.specs.Option.{option_copied};

use rl_model::{Entry, Plain, Reply};
use std::alloc::{AllocError as OutOfMemory, Global};

/// Whether one entry stands before another: by place, then gets and holds before updates, then by rank and number.
pub fn stands_before(first: &Entry, second: &Entry) -> bool
    ensures { IsTrue result ↔ StandsBefore first.now second.now }
{
    if first.at != second.at {
        return first.at < second.at;
    }
    if first.call.is_update() != second.call.is_update() {
        return second.call.is_update();
    }
    if first.rank != second.rank {
        return first.rank < second.rank;
    }
    first.seq < second.seq
}

// Whether an entry goes on with the batch of the one before it.
fn goes_on(before: &Entry, entry: &Entry) -> bool
    ensures { IsTrue result ↔ GoesOnInBatch before.now entry.now }
{
    entry.call.is_update()
        && entry.rank == before.rank
        && entry.batch == before.batch
        && before.seq < entry.seq
        && entry.seq - before.seq == 1
        && before.part < entry.part
        && entry.part - before.part == 1
}

// Whether no part of the entry's block comes after it.
fn is_last(entry: &Entry) -> bool
    ensures { result ≡ is_last entry.now }
{
    u64::from(entry.batch) <= u64::from(entry.part) + 1
}

// Whether an entry is a call alone, or the first update of a batch.
fn begins(entry: &Entry) -> bool
    ensures { IsTrue result ↔ IsFirstOfBlock entry.now }
{
    entry.batch == 0 || (entry.call.is_update() && entry.part == 0)
}

/// Whether an entry leaves a batch begun.
pub fn is_begun(before: Option<&Entry>) -> bool
    ensures { result ≡ is_begun (option_copied before.entry) }
{
    match before {
        Some(entry) => !is_last(entry),
        None => false,
    }
}

/// Whether an entry may stand behind the one before it, if there is one.
pub fn may_follow(before: Option<&Entry>, entry: &Entry) -> bool
    ensures { IsTrue result ↔ MayFollow (option_copied before.entry) entry.now }
{
    match before {
        Some(last) => {
            if is_last(last) {
                begins(entry)
            } else {
                goes_on(last, entry)
            }
        }
        None => begins(entry),
    }
}

/// Whether a whole batch begins at this place: as many entries as it has calls, each of which goes on with the one before it.
pub fn is_whole_batch(entries: &[Entry], start: usize) -> bool
    requires { start < length entries.now }
    ensures { (first : _) → slice_get entries.now start ≡ Some first → (IsTrue result ↔ IsWholeBatch entries.now start first.batch) }
{
    let first = &entries[start];
    let size = first.batch as usize;
    if !first.call.is_update() || first.part != 0 || size == 0 || size > entries.len() - start {
        return false;
    }
    for place in start + 1..start + size {
        if !goes_on(&entries[place - 1], &entries[place]) {
            return false;
        }
    }
    true
}

// Whether a batch with such a reply is undone.
fn stops(reply: Reply) -> bool
    ensures { result ≡ stops reply }
{
    matches!(reply, Reply::Full | Reply::Over(_))
}

fn any_stops(replies: &[Reply]) -> bool
    ensures { result ≡ any_stops replies.now }
{
    for reply in replies {
        if stops(*reply) {
            return true;
        }
    }
    false
}

// Whether the batch is stopped with this reply, and what is told of it: the reply that stops the batch stays, and each
// other is undone.
fn told_next(stopped: bool, reply: Reply) -> (bool, Reply)
    ensures { result ≡ told_next stopped reply }
{
    if !stopped && stops(reply) {
        return (true, reply);
    }
    (stopped, Reply::Undone)
}

// The first reply that stops the batch stays, and all others are undone.
fn only_first(alloc: Global, replies: &[Reply]) -> Result<Vec<Reply>, OutOfMemory>
    ensures { IfOk result (λ told. told.items ≡ only_first replies.now) }
{
    let mut told = Vec::with_capacity(alloc, replies.len())?;
    let mut stopped = false;
    for reply in replies {
        let (stops, here) = told_next(stopped, *reply);
        stopped = stops;
        told.push(here)?;
    }
    Ok(told)
}

// The calls of some entries, one after the other: the table after them, and the replies.
fn in_turn(alloc: Global, plain: &mut Plain, block: &[Entry]) -> Result<Vec<Reply>, OutOfMemory>
    ensures size { OnOk result (plain.new.geom ≡ plain.old.geom) }
    ensures replies { IfOk result (λ replies. replies.items ≡ (in_turn plain.old.geom plain.old.table (calls_of block.now)).1) }
    ensures table { OnOk result (plain.new.table ≡ (in_turn plain.old.geom plain.old.table (calls_of block.now)).0) }
{
    let mut replies = Vec::with_capacity(alloc, block.len())?;
    for entry in block {
        let reply = plain.call(entry.call)?;
        replies.push(reply)?;
    }
    Ok(replies)
}

/// Makes the calls of a batch, and gives their replies: all of them are done, or none where a reply stops the batch.
///
/// # Errors
///
/// Want of memory. Nothing is said of the table then.
pub fn apply_batch(
    alloc: Global,
    plain: &mut Plain,
    block: &[Entry],
) -> Result<Vec<Reply>, OutOfMemory>
    ensures size { OnOk result (plain.new.geom ≡ plain.old.geom) }
    ensures replies { IfOk result (λ replies. replies.items ≡ (apply_batch plain.old.geom (calls_of block.now) plain.old.table).1) }
    ensures table { OnOk result (plain.new.table ≡ (apply_batch plain.old.geom (calls_of block.now) plain.old.table).0) }
{
    let before = plain.copy()?;
    let replies = in_turn(alloc, plain, block)?;
    if !any_stops(replies.as_slice()) {
        return Ok(replies);
    }
    *plain = before;
    only_first(alloc, replies.as_slice())
}
