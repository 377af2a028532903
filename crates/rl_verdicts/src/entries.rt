//! Why an entry fails one of its tests.
ghost use Rattle.std.specs.Prelude.{◌≡◌, ◌+◌, Some, IfOk, IfSome, count_by, slice_get};
ghost use Rattle.rl_model.specs.Geom.{GeomFits};
ghost use Rattle.rl_journal.specs.Legal.{updates};
ghost use Rattle.rl_check.specs.OneThread.{BatchesFit, Tells};

use crate::places::entry_line;
use crate::reasons::{BatchPart, Reason};
use rl_check::{Test, is_begun, one_thread};
use rl_model::{Entry, Geom, Reply};
use rl_report::Report;
use std::alloc::{AllocError as OutOfMemory, Global};

/// How many of these entries are updates.
pub fn updates_among(entries: &[Entry]) -> usize
    ensures { result ≡ count_by updates entries.now }
{
    let mut count = 0;
    for entry in entries {
        count += usize::from(entry.call.is_update());
    }
    count
}

/// The entry before a place.
fn before(entries: &[Entry], at: usize) -> Option<&Entry> {
    if at == 0 {
        return None;
    }
    entries.get(at - 1)
}

/// Why an entry doesn't stand behind the one before it, which is on the line.
fn out_of_order(last: &Entry, entry: &Entry, line: usize) -> Reason {
    if entry.at < last.at {
        return Reason::Earlier(entry.at, last.at, line);
    }
    if last.call.is_update() && !entry.call.is_update() {
        return Reason::BehindUpdate(entry.at, line);
    }
    if entry.rank < last.rank {
        return Reason::LowerRank(entry.rank, last.rank, line);
    }
    Reason::LowerNumber(entry.seq, last.seq, line)
}

/// The part of a batch that an entry is told as.
fn part_told(entry: &Entry) -> BatchPart {
    BatchPart {
        rank: entry.rank,
        number: entry.seq,
        part: entry.part,
        batch: entry.batch,
    }
}

/// The part of a batch that is due behind an entry.
fn part_after(last: &Entry) -> BatchPart {
    BatchPart {
        rank: last.rank,
        number: last.seq.saturating_add(1),
        part: last.part.saturating_add(1),
        batch: last.batch,
    }
}

/// Why an entry doesn't go on with the batch that is begun, or begins no block.
fn no_part(last: Option<&Entry>, entry: &Entry) -> Reason {
    match last {
        Some(last) if is_begun(Some(last)) => { Reason::GoesOn(part_told(entry), part_after(last)) }
        _ => Reason::NoBlock(entry.part, entry.batch),
    }
}

/// How much of the last batch is there.
pub fn cut_off(entries: &[Entry]) -> Reason {
    match before(entries, entries.len()) {
        Some(last) => Reason::CutOff(last.part.saturating_add(1), last.batch),
        None => Reason::Unknown,
    }
}

/// The reply at a place of these, where one is told.
fn told_at(replies: &[Option<Reply>], at: usize) -> Option<Reply>
    ensures { IfSome result (λ reply. slice_get replies.now at ≡ Some (Some reply)) }
{
    match replies.get(at) {
        Some(Some(reply)) => Some(*reply),
        _ => None,
    }
}

/// The reply that one thread gets at a place; nothing where the entry's batch isn't whole.
fn due_reply(
    alloc: Global,
    geom: Geom,
    entries: &[Entry],
    at: usize,
) -> Result<Option<Reply>, OutOfMemory>
    requires { GeomFits geom }
    ensures { IfOk result (λ due. IfSome due (λ reply. BatchesFit entries.now (at + 1) → Tells geom entries.now at (Some reply))) }
{
    let told = one_thread(alloc, geom, entries)?;
    Ok(told_at(told.replies.as_slice(), at))
}

/// What one thread gets in place of the reply of an entry.
fn replied(
    alloc: Global,
    geom: Geom,
    entries: &[Entry],
    at: usize,
    entry: &Entry,
) -> Result<Reason, OutOfMemory>
    requires { GeomFits geom }
{
    match due_reply(alloc, geom, entries, at)? {
        Some(due) => Ok(Reason::Replied(entry.reply, due)),
        None => Ok(Reason::Unknown),
    }
}

/// Why the entry at a place of a shard fails this test.
pub fn reason_of_entry(
    alloc: Global,
    geom: Geom,
    report: &Report,
    shard: u32,
    entries: &[Entry],
    at: usize,
    test: Test,
) -> Result<Reason, OutOfMemory>
    requires { GeomFits geom }
{
    let Some(entry) = entries.get(at) else {
        return Ok(cut_off(entries));
    };
    let last = before(entries, at);
    match (test, last) {
        (Test::Shard, _) => Ok(Reason::OfShard(shard, entry.call.shard(geom), geom.shards)),
        (Test::Order, Some(last)) => {
            let line = entry_line(report, shard as usize, at.saturating_sub(1));
            Ok(out_of_order(last, entry, line))
        }
        (Test::Batch, _) => Ok(no_part(last, entry)),
        (Test::At, _) => Ok(Reason::Count(entry.at, updates_among(&entries[..at]))),
        _ => replied(alloc, geom, entries, at, entry),
    }
}
