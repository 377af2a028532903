//! How a shard is closed: the memory for its parts is taken, the seats go to the window, and the parts are filled.

ghost use Rattle.std.specs.Prelude.{◌≡◌, ◌+◌, ◌*◌, ◌<◌, ◌≤◌, ◌++◌, ℕ, [], length, map, min, sum, take, slice_get, slice_index, Some, IfOk, vec_items, vec_len, vec_capacity};
ghost use Rattle.std.specs.FinMap as finite;
ghost use Rattle.rl_site.specs.Site.{journal_base};
ghost use Rattle.rl_core.specs.ShardTables.{journal_at};
ghost use Rattle.rl_shard.specs.Tallies.{full};
ghost use Rattle.rl_shard.specs.Shards.{IsShardOf, table_at};
ghost use Rattle.rl_shard.specs.Ends.{all_settled, all_passed};
ghost use Rattle.rl_shard.specs.Closing.{inner_of, seated, all_entries, IsLeft, most_pairs, pairs_left, IsEmptyWithRoom, AreTotals, AreAllTotals};

use crate::closed::Closed;
use crate::counting::{CountedView, Counting};
use crate::seat::Seat;
use crate::shard::Shard;
use rl_core::ShardCore;
use rl_journal::journal_entry;
use rl_model::Entry;
use rl_site::{COUNT_WORD, ENTRY_WORDS, VOLUME_BASE, journal_base};
use rl_step::Tally;
use rl_volume::{content_into, volume_words};
use rl_window::WinSeat;
use std::alloc::{AllocError as OutOfMemory, Global};

/// The memory for a close.
#[derive(Drop)]
pub struct Parts<C: ShardCore> {
    /// Room for all that a closed shard leaves, and the tallies.
    pub closed: Closed,
    /// Room for the window's seats.
    pub inner: Vec<WinSeat<Counting<C>>>,
}

/// The tally of a queue that the seats hold together; a count that is full stands still.
fn total<C: ShardCore>(seats: &[Seat<C>], queue: usize) -> Tally
    ensures settled { result.settled ≡ min (all_settled queue seats.now) full }
    ensures passed { result.passed ≡ min (all_passed queue seats.now) full }
{
    let mut settled: u64 = 0;
    let mut passed: u64 = 0;
    for seat in seats {
        let tally = seat.tally(queue);
        settled = settled.saturating_add(tally.settled);
        passed = passed.saturating_add(tally.passed);
    }
    Tally { settled, passed }
}

/// The tallies of so many queues that the seats hold together. A count that is full is refused like want of memory.
fn totals<C: ShardCore>(
    alloc: Global,
    seats: &[Seat<C>],
    queues: usize,
) -> Result<Vec<Tally>, OutOfMemory>
    ensures { IfOk result (λ t. AreTotals seats.now queues t.items) }
{
    let mut totals = Vec::with_capacity(alloc, queues)?;
    for queue in 0..queues {
        let tally = total(seats, queue);
        if tally.settled == u64::MAX || tally.passed == u64::MAX {
            return Err(OutOfMemory);
        }
        totals.push_reserved(tally);
    }
    Ok(totals)
}

/// How many updates all ranks may make together.
fn places(rooms: &[u32]) -> u32
    requires { sum rooms.now ≤ 20000 }
    ensures { result ≡ sum rooms.now }
{
    rooms.iter().sum()
}

/// Takes the memory for a close, and adds up the tallies.
pub fn take_parts<C: ShardCore>(
    shard: &Shard<C>,
    seats: &[Seat<C>],
) -> Result<Parts<C>, OutOfMemory>
    requires shard { IsShardOf C.says (length seats.now) shard.now }
    ensures room { IfOk result (λ p. IsEmptyWithRoom (table_at C.says shard.now) (length seats.now) p.closed) }
    ensures inner { IfOk result (λ p. (p.inner.items ≡ []) × (length seats.now ≤ vec_capacity p.inner)) }
    ensures queues { IfOk result (λ p. AreAllTotals seats.now p.closed.queues.items) }
{
    let queues = match seats.first() {
        Some(seat) => seat.queues(),
        None => 0,
    };
    let core = shard.core();
    let geom = core.geom();
    let closed = Closed {
        journal: Vec::with_capacity(shard.alloc, places(core.rooms()) as usize)?,
        pairs: Vec::with_capacity(shard.alloc, (geom.buckets + geom.overflow) as usize)?,
        transcripts: Vec::with_capacity(shard.alloc, seats.len())?,
        queues: totals(shard.alloc, seats, queues)?,
    };
    let inner = Vec::with_capacity(shard.alloc, seats.len())?;
    Ok(Parts { closed, inner })
}

/// Moves the window's seats out of the shard's, which are turned round and taken from the back: so none moves but the one that is taken.
pub fn take_seats<C: ShardCore>(seats: &mut Vec<Seat<C>>, inner: &mut Vec<WinSeat<Counting<C>>>)
    requires { vec_len seats.old + vec_len inner.old ≤ vec_capacity inner.old }
    ensures inner { inner.new.items ≡ inner.old.items ++ map inner_of seats.old.items }
    ensures seats { (seats.new.items ≡ []) × (vec_capacity seats.new ≡ vec_capacity seats.old) }
{
    seats.reverse();
    while let Some(Seat { seat }) = seats.pop() {
        inner.push_reserved(seat);
    }
}

/// Makes the shard's seats of the window's.
pub fn give_seats<C: ShardCore>(inner: Vec<WinSeat<Counting<C>>>, seats: &mut Vec<Seat<C>>)
    requires { vec_len inner + vec_len seats.old ≤ vec_capacity seats.old }
    ensures { seats.new.items ≡ seats.old.items ++ map seated inner.items }
{
    for seat in inner {
        seats.push_reserved(Seat { seat });
    }
}

/// The entry of the update at a place of the journal.
fn update_at<C: ShardCore>(core: &C, words: &[u64], at: u32) -> Entry
    requires left { IsLeft (C.says core.now) words.now }
    requires there { at < length (journal_at (C.says core.now).table words.now) }
    ensures { slice_get (journal_at (C.says core.now).table words.now) at ≡ Some result }
{
    let first = journal_base(core.geom()) as usize + ENTRY_WORDS as usize * at as usize;
    let spelled = [
        words[first],
        words[first + 1],
        words[first + 2],
        words[first + 3],
        words[first + 4],
        words[first + 5],
    ];
    journal_entry(core.shard(), at, spelled)
}

/// Reads the journal.
fn read_journal<C: ShardCore>(core: &C, words: &[u64], journal: &mut Vec<Entry>)
    requires left { IsLeft (C.says core.now) words.now }
    requires room { (journal.old.items ≡ []) × (sum (C.says core.now).table.site.rooms ≤ vec_capacity journal.old) }
    ensures { journal.new.items ≡ journal_at (C.says core.now).table words.now }
{
    for at in 0..words[COUNT_WORD as usize] as u32 {
        journal.push_reserved(update_at(core, words, at));
    }
}

/// Reads what the table holds.
fn read_pairs<C: ShardCore>(core: &C, words: &[u64], pairs: &mut Vec<(u64, u64)>)
    requires left { IsLeft (C.says core.now) words.now }
    requires room { (pairs.old.items ≡ []) × (most_pairs (C.says core.now).table ≤ vec_capacity pairs.old) }
    ensures { pairs.new.items ≡ pairs_left (C.says core.now).table words.now }
{
    let geom = core.geom();
    let first = VOLUME_BASE as usize;
    let end = first + volume_words(geom) as usize;
    content_into(geom, &words[first..end], pairs);
}

/// Takes the transcripts out of the views.
fn take_transcripts<C: ShardCore>(
    core: &C,
    views: Vec<CountedView<C::View>>,
    transcripts: &mut Vec<Vec<Entry>>,
)
    requires { vec_len views + vec_len transcripts.old ≤ vec_capacity transcripts.old }
    ensures { map vec_items transcripts.new.items ≡ map vec_items transcripts.old.items ++ all_entries (C.says core.now).table views.items }
{
    for view in views {
        let CountedView { whole, tallies: _ } = view;
        transcripts.push_reserved(core.into_entries(whole));
    }
}

/// Fills the parts, without memory.
pub fn finish<C: ShardCore>(
    core: &C,
    words: &[u64],
    views: Vec<CountedView<C::View>>,
    mut closed: Closed,
) -> Closed
    requires left { IsLeft (C.says core.now) words.now }
    requires room { IsEmptyWithRoom (C.says core.now).table (vec_len views) closed }
    ensures journal { result.journal.items ≡ journal_at (C.says core.now).table words.now }
    ensures pairs { result.pairs.items ≡ pairs_left (C.says core.now).table words.now }
    ensures transcripts { map vec_items result.transcripts.items ≡ all_entries (C.says core.now).table views.items }
    ensures queues { result.queues ≡ closed.queues }
{
    read_journal(core, words, &mut closed.journal);
    read_pairs(core, words, &mut closed.pairs);
    take_transcripts(core, views, &mut closed.transcripts);
    closed
}
