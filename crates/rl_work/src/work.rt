//! The work of a rank's blocks.
ghost use Rattle.std.specs.Prelude.{◌≡◌, ◌<◌, ◌≤◌, ◌^◌, ◌+◌, ◌*◌, ◌∷◌, ◌++◌, drop, length, replicate, slice_get, slice_index, IfOk, IfSome, None, []};
ghost use Rattle.std.specs.List.{All};
ghost use Rattle.rl_volume.specs.Seen.{value_of};
ghost use Rattle.rl_volume.specs.Words.{volume_words};
ghost use Rattle.rl_model.specs.declared.entry.Reply.TheVariants.{Undone as is_undone};
ghost use Rattle.rl_journal.specs.Blocks.{stops};
ghost use Rattle.rl_model.specs.Geom.{GeomFits};
ghost use Rattle.rl_work.specs.Work as model;
ghost use Rattle.rl_work.specs.Unlocked as unlocked;
ghost use Rattle.rl_journal.specs.Journal.{spelled};
ghost use Rattle.rl_model.specs.Asked.{asks_update};

use crate::stage::Stage;
use arrayvec::ArrayVec;
use rl_journal::journal_value;
use rl_model::{Call, Entry, Geom, Reply};
use rl_site::{COUNT_WORD, Transcript, VOLUME_BASE, journal_base};
use rl_volume::{Seen, Write, decide, next_read};
use rl_word::Atom;
use std::alloc::{AllocError as OutOfMemory, Global};
use std::marker::Model;

/// A rank's side of the work: where it stands in its open block, what it knows there, and its entries so far.
///
/// It is made once, with room for all that it keeps, and takes no memory after that.
#[derive(Drop)]
pub struct LockedSide {
    stage: Stage,
    // The open block, and the number of its first call.
    calls: ArrayVec<Call, 8>,
    seq: u32,
    // What was read of the volume, with the writes of the decided calls applied; the replies and the writes of these.
    seen: Seen,
    replies: ArrayVec<Reply, 8>,
    writes: ArrayVec<Write, 40>,
    // Once all are decided: the count that was found, and the entries.
    at: u32,
    entries: ArrayVec<Entry, 8>,
    transcript: Transcript,
}

impl Model for LockedSide {
    ghost use Rattle.std.specs.Prelude.{◌≤◌, ◌*◌, length};
    ghost use Rattle.rl_work.specs.Work as model;

    ghost Value = { model.TheWork };

    ghost view = { λ w.
        record {
          stage = w.stage;
          calls = w.calls.items;
          seq = w.seq;
          seen = w.seen;
          replies = w.replies.items;
          at = w.at;
          entries = w.entries.items;
          writes = w.writes.items;
          transcript = w.transcript;
        } };

    ghost invariant = { λ w. (length w.replies.items ≤ length w.calls.items) × (length w.writes.items ≤ 5 * length w.replies.items) };
}

impl LockedSide {
    /// No block yet, and room for so many entries.
    ///
    /// # Errors
    ///
    /// Want of memory.
    pub fn new(alloc: Global, geom: Geom, room: u32) -> Result<LockedSide, OutOfMemory>
        requires { GeomFits geom }
        ensures { IfOk result (λ w. w ≡ model.first_work geom room) }
    {
        Ok(LockedSide {
            stage: Stage::Rest,
            calls: ArrayVec::new(),
            seq: 0,
            seen: Seen::new(alloc, geom)?,
            replies: ArrayVec::new(),
            writes: ArrayVec::new(),
            at: 0,
            entries: ArrayVec::new(),
            transcript: Transcript::new(alloc, room)?,
        })
    }

    /// Opens a block: a call alone, or the calls of a batch. The first has this number among its rank's calls, and the
    /// others the numbers after it.
    pub fn open(&mut self, calls: &[Call], seq: u32)
        requires { length calls.now ≤ 8 }
        ensures { self.new ≡ model.with_block self.old calls.now seq }
    {
        self.stage = Stage::Begin;
        set_calls(&mut self.calls, calls);
        self.seq = seq;
        self.seen.clear();
        self.replies.clear();
        self.writes.clear();
    }

    /// Whether a block is open, as far as the work goes.
    pub fn is_open(&self) -> bool
        ensures { result ≡ model.has_work self.now.stage }
    {
        !matches!(self.stage, Stage::Rest)
    }

    /// Whether an atom of the open block was made, and the work isn't over: its rank has the lock, under the rule.
    #[inline(always)]
    pub fn is_under_way(&self) -> bool
        ensures { result ≡ model.is_under_way self.now.stage }
    {
        match self.stage {
            Stage::Rest | Stage::Begin => false,
            Stage::Read { .. } | Stage::Journal { .. } | Stage::Volume { .. } => true,
        }
    }

    /// The next atom of a rank that holds the lock: a load or a store of a word before the lock's. None where no block is
    /// open. Its numbers fit, as they do under the rule ([`work_laws`](crate::work_laws)).
    #[inline(always)]
    pub fn next(&self, geom: Geom) -> Option<Atom>
        requires fits { GeomFits geom }
        requires can { model.CanName geom self.now self.now.stage }
        ensures { result ≡ model.work_atom geom self.now }
    {
        match self.stage {
            Stage::Rest => None,
            Stage::Begin => Some(Atom::Load { word: COUNT_WORD }),
            Stage::Read { word, .. } => Some(Atom::Load {
                word: VOLUME_BASE + word,
            }),
            Stage::Journal { made } => Some(Atom::Store {
                word: journal_base(geom) + (6 * self.at + made),
                value: self.journal_at(made),
            }),
            Stage::Volume { made } => Some(write_atom(self.count_after(), self.write_at(made))),
        }
    }

    /// Whether its next atom stores.
    pub fn stores(&self) -> bool
        ensures { result ≡ model.stores self.now.stage }
    {
        matches!(self.stage, Stage::Journal { .. } | Stage::Volume { .. })
    }

    /// Goes on behind the next atom, which gave `got`, on a shard by its number and for a rank by its own. Whether the work
    /// is over with it: the entries of the block then stand in the transcript. There is room for them, and the numbers fit,
    /// as they do under the rule ([`work_laws`](crate::work_laws)).
    pub fn turn(&mut self, geom: Geom, shard: u32, rank: u32, got: u64) -> bool
        requires fits { GeomFits geom }
        requires can { model.CanTurn geom self.old got self.old.stage }
        ensures work { self.new ≡ (model.work_after geom shard rank self.old got).work }
        ensures over { result ≡ (model.work_after geom shard rank self.old got).over }
    {
        match self.stage {
            Stage::Rest => false,
            Stage::Begin => self.read_on(geom, shard, rank, got as u32),
            Stage::Read { count, word } => {
                self.seen.add(word, got);
                self.read_on(geom, shard, rank, count)
            }
            Stage::Journal { made } => {
                self.journal_on(made);
                false
            }
            Stage::Volume { made } => self.write_on(made),
        }
    }

    /// The entries so far.
    pub fn transcript(&self) -> &[Entry]
        ensures { result.now ≡ self.now.transcript.items }
    {
        self.transcript.as_slice()
    }

    /// The entries.
    pub fn into_transcript(self) -> Vec<Entry>
        ensures { result.items ≡ self.transcript.items }
    {
        self.transcript.into_entries()
    }

    /// One of the words of the entries.
    fn journal_at(&self, made: u32) -> u64
        requires { made < 6 * length self.now.entries }
        ensures { result ≡ slice_index (spelled self.now.entries) made }
    {
        journal_value(&self.entries[(made / 6) as usize], made % 6)
    }

    /// The count after the block.
    fn count_after(&self) -> u32
        requires { self.now.at + length self.now.entries < 2 ^ 32 }
        ensures { result ≡ self.now.at + length self.now.entries }
    {
        self.at + self.entries.len() as u32
    }

    /// The write with this number, if there are so many.
    fn write_at(&self, made: u32) -> Option<Write>
        requires few { made ≤ length self.now.writes }
        requires inside { All (λ w. w.word < 2 ^ 31) self.now.writes }
        ensures is { result ≡ slice_get self.now.writes made }
        ensures inside { IfSome result (λ w. w.word < 2 ^ 31) }
    {
        if (made as usize) < self.writes.len() {
            Some(self.writes[made as usize])
        } else {
            None
        }
    }

    /// After a store to the journal the next one follows, or the first write.
    fn journal_on(&mut self, made: u32)
        requires { made < 6 * length self.old.entries }
        ensures { self.new ≡ (model.journal_on self.old made).work }
    {
        let words = 6 * self.entries.len() as u32;
        self.stage = if made + 1 == words {
            Stage::Volume { made: 0 }
        } else {
            Stage::Journal { made: made + 1 }
        };
    }

    /// The word of the volume that the first call of the open block reads next, by what was seen: of a get, while it reads
    /// outside of the lock. None where it has read all that it needs.
    pub fn wanted(&self, geom: Geom) -> Option<u32>
        requires { GeomFits geom }
        ensures { result ≡ unlocked.wanted geom self.now }
    {
        match self.calls.as_slice().first() {
            Some(call) => next_read(geom, *call, &self.seen),
            None => None,
        }
    }

    /// Keeps what a word of the volume gave, which wasn't seen yet.
    pub fn see(&mut self, word: u32, got: u64)
        requires in_volume { word < self.old.seen.room }
        requires unseen { value_of self.old.seen.pairs word ≡ None }
        ensures { self.new ≡ unlocked.with_word self.old word got }
    {
        self.seen.add(word, got);
        if let Some(call) = self.calls.as_slice().first() {
            self.seen.walk_on(*call);
        }
    }

    /// Forgets all that was seen: the block is read for from the beginning.
    pub fn forget(&mut self)
        ensures { self.new ≡ model.with_seen self.old [] }
    {
        Seen::clear(&mut self.seen);
    }

    /// Having seen what it has, a rank that found this count reads the next word for a call, or decides all calls that are
    /// left. Whether the work is over with it, as for [`Work::turn`].
    pub fn read_on(&mut self, geom: Geom, shard: u32, rank: u32, count: u32) -> bool
        requires fits { GeomFits geom }
        requires can { model.CanDecide geom self.old count }
        ensures work { self.new ≡ (model.seen_on geom shard rank self.old count).work }
        ensures over { result ≡ (model.seen_on geom shard rank self.old count).over }
    {
        for place in self.replies.len()..self.calls.len() {
            let call = self.calls[place];
            self.seen.walk_on(call);
            if let Some(word) = next_read(geom, call, &self.seen) {
                self.stage = Stage::Read { count, word };
                return false;
            }
            if self.decide(geom, call) {
                return self.close(shard, rank, count);
            }
        }
        self.close(shard, rank, count)
    }

    /// Decides the next call of the block. Where it stops the batch, all others are undone.
    fn decide(&mut self, geom: Geom, call: Call) -> bool
        requires fits { GeomFits geom }
        requires seen { self.old.seen.room ≡ volume_words geom }
        requires left { length self.old.replies < length self.old.calls }
        ensures stops { result ≡ model.stops_block (length self.old.calls) (model.decision_of geom self.old call).1 }
        ensures work { self.new ≡ model.after_call geom self.old call }
    {
        let size = self.calls.len();
        let (writes, reply) = decide(geom, call, &self.seen);
        let stopped = size != 1 && stops(reply);
        if stopped {
            self.stop(reply);
        } else {
            self.keep(&writes, reply);
        }
        stopped
    }

    /// The next call has this reply, and the others of its batch are undone.
    fn stop(&mut self, reply: Reply)
        requires { length self.old.replies < length self.old.calls }
        ensures { self.new ≡ model.with_stop self.old reply (drop (length self.old.replies + 1) self.old.calls) }
    {
        let before = self.replies.len();
        self.replies = undone_but(before, reply, self.calls.len() - before - 1);
        self.writes = ArrayVec::new();
    }

    /// The next call has this reply, and its writes are kept.
    fn keep(&mut self, writes: &ArrayVec<Write, 5>, reply: Reply)
        requires left { length self.old.replies < length self.old.calls }
        requires few { length self.old.calls ≤ 8 }
        requires inside { All (λ w. w.word < self.old.seen.room) writes.now.items }
        ensures { self.new ≡ model.with_call self.old (writes.now.items, reply) }
    {
        self.seen.patch(writes);
        self.replies.push(reply);
        add_writes(&mut self.writes, writes.as_slice());
    }

    /// All calls are decided: updates go on to the journal, and any other call is over.
    fn close(&mut self, shard: u32, rank: u32, count: u32) -> bool
        requires can { model.CanClose self.old count }
        ensures work { self.new ≡ (model.block_close shard rank self.old count).work }
        ensures over { result ≡ (model.block_close shard rank self.old count).over }
    {
        self.set_entries(shard, rank, count);
        self.at = count;
        if self.asks_update() {
            self.stage = Stage::Journal { made: 0 };
            false
        } else {
            self.finish();
            true
        }
    }

    /// Whether the block is one of updates.
    fn asks_update(&self) -> bool
        ensures { result ≡ asks_update self.now.calls }
    {
        match self.calls.as_slice().first() {
            Some(call) => call.is_update(),
            None => false,
        }
    }

    /// The batch number of the block.
    fn batch(&self) -> u32
        ensures { result ≡ model.batch_in self.now }
    {
        let size = self.calls.len() as u32;
        if size == 1 { 0 } else { size }
    }

    /// Notes the entries of the block, which found this count.
    fn set_entries(&mut self, shard: u32, rank: u32, count: u32)
        requires { model.CanClose self.old count }
        ensures many { length self.new.entries ≡ length self.old.calls }
        ensures are { self.new ≡ record self.old { entries = model.block_entries shard rank self.old count } }
    {
        let batch = self.batch();
        self.entries.clear();
        for part in 0..self.calls.len() {
            self.entries.push(Entry {
                shard,
                rank,
                seq: self.seq + part as u32,
                call: self.calls[part],
                at: count + part as u32,
                reply: self.replies[part],
                batch,
                part: part as u32,
            });
        }
    }

    /// After a write the next one follows; after the store of the count the work is over.
    fn write_on(&mut self, made: u32) -> bool
        requires few { made ≤ length self.old.writes }
        requires room { length self.old.transcript.items + length self.old.entries ≤ self.old.transcript.room }
        ensures work { self.new ≡ (model.written_on self.old made (slice_get self.old.writes made)).work }
        ensures over { result ≡ (model.written_on self.old made (slice_get self.old.writes made)).over }
    {
        if (made as usize) < self.writes.len() {
            self.stage = Stage::Volume { made: made + 1 };
            false
        } else {
            self.finish();
            true
        }
    }

    /// The work is over, with the entries of the block.
    fn finish(&mut self)
        requires { length self.old.transcript.items + length self.old.entries ≤ self.old.transcript.room }
        ensures { self.new ≡ (model.at_rest self.old).work }
    {
        self.stage = Stage::Rest;
        self.transcript.add_all(self.entries.as_slice());
    }
}

/// The store of a write to the volume, or of the count behind the last one.
pub fn write_atom(count: u32, write: Option<Write>) -> Atom
    requires { IfSome write (λ w. w.word < 2 ^ 31) }
    ensures { result ≡ model.write_atom count write }
{
    match write {
        Some(write) => Atom::Store {
            word: VOLUME_BASE + write.word,
            value: write.value,
        },
        None => Atom::Store {
            word: COUNT_WORD,
            value: u64::from(count),
        },
    }
}

/// These calls, in order, in place of those that were there.
fn set_calls(calls: &mut ArrayVec<Call, 8>, list: &[Call])
    requires { length list.now ≤ 8 }
    ensures { calls.new.items ≡ list.now }
{
    calls.clear();
    for call in list {
        calls.push(*call);
    }
}

/// Whether a batch with such a reply is undone.
fn stops(reply: Reply) -> bool
    ensures { result ≡ stops reply }
{
    matches!(reply, Reply::Full | Reply::Over(_))
}

/// A reply with so many undone calls before it, and so many after it.
fn undone_but(before: usize, reply: Reply, after: usize) -> ArrayVec<Reply, 8>
    requires { before + 1 + after ≤ 8 }
    ensures { result.items ≡ replicate before is_undone ++ reply ∷ replicate after is_undone }
{
    let mut replies = ArrayVec::new();
    push_undone(&mut replies, before);
    replies.push(reply);
    push_undone(&mut replies, after);
    replies
}

/// So many undone calls more.
fn push_undone(replies: &mut ArrayVec<Reply, 8>, many: usize)
    requires { length replies.old.items + many ≤ 8 }
    ensures { replies.new.items ≡ replies.old.items ++ replicate many is_undone }
{
    for _ in 0..many {
        replies.push(Reply::Undone);
    }
}

/// These writes more.
fn add_writes(kept: &mut ArrayVec<Write, 40>, writes: &[Write])
    requires { length kept.old.items + length writes.now ≤ 40 }
    ensures { kept.new.items ≡ kept.old.items ++ writes.now }
{
    for write in writes {
        kept.push(*write);
    }
}
