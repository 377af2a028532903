//! What a rank knows of its call, and of the posted call that it does.

ghost use Rattle.std.specs.Prelude.{◌≡◌, ◌<◌, ◌≤◌, ◌^◌, ◌+◌, ◌∷◌, ◌++◌, ◌==◌, length, slice_get, slice_index, if◌then◌else◌, IfOk, IfSome};
ghost use Rattle.std.specs.List.{All};
ghost use Rattle.rl_model.specs.Geom.{GeomFits};
ghost use Rattle.rl_combine.specs.declared.stage.CombineStage.TheVariants as stage;
ghost use Rattle.rl_combine.specs.Combine as model;
ghost use Rattle.rl_site.specs.Site.{WaySite};

use crate::posts::{ANSWER_WORDS, DONE, answered_reply, posted_call};
use crate::stage::CombineStage;
use arrayvec::ArrayVec;
use rl_model::{Call, Entry, Geom, Reply};
use rl_site::Transcript;
use rl_volume::{Seen, Write, decide};
use std::alloc::{AllocError as OutOfMemory, Global};
use std::marker::Model;

/// A rank's side of the work: its open call, the posted call that it does while it has the lock, and its entries so far.
///
/// It is made once, with room for all that it keeps, and takes no memory after that.
#[derive(Drop)]
pub struct CombineSide {
    pub(crate) stage: CombineStage,
    // The open call, and its number.
    pub(crate) call: Call,
    pub(crate) seq: u32,
    // The count, as it is while the rank sweeps.
    pub(crate) count: u32,
    // The words of a post that it has copied.
    pub(crate) copied: ArrayVec<u64, 5>,
    // The posted call that it does, and its number; what it has seen of the volume for it.
    pub(crate) posted: Call,
    pub(crate) posted_number: u32,
    pub(crate) seen: Seen,
    // Once that is decided: its entry, and the writes.
    pub(crate) entry: Entry,
    pub(crate) writes: ArrayVec<Write, 5>,
    // Its own entries that it has collected.
    pub(crate) kept: Transcript,
}

impl Model for CombineSide {
    ghost use Rattle.rl_combine.specs.Combine as model;

    ghost Value = { model.TheCombineSide };

    ghost view = { λ s.
        record {
          stage = s.stage;
          call = s.call;
          seq = s.seq;
          count = s.count;
          copied = s.copied.items;
          posted = s.posted;
          posted_number = s.posted_number;
          seen = s.seen;
          entry = s.entry;
          writes = s.writes.items;
          kept = s.kept;
        } };
}

impl CombineSide {
    /// No call yet, and room for so many entries.
    ///
    /// # Errors
    ///
    /// Want of memory.
    pub fn new(alloc: Global, geom: Geom, room: u32) -> Result<CombineSide, OutOfMemory>
        requires { GeomFits geom }
        ensures { IfOk result (λ s. s ≡ model.first_combine geom room) }
    {
        let hold = Call::Hold { shard: 0 };
        Ok(CombineSide {
            stage: CombineStage::Rest,
            call: hold,
            seq: 0,
            count: 0,
            copied: ArrayVec::new(),
            posted: hold,
            posted_number: 0,
            seen: Seen::new(alloc, geom)?,
            entry: Entry {
                shard: 0,
                rank: 0,
                seq: 0,
                call: hold,
                at: 0,
                reply: Reply::Held,
                batch: 0,
                part: 0,
            },
            writes: ArrayVec::new(),
            kept: Transcript::new(alloc, room)?,
        })
    }

    /// Opens a call, which has this number among its rank's calls: it is posted next.
    pub fn open(&mut self, call: Call, seq: u32)
        ensures { self.new ≡ model.with_open self.old call seq }
    {
        self.stage = CombineStage::Post { made: 0 };
        self.call = call;
        self.seq = seq;
    }

    /// The entries that it has collected.
    pub fn kept(&self) -> &[Entry]
        ensures { result.now ≡ self.now.kept.items }
    {
        self.kept.as_slice()
    }

    /// The same, where the side is done with.
    pub fn into_kept(self) -> Vec<Entry>
        ensures { result.items ≡ self.kept.items }
    {
        self.kept.into_entries()
    }

    /// The count after the update in hand.
    pub(crate) fn count_after(&self) -> u32
        requires { self.now.count + 1 < 2 ^ 32 }
        ensures { result ≡ self.now.count + 1 }
    {
        self.count + 1
    }

    /// The write with this number, if there are so many.
    pub(crate) fn write_at(&self, made: u32) -> Option<Write>
        requires few { made ≤ length self.now.writes }
        requires inside { All (λ w. w.word < 2 ^ 31) self.now.writes }
        ensures is { result ≡ slice_get self.now.writes made }
        ensures inside { IfSome result (λ w. w.word < 2 ^ 31) }
    {
        if (made as usize) < self.writes.len() {
            Some(self.writes[made as usize])
        } else {
            None
        }
    }

    /// The own answer is collected next.
    pub(crate) fn collect(&mut self)
        ensures { self.new ≡ (model.to_collect self.old).work }
    {
        self.copied.clear();
        self.stage = CombineStage::Collect { made: 0 };
    }

    /// The own flag was loaded: the own call is done, or the sweep begins.
    #[inline(always)]
    pub(crate) fn look_on(&mut self, got: u64)
        ensures { self.new ≡ (if got == 2 then model.to_collect self.old else model.combine_to_stage self.old stage.Count).work }
    {
        if got == DONE {
            self.collect();
        } else {
            self.stage = CombineStage::Count;
        }
    }

    /// A word of the own answer was loaded.
    #[inline(always)]
    pub(crate) fn collect_on(&mut self, made: u32, got: u64)
        requires few { made < 3 }
        requires so_far { length self.old.copied ≡ made }
        ensures { self.new ≡ (model.collect_on self.old got made).work }
    {
        self.add_copied(got);
        self.stage = if made + 1 == ANSWER_WORDS {
            CombineStage::Lower
        } else {
            CombineStage::Collect { made: made + 1 }
        };
    }

    /// A flag was found 1: the post is copied next.
    pub(crate) fn copy(&mut self, owner: u32)
        ensures { self.new ≡ (model.combine_to_stage (model.with_nothing self.old) (stage.Copy owner 0)).work }
    {
        self.copied.clear();
        self.stage = CombineStage::Copy { owner, made: 0 };
    }

    /// One word more of a post is copied.
    pub(crate) fn add_copied(&mut self, got: u64)
        requires { length self.old.copied < 5 }
        ensures { self.new ≡ model.with_copied self.old got }
    {
        self.copied.push(got);
    }

    /// The posted call whose words were copied is in hand.
    #[inline(always)]
    pub(crate) fn take_post(&mut self, shard: u32)
        requires whole { length self.old.copied ≡ 5 }
        requires small { slice_index self.old.copied 4 < 2 ^ 32 }
        ensures { self.new ≡ model.with_post shard self.old }
    {
        self.posted = posted_call(shard, self.copied.as_slice());
        self.posted_number = self.copied[4] as u32;
        self.seen.clear();
    }

    /// The posted call is decided.
    pub(crate) fn decide(&mut self, geom: Geom, shard: u32, owner: u32)
        requires { GeomFits geom }
        ensures { (S : WaySite) → S.site.geom ≡ geom → S.site.shard ≡ shard → self.new ≡ (model.decided_on S self.old owner).work }
    {
        let (writes, reply) = decide(geom, self.posted, &self.seen);
        self.entry = Entry {
            shard,
            rank: owner,
            seq: self.posted_number,
            call: self.posted,
            at: self.count,
            reply,
            batch: 0,
            part: 0,
        };
        self.writes = writes;
        self.stage = if self.posted.is_update() {
            CombineStage::Journal { owner, made: 0 }
        } else {
            CombineStage::Answer { owner, made: 0 }
        };
    }

    /// After a write the next one follows; the store of the count makes the count one more.
    #[inline(always)]
    pub(crate) fn write_on(&mut self, owner: u32, made: u32)
        requires few { made ≤ length self.old.writes }
        requires fits { self.old.count + 1 < 2 ^ 32 }
        ensures { self.new ≡ (model.combine_written_on self.old owner made (slice_get self.old.writes made)).work }
    {
        if (made as usize) < self.writes.len() {
            self.stage = CombineStage::Volume {
                owner,
                made: made + 1,
            };
        } else {
            self.count += 1;
            self.stage = CombineStage::Answer { owner, made: 0 };
        }
    }

    /// The own entry, by the answer that was copied, joins those that are kept.
    pub(crate) fn finish(&mut self, shard: u32, rank: u32)
        requires whole { length self.old.copied ≡ 3 }
        requires small { slice_index self.old.copied 0 < 2 ^ 32 }
        requires room { length self.old.kept.items < self.old.kept.room }
        ensures { (S : WaySite) → S.site.shard ≡ shard → self.new ≡ model.with_own S rank self.old }
    {
        let entry = Entry {
            shard,
            rank,
            seq: self.seq,
            call: self.call,
            at: self.copied[0] as u32,
            reply: answered_reply(self.copied[1], self.copied[2]),
            batch: 0,
            part: 0,
        };
        self.stage = CombineStage::Rest;
        self.kept.add_all(&[entry]);
    }
}
