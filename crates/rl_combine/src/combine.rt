//! Flat combining as a way of working.

ghost use Rattle.std.specs.Prelude.{◌≡◌, ◌<◌, ◌≤◌, ◌^◌, ◌+◌, ◌*◌, ◌==◌, length, slice_index, if◌then◌else◌, IfOk};
ghost use Rattle.rl_word.specs.declared.acts.Atom.TheVariants as atom;
ghost use Rattle.rl_combine.specs.declared.stage.CombineStage.TheVariants as stage;
ghost use Rattle.rl_site.specs.Site.{journal_base};
ghost use Rattle.rl_model.specs.Geom.{GeomFits};
ghost use Rattle.rl_combine.specs.Combine as model;
ghost use Rattle.rl_combine.specs.Numbers as fits;
ghost use Rattle.rl_combine.specs.Posts as posts;

use crate::posts::{
    ANSWER, CALL, CALL_WORDS, DONE, EMPTY, FLAG, POST_WORDS, POSTED, answer_value, answered_reply,
    post_value,
};
use crate::side::CombineSide;
use crate::stage::CombineStage;
use rl_journal::journal_value;
use rl_model::{Call, Entry, Geom};
use rl_site::{COUNT_WORD, ENTRY_WORDS, Site, VOLUME_BASE, journal_base};
use rl_step::{Stepped, Words};
use rl_volume::next_read;
use rl_word::{Atom, Mode, Shape};
use rl_work::{Work, WorkStep, write_atom};
use std::alloc::{AllocError as OutOfMemory, Global};
use std::marker::Model;

/// Flat combining: a rank posts its call in words of its own, and whoever has the lock does the posted calls of all ranks.
///
/// It does calls alone, no batches, and each asks for the lock to write. A rank waits for the lock, and never by its work: its flag is
/// looked at once.
#[derive(Drop)]
pub struct CombineWork {
    geom: Geom,
    shard: u32,
    rooms: Vec<u32>,
    behind: u32,
    nodes: Vec<u32>,
}

impl Model for CombineWork {
    ghost use Rattle.std.specs.Prelude.{◌≡◌, ◌≤◌, length};
    ghost use Rattle.rl_model.specs.Geom.{GeomFits};
    ghost use Rattle.rl_combine.specs.Posts as posts;

    ghost Value = { posts.TheCombineWork };

    ghost view = { λ w. posts.work_at (record { geom = w.geom; shard = w.shard; rooms = w.rooms.items }) w.behind w.nodes.items };

    ghost invariant = { λ w. GeomFits w.geom × (length w.rooms.items ≤ 32) × (length w.nodes.items ≡ length w.rooms.items) };
}

impl CombineWork {
    // How many ranks there are.
    fn ranks(&self) -> u32
        ensures is { result ≡ posts.combine_ranks self.now.here }
        ensures few { result ≤ 32 }
    {
        self.rooms.len() as u32
    }

    // A word of a rank's post.
    fn post_word(&self, rank: u32, word: u32) -> u32
        requires has { fits.HasPost self.now.here rank }
        requires few { word < 9 }
        ensures { result ≡ posts.post_word self.now.here rank word }
    {
        self.behind + (POST_WORDS * rank + word)
    }

    // The load of a word of a rank's post.
    fn load_post(&self, rank: u32, word: u32) -> Option<Atom>
        requires has { fits.HasPost self.now.here rank }
        requires few { word < 9 }
        ensures { result ≡ Some (atom.Load (posts.post_word self.now.here rank word)) }
    {
        let word = self.post_word(rank, word);
        Some(Atom::Load { word })
    }

    // The store of a word of a rank's post.
    fn store_post(&self, rank: u32, word: u32, value: u64) -> Option<Atom>
        requires has { fits.HasPost self.now.here rank }
        requires few { word < 9 }
        ensures { result ≡ Some (atom.Store (posts.post_word self.now.here rank word) value) }
    {
        let word = self.post_word(rank, word);
        Some(Atom::Store { word, value })
    }

    // The store of a word of the journal, for a call that is decided.
    #[inline(always)]
    fn store_journal(&self, side: &CombineSide, made: u32) -> Option<Atom>
        requires few { made < 6 }
        requires low { journal_base self.now.here.site.geom + (6 * side.now.count + made) < 2 ^ 32 }
        ensures { result ≡ model.journal_atom self.now.here side.now made }
    {
        Some(Atom::Store {
            word: journal_base(self.geom) + (ENTRY_WORDS * side.count + made),
            value: journal_value(&side.entry, made),
        })
    }

    // The next atom of a side whose numbers fit.
    #[inline(always)]
    fn atom(&self, rank: u32, side: &CombineSide) -> Option<Atom>
        requires { fits.CanName self.now.here rank side.now side.now.stage }
        ensures { result ≡ model.combine_atom self.now.here rank side.now }
    {
        match side.stage {
            CombineStage::Rest => None,
            CombineStage::Post { made } => {
                self.store_post(rank, CALL + made, post_value(side.call, side.seq, made))
            }
            CombineStage::Raise => self.store_post(rank, FLAG, POSTED),
            CombineStage::Look => self.load_post(rank, FLAG),
            CombineStage::Count => Some(Atom::Load { word: COUNT_WORD }),
            CombineStage::Sweep { owner } => self.load_post(owner, FLAG),
            CombineStage::Copy { owner, made } => self.load_post(owner, CALL + made),
            CombineStage::Read { word, .. } => Some(Atom::Load {
                word: VOLUME_BASE + word,
            }),
            CombineStage::Journal { made, .. } => self.store_journal(side, made),
            CombineStage::Volume { made, .. } => Some(write_atom(
                side.count_after(),
                side.write_at(made),
            )),
            CombineStage::Answer { owner, made } => {
                self.store_post(owner, ANSWER + made, answer_value(&side.entry, made))
            }
            CombineStage::Mark { owner } => self.store_post(owner, FLAG, DONE),
            CombineStage::Collect { made } => self.load_post(rank, ANSWER + made),
            CombineStage::Lower => self.store_post(rank, FLAG, EMPTY),
        }
    }

    // The sweep goes on with this rank, or is over.
    fn sweep_on(&self, side: &mut CombineSide, owner: u32)
        ensures { side.new ≡ (model.sweep_on self.now.here side.old owner).work }
    {
        if owner == self.ranks() {
            side.collect();
        } else {
            side.stage = CombineStage::Sweep { owner };
        }
    }

    // A rank's flag was loaded: its post is copied, or the sweep goes on.
    #[inline(always)]
    fn flag_on(&self, side: &mut CombineSide, owner: u32, got: u64)
        requires { owner < 32 }
        ensures { side.new ≡ (model.combine_stage_after self.now.here 0 side.old got (stage.Sweep owner)).work }
    {
        if got == POSTED {
            side.copy(owner);
        } else {
            self.sweep_on(side, owner + 1);
        }
    }

    // A word of a post was loaded.
    #[inline(always)]
    fn copy_on(&self, side: &mut CombineSide, owner: u32, made: u32, got: u64)
        requires few { made < 5 }
        requires so_far { length side.old.copied ≡ made }
        requires small { fits.EndsCopy side.old got made }
        ensures { side.new ≡ (model.combine_stage_after self.now.here 0 side.old got (stage.Copy owner made)).work }
    {
        side.add_copied(got);
        if made + 1 == CALL_WORDS {
            side.take_post(self.shard);
            self.read_on(side, owner);
        } else {
            side.stage = CombineStage::Copy {
                owner,
                made: made + 1,
            };
        }
    }

    // Having seen what it has, it reads the next word of the volume, or decides the posted call.
    fn read_on(&self, side: &mut CombineSide, owner: u32)
        ensures { side.new ≡ (model.combine_read_on self.now.here side.old owner).work }
    {
        side.seen.walk_on(side.posted);
        match next_read(self.geom, side.posted, &side.seen) {
            Some(word) => side.stage = CombineStage::Read { owner, word },
            None => side.decide(self.geom, self.shard, owner),
        }
    }

    // The entry of the open call, whose answer stands in the rank's post.
    fn answered(&self, words: &Words, rank: u32, side: &CombineSide) -> Entry
        requires has { fits.HasPost self.now.here rank }
        requires there { length words.now.words ≡ self.now.here.behind + 9 * posts.combine_ranks self.now.here }
        requires small { slice_index (posts.post_of self.now.here words.now.words rank).answer 0 < 2 ^ 32 }
        ensures { result ≡ model.entry_by self.now.here (posts.post_of self.now.here words.now.words rank) rank side.now }
    {
        let at = words.value(self.post_word(rank, ANSWER));
        let code = words.value(self.post_word(rank, ANSWER + 1));
        let value = words.value(self.post_word(rank, ANSWER + 2));
        Entry {
            shard: self.shard,
            rank,
            seq: side.seq,
            call: side.call,
            at: at as u32,
            reply: answered_reply(code, value),
            batch: 0,
            part: 0,
        }
    }

    // Goes on behind the next atom of a side, which gave a number that fits.
    #[inline(always)]
    fn turn(&self, rank: u32, side: &mut CombineSide, got: u64)
        requires { fits.CanTurn self.now.here rank side.old got side.old.stage }
        ensures { side.new ≡ (model.combine_after self.now.here rank side.old got).work }
    {
        match side.stage {
            CombineStage::Rest => {}
            CombineStage::Post { made } => side.stage = CombineStage::after_post(made),
            CombineStage::Raise => side.stage = CombineStage::Look,
            CombineStage::Look => side.look_on(got),
            CombineStage::Count => {
                side.count = got as u32;
                self.sweep_on(side, 0);
            }
            CombineStage::Sweep { owner } => self.flag_on(side, owner, got),
            CombineStage::Copy { owner, made } => self.copy_on(side, owner, made, got),
            CombineStage::Read { owner, word } => {
                side.seen.add(word, got);
                self.read_on(side, owner);
            }
            CombineStage::Journal { owner, made } => side.stage = CombineStage::after_journal(
                owner, made,
            ),
            CombineStage::Volume { owner, made } => side.write_on(owner, made),
            CombineStage::Answer { owner, made } => side.stage = CombineStage::after_answer(
                owner, made,
            ),
            CombineStage::Mark { owner } => self.sweep_on(side, owner + 1),
            CombineStage::Collect { made } => side.collect_on(made, got),
            CombineStage::Lower => side.finish(self.shard, rank),
        }
    }
}

impl Work for CombineWork {
    ghost use Rattle.std.specs.Prelude.{false, refl};
    ghost use Rattle.rl_combine.specs.Combine as model;
    ghost use Rattle.rl_combine.specs.CombineGood.{CombineGood};
    ghost use Rattle.rl_combine.specs.Posts as posts;
    ghost use Rattle.rl_combine.specs.laws.WayLaws.{combine_works};

    type Side = CombineSide;

    ghost table = { λ w. model.combine_of w };

    ghost good = { λ w. CombineGood w.here };

    ghost defined = { λ shape home site behind. model.combine_of (posts.work_at site behind shape.node_of) };

    ghost placed = { λ shape home site behind. (refl, refl) };

    ghost spares = { λ shares. false };

    ghost batches = { false };

    ghost does = { λ shape home site behind. (refl, refl) };

    fn make(
        _alloc: Global,
        shape: &Shape,
        _home: u32,
        site: Site,
        behind: u32,
    ) -> Result<CombineWork, OutOfMemory> {
        let Site { geom, shard, rooms } = site;
        Ok(CombineWork {
            geom,
            shard,
            rooms,
            behind,
            nodes: shape.node_of.clone()?,
        })
    }

    #[inline(always)]
    fn geom(&self) -> Geom {
        self.geom
    }

    #[inline(always)]
    fn shard(&self) -> u32 {
        self.shard
    }

    #[inline(always)]
    fn rooms(&self) -> &[u32] {
        self.rooms.as_slice()
    }

    fn words(&self) -> u32 {
        POST_WORDS * self.ranks()
    }

    fn home(&self, word: u32) -> u32 {
        let rank = (word / POST_WORDS) as usize;
        self.nodes.get(rank).copied().unwrap_or(0)
    }

    fn first(&self, alloc: Global, _rank: u32, room: u32) -> Result<CombineSide, OutOfMemory> {
        CombineSide::new(alloc, self.geom, room)
    }

    fn open(&self, _rank: u32, side: &mut CombineSide, calls: &[Call], seq: u32) {
        if let Some(call) = calls.first() {
            side.open(*call, seq);
        }
    }

    fn asks(&self, _calls: &[Call]) -> Option<Mode> {
        None
    }

    #[inline(always)]
    fn next(&self, rank: u32, side: &CombineSide) -> Option<Atom> {
        self.atom(rank, side)
    }

    #[inline(always)]
    fn after(&self, rank: u32, side: &mut CombineSide, got: u64) -> WorkStep {
        let follow = side.stage.follow();
        self.turn(rank, side, got);
        WorkStep {
            follow,
            stepped: Stepped::Moved,
        }
    }

    #[inline(always)]
    fn rests(&self, side: &CombineSide) -> bool {
        match side.stage {
            CombineStage::Rest | CombineStage::Look => false,
            _ => true,
        }
    }

    #[inline(always)]
    fn touch(&self, side: &CombineSide) -> Option<bool> {
        side.stage.touch()
    }

    #[inline(always)]
    fn is_open(&self, side: &CombineSide) -> bool {
        side.stage.is_open()
    }

    #[inline(always)]
    fn kept<'a>(&self, side: &'a CombineSide) -> &'a [Entry] {
        side.kept()
    }

    fn into_kept(&self, side: CombineSide) -> Vec<Entry> {
        side.into_kept()
    }

    fn transcript(
        &self,
        alloc: Global,
        words: &Words,
        journal: &[Entry],
        rank: u32,
        side: &CombineSide,
    ) -> Result<Vec<Entry>, OutOfMemory> {
        let mut entries = Vec::from_slice(alloc, side.kept())?;
        if !side.stage.is_open() {
            return Ok(entries);
        }
        if side.call.is_update() {
            for entry in journal {
                if entry.rank == rank && entry.seq == side.seq {
                    entries.push(*entry)?;
                }
            }
        } else if words.value(self.post_word(rank, FLAG)) == DONE {
            entries.push(self.answered(words, rank, side))?;
        }
        Ok(entries)
    }

    ghost laws = { λ w. combine_works w.here (posts.node_in w) };
}
