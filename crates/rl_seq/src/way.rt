//! The way of working under a sequence lock.
ghost use Rattle.std.specs.Prelude.{◌≡◌, refl, true};
ghost use Rattle.rl_model.specs.Geom.{GeomFits};
ghost use Rattle.rl_work.specs.Locked.{first_reads};
ghost use Rattle.rl_work.specs.Work.{CanDecide, CanTurn};
ghost use Rattle.rl_work.specs.Ways.{worked_with};
ghost use Rattle.rl_seq.specs.Place.{at_of};
ghost use Rattle.rl_seq.specs.SeqWork as model;
ghost use Rattle.rl_seq.specs.SeqCode.{CanNameAt, CanTurnAt};
ghost use Rattle.rl_seq.specs.SeqGood.{SeqGood};
ghost use Rattle.rl_seq.specs.laws.SeqLaws.{seq_laws};

use crate::side::SeqSide;
use crate::stage::SeqStage;
use rl_model::{Call, Entry, Geom};
use rl_site::{COUNT_WORD, Site, VOLUME_BASE};
use rl_step::Words;
use rl_word::{Atom, Mode, Shape};
use rl_work::{KeepsOwn, Work, WorkStep};
use std::alloc::{AllocError as OutOfMemory, Global};

/// The work under a sequence lock: a get alone reads without the lock, between two loads of the version, and any other block is
/// done inside the lock, where one of updates stores the version before and after its writes. Its one word is the version, which
/// lives on the shard's home.
#[derive(Drop)]
pub struct SeqWork {
    geom: Geom,
    shard: u32,
    rooms: Vec<u32>,
    behind: u32,
    home: u32,
}

// Whether the calls are a get alone.
fn is_get(calls: &[Call]) -> bool
    ensures { result ≡ first_reads calls.now }
{
    match calls.first() {
        Some(call) => call.reads(),
        None => false,
    }
}

impl SeqWork {
    /// The work of a shard by its site and its home, and the number of the first word behind the lock's.
    pub(crate) fn at(site: Site, behind: u32, home: u32) -> SeqWork
        ensures { result ≡ record { geom = site.geom; shard = site.shard; rooms = site.rooms; behind = behind; home = home } }
    {
        let Site { geom, shard, rooms } = site;
        SeqWork {
            geom,
            shard,
            rooms,
            behind,
            home,
        }
    }

    // The next atom of a side.
    #[inline(always)]
    fn atom(&self, side: &SeqSide) -> Option<Atom>
        requires fits { GeomFits self.now.geom }
        requires can { CanNameAt self.now.geom side.now.work side.now.stage }
        ensures { result ≡ model.seq_atom (at_of self.now) side.now }
    {
        match side.stage {
            SeqStage::Locked | SeqStage::Write { .. } => side.work.next(self.geom),
            SeqStage::Look | SeqStage::Again { .. } | SeqStage::Decided => {
                Some(Atom::Load { word: self.behind })
            }
            SeqStage::Count { .. } => Some(Atom::Load { word: COUNT_WORD }),
            SeqStage::Read { word, .. } => Some(Atom::Load {
                word: VOLUME_BASE + word,
            }),
            SeqStage::Open { version } => Some(Atom::Store {
                word: self.behind,
                value: version + 1,
            }),
            SeqStage::Close { version } => Some(Atom::Store {
                word: self.behind,
                value: version + 2,
            }),
        }
    }

    // Goes on behind it.
    #[inline(always)]
    fn turn(&self, rank: u32, side: &mut SeqSide, got: u64) -> WorkStep
        requires fits { GeomFits self.now.geom }
        requires can { CanTurnAt self.now.geom side.old.work got side.old.stage }
        ensures { worked_with side.new result ≡ model.seq_after (at_of self.now) rank side.old got }
    {
        match side.stage {
            SeqStage::Locked => self.loaded(rank, side, got),
            SeqStage::Look => self.looked(side, got),
            SeqStage::Count { version } => self.read_on(side, version, got as u32),
            SeqStage::Read {
                version,
                count,
                word,
            } => {
                side.work.see(word, got);
                self.read_on(side, version, count)
            }
            SeqStage::Again { version, count } => self.checked(rank, side, version, count, got),
            SeqStage::Decided => side.goes_to(SeqStage::Open { version: got }),
            SeqStage::Open { version } => side.goes_to(SeqStage::Write { version }),
            SeqStage::Write { version } => self.stored(rank, side, version, got),
            SeqStage::Close { .. } => side.is_over(),
        }
    }

    // After a load inside the lock the block is over, is decided, or reads on.
    #[inline(always)]
    fn loaded(&self, rank: u32, side: &mut SeqSide, got: u64) -> WorkStep
        requires fits { GeomFits self.now.geom }
        requires can { CanTurn self.now.geom side.old.work got side.old.work.stage }
        ensures { worked_with side.new result ≡ model.after_load (at_of self.now) rank side.old.work got }
    {
        let over = side.work.turn(self.geom, self.shard, rank, got);
        match (over, side.work.stores()) {
            (true, _) => side.is_over(),
            (false, true) => side.goes_to(SeqStage::Decided),
            (false, false) => side.goes_to(SeqStage::Locked),
        }
    }

    // After a store between the versions the count was stored, or the next store follows.
    #[inline(always)]
    fn stored(&self, rank: u32, side: &mut SeqSide, version: u64, got: u64) -> WorkStep
        requires fits { GeomFits self.now.geom }
        requires can { CanTurn self.now.geom side.old.work got side.old.work.stage }
        ensures { worked_with side.new result ≡ model.after_store (at_of self.now) rank side.old.work version got }
    {
        if side.work.turn(self.geom, self.shard, rank, got) {
            side.goes_to(SeqStage::Close { version })
        } else {
            side.goes_to(SeqStage::Write { version })
        }
    }

    // A get that found an even version goes on, and waits where it is odd.
    #[inline(always)]
    fn looked(&self, side: &mut SeqSide, got: u64) -> WorkStep
        ensures { worked_with side.new result ≡ model.looked_on (at_of self.now) side.old.work got }
    {
        if got % 2 == 0 {
            side.goes_to(SeqStage::Count { version: got })
        } else {
            side.waits(self.behind, got)
        }
    }

    // It reads the next word, or the version again.
    fn read_on(&self, side: &mut SeqSide, version: u64, count: u32) -> WorkStep
        requires { GeomFits self.now.geom }
        ensures { worked_with side.new result ≡ model.seq_read_on (at_of self.now) side.old.work version count }
    {
        match side.work.wanted(self.geom) {
            Some(word) => side.goes_to(SeqStage::Read {
                version,
                count,
                word,
            }),
            None => side.goes_to(SeqStage::Again { version, count }),
        }
    }

    // Where it found the version again it is done; else it begins anew.
    #[inline(always)]
    fn checked(&self, rank: u32, side: &mut SeqSide, version: u64, count: u32, got: u64) -> WorkStep
        requires fits { GeomFits self.now.geom }
        requires can { got ≡ version → CanDecide self.now.geom side.old.work count }
        ensures { worked_with side.new result ≡ model.checked_on (at_of self.now) rank side.old.work version count got }
    {
        if got == version {
            side.work.read_on(self.geom, self.shard, rank, count);
            side.is_over()
        } else {
            side.loses(version, got)
        }
    }
}

impl Work for SeqWork {
    type Side = SeqSide;

    ghost table = { λ w. model.seq_table (at_of w) w.home };

    ghost good = { λ w. SeqGood (at_of w) };

    ghost defined = { λ shape home site behind. model.seq_table (record { site = site; behind = behind }) home };

    ghost spares = { λ shares. true };

    ghost batches = { true };

    ghost does = { λ shape home site behind. (refl, refl) };

    ghost placed = { λ shape home site behind. (refl, refl) };

    fn make(
        _alloc: Global,
        _shape: &Shape,
        home: u32,
        site: Site,
        behind: u32,
    ) -> Result<SeqWork, OutOfMemory> {
        Ok(SeqWork::at(site, behind, home))
    }

    #[inline(always)]
    fn geom(&self) -> Geom {
        self.geom
    }

    #[inline(always)]
    fn shard(&self) -> u32 {
        self.shard
    }

    #[inline(always)]
    fn rooms(&self) -> &[u32] {
        self.rooms.as_slice()
    }

    fn words(&self) -> u32 {
        1
    }

    fn home(&self, _word: u32) -> u32 {
        self.home
    }

    fn first(&self, alloc: Global, _rank: u32, room: u32) -> Result<SeqSide, OutOfMemory> {
        SeqSide::new(alloc, self.geom, room)
    }

    fn open(&self, _rank: u32, side: &mut SeqSide, calls: &[Call], seq: u32) {
        side.work.open(calls, seq);
        side.stage = if is_get(calls) {
            SeqStage::Look
        } else {
            SeqStage::Locked
        };
    }

    fn asks(&self, calls: &[Call]) -> Option<Mode> {
        if is_get(calls) {
            None
        } else {
            Some(Mode::Write)
        }
    }

    #[inline(always)]
    fn next(&self, _rank: u32, side: &SeqSide) -> Option<Atom> {
        self.atom(side)
    }

    #[inline(always)]
    fn after(&self, rank: u32, side: &mut SeqSide, got: u64) -> WorkStep {
        self.turn(rank, side, got)
    }

    #[inline(always)]
    fn waits_on(&self, _rank: u32, side: &SeqSide, word: u32, got: u64) -> bool {
        matches!(side.stage, SeqStage::Look) && word == self.behind && got % 2 == 1
    }

    #[inline(always)]
    fn rests(&self, side: &SeqSide) -> bool {
        match side.stage {
            SeqStage::Locked => side.work.is_under_way(),
            _ => true,
        }
    }

    #[inline(always)]
    fn touch(&self, side: &SeqSide) -> Option<bool> {
        side.touch()
    }

    #[inline(always)]
    fn is_open(&self, side: &SeqSide) -> bool {
        side.is_open()
    }

    #[inline(always)]
    fn kept<'a>(&self, side: &'a SeqSide) -> &'a [Entry] {
        side.transcript()
    }

    fn into_kept(&self, side: SeqSide) -> Vec<Entry> {
        side.into_transcript()
    }

    fn transcript(
        &self,
        alloc: Global,
        _words: &Words,
        _journal: &[Entry],
        _rank: u32,
        side: &SeqSide,
    ) -> Result<Vec<Entry>, OutOfMemory> {
        Vec::from_slice(alloc, side.transcript())
    }

    ghost laws = { λ w. seq_laws (at_of w) w.home };
}

impl KeepsOwn for SeqWork {
    ghost keeps_own = { λ w words rank x. (refl, refl) };
}
