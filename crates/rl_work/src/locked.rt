//! Each block under its lock.

ghost use Rattle.std.specs.Prelude.{◌≡◌, true, IfOk, refl};
ghost use Rattle.rl_work.specs.Locked.{locked_table, locked_good, mode_of};
ghost use Rattle.rl_work.specs.laws.LockedLaws.{locked_laws};

use crate::follow::{Follow, WorkStep};
use crate::way::{KeepsOwn, Work};
use crate::work::LockedSide;
use rl_model::{Call, Entry, Geom};
use rl_site::Site;
use rl_step::{Stepped, Words};
use rl_word::{Atom, Mode, Shape};
use std::alloc::{AllocError as OutOfMemory, Global};

/// Each block under its lock: the lock is asked for as the block is opened, in the block's mode, and left as its work is over. It has no
/// words of its own.
#[derive(Drop)]
pub struct LockedWork {
    geom: Geom,
    shard: u32,
    rooms: Vec<u32>,
    behind: u32,
}

/// The mode in which a block asks for the lock: to read for a get alone, and else to write.
fn mode(calls: &[Call]) -> Mode
    ensures { result ≡ mode_of calls.now }
{
    match calls.first() {
        Some(call) if call.reads() => Mode::Read,
        _ => Mode::Write,
    }
}

impl Work for LockedWork {
    type Side = LockedSide;

    ghost table = { λ w. locked_table (record { geom = w.geom; shard = w.shard; rooms = w.rooms.items }) w.behind };

    ghost good = { λ w. locked_good (record { geom = w.geom; shard = w.shard; rooms = w.rooms.items }) };

    ghost defined = { λ shape home site behind. locked_table site behind };

    ghost spares = { λ shares. shares };

    ghost batches = { true };

    ghost does = { λ shape home site behind. (refl, refl) };

    ghost placed = { λ shape home site behind. (refl, refl) };

    fn make(
        _alloc: Global,
        _shape: &Shape,
        _home: u32,
        site: Site,
        behind: u32,
    ) -> Result<LockedWork, OutOfMemory> {
        let Site { geom, shard, rooms } = site;
        Ok(LockedWork {
            geom,
            shard,
            rooms,
            behind,
        })
    }

    #[inline(always)]
    fn geom(&self) -> Geom {
        self.geom
    }

    #[inline(always)]
    fn shard(&self) -> u32 {
        self.shard
    }

    #[inline(always)]
    fn rooms(&self) -> &[u32] {
        self.rooms.as_slice()
    }

    fn words(&self) -> u32 {
        0
    }

    fn home(&self, _word: u32) -> u32 {
        0
    }

    fn first(&self, alloc: Global, _rank: u32, room: u32) -> Result<LockedSide, OutOfMemory> {
        LockedSide::new(alloc, self.geom, room)
    }

    fn open(&self, _rank: u32, side: &mut LockedSide, calls: &[Call], seq: u32) {
        side.open(calls, seq);
    }

    fn asks(&self, calls: &[Call]) -> Option<Mode> {
        Some(mode(calls))
    }

    #[inline(always)]
    fn next(&self, _rank: u32, side: &LockedSide) -> Option<Atom> {
        side.next(self.geom)
    }

    #[inline(always)]
    fn after(&self, rank: u32, side: &mut LockedSide, got: u64) -> WorkStep {
        let over = side.turn(self.geom, self.shard, rank, got);
        WorkStep {
            follow: if over { Follow::Over } else { Follow::On },
            stepped: Stepped::Moved,
        }
    }

    #[inline(always)]
    fn rests(&self, side: &LockedSide) -> bool {
        side.is_under_way()
    }

    #[inline(always)]
    fn touch(&self, side: &LockedSide) -> Option<bool> {
        Some(side.stores())
    }

    #[inline(always)]
    fn is_open(&self, side: &LockedSide) -> bool {
        side.is_open()
    }

    #[inline(always)]
    fn kept<'a>(&self, side: &'a LockedSide) -> &'a [Entry] {
        side.transcript()
    }

    fn into_kept(&self, side: LockedSide) -> Vec<Entry> {
        side.into_transcript()
    }

    fn transcript(
        &self,
        alloc: Global,
        _words: &Words,
        _journal: &[Entry],
        _rank: u32,
        side: &LockedSide,
    ) -> Result<Vec<Entry>, OutOfMemory> {
        Vec::from_slice(alloc, side.transcript())
    }

    ghost laws = { λ w. locked_laws (record { geom = w.geom; shard = w.shard; rooms = w.rooms.items }) w.behind };
}

impl KeepsOwn for LockedWork {
    ghost keeps_own = { λ w words rank x. (refl, refl) };
}
