//! What a way of working is: how a rank does its blocks on one shard, in the words beside the lock's.

ghost use Rattle.std.specs.Prelude.{◌≡◌, ◌+◌, ◌<◌, ◌≤◌, ◌^◌, ℕ, Bool, List, true, false, length, sum, IfOk};
ghost use Rattle.rl_model.specs.Geom.{GeomFits};
ghost use Rattle.rl_word.specs.Shapes.{TheShape, IsProper};
ghost use Rattle.rl_site.specs.Site.{Site as TheSite, site_of, journal_by};
ghost use Rattle.rl_work.specs.Ways.{WorkTable, WorkSide, WorkLaws, DoesAsSaid, IsPlacedAsSaid, KeepsAllItself, MayWork, MayTurn, RestsBy, WaitsOn, worked_with};

use crate::follow::WorkStep;
use rl_model::{Call, Entry, Geom};
use rl_site::Site;
use rl_step::Words;
use rl_word::{Atom, Mode, Shape};
use std::alloc::{AllocError as OutOfMemory, Global};

/// How the blocks of one shard are done, over whatever lock stands between the journal and the work's own words.
///
/// A rank keeps a side of it: it opens a block, makes the atoms that its side names where the lock plans nothing, and goes on by what each gave.
pub trait Work: Sized + Drop {
    type Side: Drop;

    /// The way of working as plain functions, which the methods compute.
    ghost table: { Self → WorkTable Self.Side };

    /// The rule of all words of the window and of the ranks' sides.
    ghost good: { Self → List ℕ → List (WorkSide Self.Side) → Type 0 };

    /// The way of working as it is defined: by a shape, the home of the shard, its site, and the number of the first word behind the
    /// lock's.
    ghost defined: { TheShape → ℕ → TheSite → ℕ → WorkTable Self.Side };

    /// Whether gets are no tenures of the lock by a writer, where readers share the lock and where they don't.
    ghost spares: { Bool → Bool };

    /// Whether a block may be a batch.
    ghost batches: { Bool };

    /// As it is defined it does so.
    ghost does: { DoesAsSaid defined spares batches };

    /// It keeps the site and the place for which it is made.
    ghost placed: { IsPlacedAsSaid defined };

    /// Makes the work of a shard whose home is this node of a proper shape, and on which at most 20,000 updates may be made in all. `behind`
    /// is the number of the first word behind the lock's.
    fn make(
        alloc: Global,
        shape: &Shape,
        home: u32,
        site: Site,
        behind: u32,
    ) -> Result<Self, OutOfMemory>
        requires proper { IsProper shape.now }
        requires home { home < shape.now.nodes }
        requires fits { GeomFits site.geom }
        requires few { sum site.rooms.items ≤ 20000 }
        requires ranks { length site.rooms.items ≡ length shape.now.node_of }
        ensures { IfOk result (λ w. table w ≡ defined shape.now home (site_of site) behind) };

    /// The size of the table.
    fn geom(&self) -> Geom
        ensures { result ≡ (table self.now).site.geom };

    /// The shard's number.
    fn shard(&self) -> u32
        ensures { result ≡ (table self.now).site.shard };

    /// How many updates each rank may make on the shard.
    fn rooms(&self) -> &[u32]
        ensures { result.now ≡ (table self.now).site.rooms };

    /// How many words of its own it has, behind the lock's.
    fn words(&self) -> u32
        ensures is { result ≡ (table self.now).size }
        ensures few { result ≤ 65536 };

    /// The home of one of its own words, by its number among them.
    fn home(&self, word: u32) -> u32
        ensures { result ≡ (table self.now).home word };

    /// A rank's side before its first block, with room for so many entries. Refused only for want of memory.
    fn first(&self, alloc: Global, rank: u32, room: u32) -> Result<Self::Side, OutOfMemory>
        requires { GeomFits (table self.now).site.geom }
        ensures { IfOk result (λ x. x ≡ (table self.now).first rank room) };

    /// Opens a block: a call alone, or the calls of a batch. The first has this number among its rank's calls. Takes no memory.
    fn open(&self, rank: u32, side: &mut Self::Side, calls: &[Call], seq: u32)
        requires { length calls.now ≤ 8 }
        ensures { side.new ≡ (table self.now).opens rank side.old calls.now seq };

    /// The mode in which the lock is asked for with the opening of a block; None where the work begins without it.
    fn asks(&self, calls: &[Call]) -> Option<Mode>
        ensures { result ≡ (table self.now).asks calls.now };

    /// The next atom of a rank for which the lock plans nothing.
    fn next(&self, rank: u32, side: &Self::Side) -> Option<Atom>
        requires { MayWork (table self.now) (good self.now) rank side.now }
        ensures { result ≡ (table self.now).next rank side.now };

    /// Goes on behind that atom, which gave `got`. Takes no memory.
    fn after(&self, rank: u32, side: &mut Self::Side, got: u64) -> WorkStep
        requires { MayTurn (table self.now) (good self.now) rank side.old got }
        ensures { worked_with side.new result ≡ (table self.now).after rank side.old got };

    /// Whether it is seen that the rank waits on by that atom, a load of this word that gives `got`: so its steps are counted at once while
    /// the word has this value. `false` says nothing of it.
    fn waits_on(&self, _rank: u32, _side: &Self::Side, _word: u32, _got: u64) -> bool
        requires { MayTurn (table self.now) (good self.now) _rank _side.now _got }
        ensures { result ≡ true → WaitsOn (table self.now) _rank _side.now _word _got }
    {
        false
    }

    /// Whether it is seen that the rank is out or has the lock, so that the lock plans nothing for it. `false` says nothing of it.
    fn rests(&self, _side: &Self::Side) -> bool
        ensures { result ≡ true → RestsBy (table self.now) (good self.now) _side.now }
    {
        false
    }

    /// Whether that atom is a Touch, and if so whether it writes.
    fn touch(&self, side: &Self::Side) -> Option<bool>
        ensures { result ≡ (table self.now).touch side.now };

    /// Whether a block is open, as far as the work goes.
    fn is_open(&self, side: &Self::Side) -> bool
        ensures { result ≡ (table self.now).is_open side.now };

    /// The entries that the rank keeps itself, in the order in which they were done.
    fn kept<'a>(&self, side: &'a Self::Side) -> &'a [Entry]
        ensures { result.now ≡ ((table self.now).kept side.now).items };

    /// The same, where the side is done with.
    fn into_kept(&self, side: Self::Side) -> Vec<Entry>
        ensures { result.items ≡ ((table self.now).kept side).items };

    /// A rank's entries by the words and by the journal that they have: those that it keeps, and those of its open block that are done
    /// and not kept yet. Refused only for want of memory.
    fn transcript(
        &self,
        alloc: Global,
        words: &Words,
        journal: &[Entry],
        rank: u32,
        side: &Self::Side,
    ) -> Result<Vec<Entry>, OutOfMemory>
        requires seen { (m : MayWork (table self.now) (good self.now) rank side.now) × (m.words ≡ words.now.words) }
        requires journal { journal.now ≡ journal_by (table self.now).site words.now.words }
        ensures { IfOk result (λ t. t.items ≡ (table self.now).transcript words.now.words rank side.now) };

    /// The laws of a way of working.
    ghost laws: { (w : Self) → WorkLaws (table w) (good w) };
}

/// A way of working under which each rank keeps all its entries itself.
pub trait KeepsOwn: Work {
    /// By whatever words, its transcript is what it keeps, and it owes what its side says.
    ghost keeps_own: { (w : Self) → KeepsAllItself (Self.table w) };
}
