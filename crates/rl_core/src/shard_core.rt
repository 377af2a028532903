//! What a rank's machine on one shard is, as machines, shards, seats and callers use it.

ghost use Rattle.std.specs.Prelude.{◌≡◌, ◌≤◌, ◌<◌, ℕ, Bool, false, length, sum, List, Option, IfOk};
ghost use Rattle.rl_word.specs.declared.locks.LockName.{LockName as TheName};
ghost use Rattle.rl_word.specs.declared.shapes.Knobs.{Knobs as TheKnobs};
ghost use Rattle.rl_word.specs.Shapes.{TheShape, IsProper, layout_of};
ghost use Rattle.rl_model.specs.Geom.{GeomFits};
ghost use Rattle.rl_journal.specs.Blocks.{is_tenure};
ghost use Rattle.rl_step.specs.declared.events.Event.{Event as TheEvent};
ghost use Rattle.rl_step.specs.Core.{MayBe};
ghost use Rattle.rl_step.specs.Transitions.{Transition as TheTransition};
ghost use Rattle.rl_step.specs.Batches.{HandsOn};
ghost use Rattle.rl_step.specs.LockQueues.{queues_of, readers_share, cohorts_of};
ghost use Rattle.rl_site.specs.Site.{Site as TheSite, site_of};
ghost use Rattle.rl_core.specs.Desks.{desk_entries};
ghost use Rattle.rl_core.specs.ShardTables.{ShardTable, OfDefined, HasOwnDesks, journal_at};
ghost use Rattle.rl_core.specs.Moments.{Moment, CoreSays};
ghost use Rattle.rl_core.specs.ShardLaws.{LawsOf, IsLaidAtSite};

use rl_model::{Call, Entry, Geom};
use rl_site::Site;
use rl_step::{Core, Standing, Words};
use rl_word::{Knobs, LockName, Shape};
use std::alloc::{AllocError as OutOfMemory, Global};

/// A rank's machine on one shard that does blocks: all that machines, shards, seats and callers need of it.
///
/// A rank's view is what it knows between two of its atoms. A block is opened in it, and the core's atoms then do the block, until
/// none is left.
pub trait ShardCore: Core {
    /// What is said of a core: the machine as plain functions, which the methods compute and whose atoms are the core's; which moments are
    /// good; why an atom is answered as it is; what the lock says beyond the laws; and where the ranks sit.
    ghost says: { Self → CoreSays Self.View };

    /// The machine as it is defined: by a shape, the home of the shard, the settings, and the site.
    ghost defined: { TheShape → ℕ → TheKnobs → TheSite → ShardTable Self.View };

    /// What is promised beyond the laws, by the first three: of all events so far, and of all atoms, of each the lock's words before and after
    /// it and what it told. It speaks of no act.
    ghost promised: { TheShape → ℕ → TheKnobs → List TheEvent → List TheTransition → Type 0 };

    /// The lock's name.
    ghost name: { TheName };

    /// Whether a get alone is no tenure by a writer, by whether readers share the lock; and whether a block may be a batch.
    ghost spares: { Bool → Bool };

    ghost batches: { Bool };

    /// The settings that the lock reads are in their ranges, and the shape has what it needs.
    ghost suits_knobs: { TheShape → TheKnobs → Type 0 };

    /// The name of the lock on which it stands: by it others know what queues it has.
    fn lock_name() -> LockName
        ensures { result ≡ name };

    /// Makes the machine of a shard whose home is this node of a proper shape, over the lock that the settings make. At most 20,000 updates
    /// may be made on it in all. Refused only for want of memory.
    fn make(
        alloc: Global,
        shape: &Shape,
        knobs: Knobs,
        home: u32,
        site: Site,
    ) -> Result<Self, OutOfMemory>
        requires proper { IsProper shape.now }
        requires knobs { suits_knobs shape.now knobs }
        requires home { home < shape.now.nodes }
        requires fits { GeomFits site.geom }
        requires few { sum site.rooms.items ≤ 20000 }
        requires ranks { length site.rooms.items ≡ length shape.now.node_of }
        ensures defined { IfOk result (λ c. (says c).table ≡ defined shape.now home knobs (site_of site)) }
        ensures promised { IfOk result (λ c. HandsOn (says c).further (promised shape.now home knobs)) }
        ensures layout { IfOk result (λ c. (says c).layout ≡ layout_of shape.now) };

    /// The size of the table.
    fn geom(&self) -> Geom
        ensures { result ≡ (says self.now).table.site.geom };

    /// The shard's number.
    fn shard(&self) -> u32
        ensures { result ≡ (says self.now).table.site.shard };

    /// How many updates each rank may make on the shard.
    fn rooms(&self) -> &[u32]
        ensures { result.now ≡ (says self.now).table.site.rooms };

    /// How many words stand behind the journal.
    fn words(&self) -> u32
        ensures { result ≡ (says self.now).table.behind };

    /// A rank's view before its first block, with room for so many entries. Refused only for want of memory.
    fn first(&self, alloc: Global, rank: u32, room: u32) -> Result<Self::View, OutOfMemory>
        requires fits { GeomFits (says self.now).table.site.geom }
        requires there { rank < length (says self.now).layout.node_of }
        ensures { IfOk result (λ x. x ≡ (says self.now).table.first room rank) };

    /// Whether a block of the view is open: it is until its last atom was made.
    fn is_open(&self, view: &Self::View) -> bool
        requires { MayBe (Self.rule self.now) view.now }
        ensures { result ≡ ((says self.now).table.own view.now).is_open };

    /// Opens a block, where none is open: a call alone, or the calls of a batch. `seq` is the number of its first call. Takes no memory. The view is
    /// the opened one whatever the block; that what was good stays good is promised only of a block that the rank may open (`MayOpen`).
    fn open_block(&self, view: &mut Self::View, calls: &[Call], seq: u32)
        requires few { length calls.now ≤ 8 }
        requires closed { ((says self.now).table.own view.old).is_open ≡ false }
        requires possible { MayBe (Self.rule self.now) view.old }
        ensures { view.new ≡ (says self.now).table.opened calls.now seq view.old };

    /// The rank's entries on the shard, as its view has them, in the order in which they were done.
    fn entries<'a>(&self, view: &'a Self::View) -> &'a [Entry]
        ensures { result.now ≡ desk_entries ((says self.now).table.own view.now) };

    /// The same, taken out of the view.
    fn into_entries(&self, view: Self::View) -> Vec<Entry>
        ensures { result.items ≡ desk_entries ((says self.now).table.own view) };

    /// The rank's entries on the shard, by the words and by the journal that they have: those of its view, and those that are done by
    /// the words alone. Refused only for want of memory.
    fn transcript(
        &self,
        alloc: Global,
        words: &Words,
        journal: &[Entry],
        rank: u32,
        view: &Self::View,
    ) -> Result<Vec<Entry>, OutOfMemory>
        requires seen { (s : MayBe (Self.rule self.now) view.now) × ((s.held ≡ words.now) × (s.rank ≡ rank)) }
        requires journal { journal.now ≡ journal_at (says self.now).table words.now.words }
        ensures { IfOk result (λ t. t.items ≡ desk_entries ((says self.now).table.desk words.now.words rank view.now)) };

    /// How a rank with this view stands on the shard: at the lock, and asking while a block of it is open that isn't there.
    fn standing(&self, view: &Self::View) -> Standing
        ensures { result ≡ (says self.now).table.standing view.now };

    /// The node whose card a rank with this view is in.
    fn card(&self, view: &Self::View) -> Option<u32>
        requires { MayBe (Self.rule self.now) view.now }
        ensures { result ≡ (says self.now).table.card view.now };

    /// Its atoms are the core's.
    ghost same_table: { (c : Self) → (says c).table.core ≡ Self.table c };

    /// What is good meets the core's rule.
    ghost ruled: { (c : Self) (m : Moment Self.View) → (says c).good m → Self.rule c m.held m.views };

    /// The laws of a rank's machine on a shard.
    ghost shard_laws: { LawsOf says };

    /// As it is defined its words are laid out by the site.
    ghost laid: { (shape : TheShape) (home : ℕ) (knobs : TheKnobs) (site : TheSite) → IsLaidAtSite (defined shape home knobs site) site };

    /// Its queues are those of the lock of that name: so their members and budgets are the placement's, and not the lock's own word.
    ghost has_queues: { OfDefined defined (λ shape home knobs shard. shard.queues ≡ queues_of name shape home knobs) };

    /// And its cohorts are those of the lock of that name.
    ghost has_cohorts: { OfDefined defined (λ shape home knobs shard. shard.cohort ≡ cohorts_of name) };

    /// And the entries that stand for tenures by a writer are as it is said, by whether readers share the lock of that name.
    ghost has_tenures: { OfDefined defined (λ shape home knobs shard. shard.tenure ≡ is_tenure (spares (readers_share name))) };

    /// It does batches as it is said.
    ghost has_batches: { OfDefined defined (λ shape home knobs shard. shard.batches ≡ batches) };
}

/// A core whose views hold all entries of their ranks: none is to be found in the words alone.
pub trait TellsAll: ShardCore {
    /// The desk as the words tell it is the view's own.
    ghost tells_all: { (c : Self) → HasOwnDesks (Self.says c).table };
}
