//! A rank's machine over any lock and any way of working, as machines, shards, seats and callers use it.

ghost use Rattle.std.specs.Prelude.{◌≡◌, refl, ◌+◌};
ghost use Rattle.std.proofs.Common.{ap, ◌∙◌};
ghost use Rattle.rl_journal.specs.Blocks.{is_tenure};
ghost use Rattle.rl_site.specs.Site.{lock_base};
ghost use Rattle.rl_rank.specs.Running.{lock_at, tables, goods, lock_with, kinds};
ghost use Rattle.rl_rank.specs.laws.DeskLaws.{keeps_all};
ghost use Rattle.rl_rank.specs.SeenLoads.{with_lock};
ghost use Rattle.rl_rank.specs.WholeShards.{standing_while, whole_shard, core_says};
ghost use Rattle.rl_rank.specs.laws.OfCore.{core_shard_laws};
ghost use Rattle.rl_rank.specs.laws.WholeWall.{laid_with};

use crate::idle::waits;
use crate::round::seen_round;
use crate::whole::{Whole, WholeView};
use rl_core::{Resting, Round, ShardCore, TellsAll};
use rl_model::{Call, Entry, Geom};
use rl_site::Site;
use rl_step::{Algo, Standing, Stepped, Words};
use rl_word::{Knobs, LockName, Shape};
use rl_work::{KeepsOwn, Work};
use std::alloc::{AllocError as OutOfMemory, Global};

/// How a rank stands on the shard that is out of the lock: it is asking while its block is open.
#[inline(always)]
fn standing_out(busy: bool) -> Standing
    ensures { result ≡ standing_while Standing.Out busy }
{
    if busy {
        Standing::Asking
    } else {
        Standing::Out
    }
}

impl<A: Algo, W: Work> ShardCore for Whole<A, W> {
    ghost says = { λ c. core_says (tables A.table W.table) (goods A.good W.good) A.further A.layout c };

    ghost defined = { λ shape home knobs site. whole_shard (lock_with (kinds A.defined W.defined shape home knobs) site) home };

    ghost promised = { A.promised };

    ghost name = { A.name };

    ghost suits_knobs = { A.suits_knobs };

    ghost spares = { W.spares };

    ghost batches = { W.batches };

    #[inline(always)]
    fn lock_name() -> LockName {
        A::lock_name()
    }

    fn make(
        alloc: Global,
        shape: &Shape,
        knobs: Knobs,
        home: u32,
        site: Site,
    ) -> Result<Whole<A, W>, OutOfMemory> {
        Whole::new(alloc, shape, knobs, home, site)
    }

    #[inline(always)]
    fn geom(&self) -> Geom {
        self.work.geom()
    }

    #[inline(always)]
    fn shard(&self) -> u32 {
        self.work.shard()
    }

    #[inline(always)]
    fn rooms(&self) -> &[u32] {
        self.work.rooms()
    }

    fn words(&self) -> u32 {
        self.algo.words() + self.work.words()
    }

    fn first(
        &self,
        alloc: Global,
        rank: u32,
        room: u32,
    ) -> Result<WholeView<A::View, W::Side>, OutOfMemory> {
        self.first_view(alloc, rank, room)
    }

    #[inline(always)]
    fn is_open(&self, view: &WholeView<A::View, W::Side>) -> bool {
        self.has_open(view)
    }

    #[inline(always)]
    fn open_block(&self, view: &mut WholeView<A::View, W::Side>, calls: &[Call], seq: u32) {
        self.ask_for(view, calls, seq);
    }

    #[inline(always)]
    fn entries<'a>(&self, view: &'a WholeView<A::View, W::Side>) -> &'a [Entry] {
        self.work.kept(&view.work)
    }

    fn into_entries(&self, view: WholeView<A::View, W::Side>) -> Vec<Entry> {
        self.work.into_kept(view.work)
    }

    fn transcript(
        &self,
        alloc: Global,
        words: &Words,
        journal: &[Entry],
        rank: u32,
        view: &WholeView<A::View, W::Side>,
    ) -> Result<Vec<Entry>, OutOfMemory> {
        self.work
            .transcript(alloc, words, journal, rank, &view.work)
    }

    #[inline(always)]
    fn standing(&self, view: &WholeView<A::View, W::Side>) -> Standing {
        match self.algo.standing(view.side.view) {
            Standing::Out => standing_out(self.work.is_open(&view.work)),
            standing => standing,
        }
    }

    fn card(&self, view: &WholeView<A::View, W::Side>) -> Option<u32> {
        self.card_node(view)
    }

    ghost same_table = { λ c. refl };

    ghost ruled = { λ c m g. g.rule };

    ghost shard_laws = { λ c. core_shard_laws (tables A.table W.table) (goods A.good W.good) A.further A.layout A.laws W.laws c };

    ghost laid = { laid_with A.defined W.defined W.placed };

    ghost has_queues = { λ shape home knobs site. A.has_queues shape home knobs };

    ghost has_cohorts = { λ shape home knobs site. A.has_cohorts shape home knobs };

    ghost has_tenures = { λ shape home knobs site.
        ap (λ f. is_tenure (f (A.defined shape home knobs).shares))
        (W.does shape home site (lock_base site + (A.defined shape home knobs).size)).0
        ∙ ap (λ b. is_tenure (W.spares b)) (A.has_shares shape home knobs) };

    ghost has_batches = { λ shape home knobs site. (W.does shape home site (lock_base site + (A.defined shape home knobs).size)).1 };
}

impl<A: Algo, W: KeepsOwn> TellsAll for Whole<A, W> {
    ghost tells_all = { λ c words rank v.
        keeps_all (lock_at (tables A.table W.table) c) words rank v (W.keeps_own c.work words rank v.work) };
}

impl<A: Algo, W: Work> Resting for Whole<A, W> {
    type Sight = A::View;

    ghost with_sight = { λ x v. with_lock x v };

    #[inline(always)]
    fn waits(&self, view: &WholeView<A::View, W::Side>, words: &Words) -> Option<Stepped> {
        waits(self, view, words)
    }

    #[inline(always)]
    fn round(&self, view: &WholeView<A::View, W::Side>, words: &Words) -> Option<Round<A::View>> {
        seen_round(self, view, words)
    }

    #[inline(always)]
    fn set_sight(view: &mut WholeView<A::View, W::Side>, sight: A::View) {
        view.side.view = sight;
    }
}
