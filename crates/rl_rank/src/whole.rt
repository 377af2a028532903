//! A rank's whole machine over any lock and any way of working.

ghost use Rattle.std.specs.Prelude.{◌≡◌, ◌≢◌, ◌↔◌, ◌++◌, ◌+◌, ◌<◌, ◌≤◌, ℕ, [], false, None, Some, length, sum, IfOk, IfSome};
ghost use Rattle.rl_model.specs.Geom.{GeomFits};
ghost use Rattle.rl_word.specs.Shapes.{IsProper, layout_of};
ghost use Rattle.rl_step.specs.Core.{MayBe, atom_in, turned_with};
ghost use Rattle.rl_step.specs.Batches.{HandsOn};
ghost use Rattle.rl_work.specs.Ways.{AsksOut};
ghost use Rattle.rl_rank.specs.Domains.{CoreKeepsToCards, CoreKeepsToLocals};
ghost use Rattle.rl_rank.specs.Opening.{first_view, opened_in};
ghost use Rattle.rl_rank.specs.Running.{lock_at, tables, goods, kinds, HasLock};
ghost use Rattle.rl_rank.specs.Split.{card_of, card_word, word_home};
ghost use Rattle.rl_site.specs.Site.{site_of};
ghost use Rattle.rl_rank.specs.Whole.{whole_table, planned_in, next_of, is_at_work, is_open, rule_of, after_of, touch_by, departure_by, followed, CoreMayGet};
ghost use Rattle.rl_rank.specs.laws.OfCore.{core_laws};

use crate::card_state::CardState;
use crate::effect::Effect;
use crate::shift::{shift, shift_answer};
use crate::side::Side;
use crate::split::{answer, card_word, effect, next_atom};
use rl_model::{Call, Geom};
use rl_site::{ENTRY_WORDS, Site, journal_base};
use rl_step::{Algo, Core, Event, Events, Plan, Standing, Stepped};
use rl_word::{Act, Atom, Knobs, Shape};
use rl_work::{Follow, Work};
use std::alloc::{AllocError as OutOfMemory, Global};

/// What a rank knows between two of its atoms.
#[derive(Drop)]
pub struct WholeView<V: Copy, K: Drop> {
    /// The lock's side of it.
    pub side: Side<V>,
    /// The plan for which it took the card that it is in. It is kept so that the lock isn't asked anew for each atom of a card act, and is
    /// read only where the card state is `InCard` or `Loaded`.
    pub kept: Plan,
    /// The rank's number.
    pub rank: u32,
    /// Its side of the work of its calls, with its transcript.
    pub work: K,
}

/// A rank's machine for one shard: the lock, whose words stand in the window from `base` on, and the work of a block.
#[derive(Drop)]
pub struct Whole<A: Algo, W: Work> {
    /// The shard's lock.
    pub algo: A,
    /// How its blocks are done.
    pub work: W,
    /// The window's number of the lock's first word.
    pub base: u32,
    /// The node that the words before the lock's live on.
    pub home: u32,
}

/// Tells the touch of an atom of the work, if it is one. None was told before.
#[inline(always)]
fn tell_touch(rank: u32, touch: Option<bool>, events: &mut Events)
    requires { events.old.items ≡ [] }
    ensures { events.new.items ≡ touch_by rank touch }
{
    if let Some(write) = touch {
        events.push(Event::Touch { rank, write });
    }
}

/// Whether a rank that stands so, and is there in a split act, is in a call.
fn at_work(standing: Standing, card: CardState) -> bool
    ensures { result ≡ is_at_work standing card }
{
    match standing {
        Standing::Out => match card {
            CardState::Free => false,
            CardState::InCard | CardState::Loaded { .. } | CardState::ToLeave { .. } => true,
        },
        Standing::Asking | Standing::Writer | Standing::Reader | Standing::Leaving => true,
    }
}

impl<A: Algo, W: Work> Whole<A, W> {
    /// The home of a planned act's word, where the card state asks for it, and else 0.
    #[inline(always)]
    fn plan_home(&self, plan: Option<Act>, card: CardState) -> u32
        requires { (word : ℕ) → card_word plan card ≡ Some word → word < (A.table self.now.algo).size }
        ensures { result ≡ word_home (A.table self.now.algo) (card_word plan card) }
    {
        match card_word(plan, card) {
            Some(word) => self.algo.spot(word).home,
            None => 0,
        }
    }

    /// Changes the lock's view as an atom of the work wants it, and tells the holder's leave where the block is over.
    #[inline(always)]
    fn follow(&self, rank: u32, view: &mut A::View, follow: Follow, events: &mut Events)
        requires asks { AsksOut follow ((A.table self.now.algo).standing view.old) }
        requires room { length events.old.items ≤ 1 }
        ensures view { view.new ≡ followed (A.table self.now.algo) view.old follow }
        ensures told { events.new.items ≡ events.old.items ++ departure_by rank ((A.table self.now.algo).standing view.old) follow }
    {
        match follow {
            Follow::On => {}
            Follow::Ask(mode) => *view = self.algo.ask(*view, mode),
            Follow::Over => {
                let left = match self.algo.standing(*view) {
                    Standing::Writer => Event::LeaveW { rank },
                    Standing::Reader => Event::LeaveR { rank },
                    _ => return,
                };
                events.push(left);
                *view = self.algo.leave(*view);
            }
        }
    }

    /// The plan of a view in no card: the lock's act, and the home of its word where the act is made through a card.
    #[inline(always)]
    fn planned_free(&self, view: &WholeView<A::View, W::Side>) -> Plan
        requires may { MayBe (rule_of (tables A.table W.table) (goods A.good W.good) A.layout self.now) view.now }
        requires free { view.now.side.card ≡ CardState.Free }
        ensures { result ≡ planned_in (lock_at (tables A.table W.table) self.now).table view.now }
    {
        let act = self.algo.plan(view.side.view);
        let home = self.plan_home(act, CardState::Free);
        Plan { act, home }
    }
}

/// The ways to the next atom, one for each card state in which there is something to look at.
impl<A: Algo, W: Work> Whole<A, W> {
    /// In no card: the first atom of the act that the lock plans, and where it plans none, the work's. The lock isn't asked where the work
    /// says that it plans none.
    #[inline(always)]
    fn next_free(&self, view: &WholeView<A::View, W::Side>) -> Option<(Atom, Plan)>
        requires may { MayBe (rule_of (tables A.table W.table) (goods A.good W.good) A.layout self.now) view.now }
        requires free { view.now.side.card ≡ CardState.Free }
        ensures atom { atom_in result ≡ next_of (lock_at (tables A.table W.table) self.now) view.now }
        ensures plan { IfSome result (λ p. p.1 ≡ planned_in (lock_at (tables A.table W.table) self.now).table view.now) }
    {
        if !self.work.rests(&view.work) {
            let plan = self.planned_free(view);
            if let Some(atom) = next_atom(plan.home, plan.act, CardState::Free) {
                return Some((shift(self.base, atom), plan));
            }
            match self.algo.standing(view.side.view) {
                Standing::Out | Standing::Writer | Standing::Reader => (),
                Standing::Asking | Standing::Leaving => return None,
            }
        }
        let atom = self.work.next(view.rank, &view.work)?;
        Some((atom, Plan { act: None, home: 0 }))
    }

    /// In a card, with nothing loaded yet: the load of the act that it keeps.
    #[inline(always)]
    fn next_load(&self, view: &WholeView<A::View, W::Side>) -> Option<(Atom, Plan)>
        requires may { MayBe (rule_of (tables A.table W.table) (goods A.good W.good) A.layout self.now) view.now }
        requires within { view.now.side.card ≡ CardState.InCard }
        ensures atom { atom_in result ≡ next_of (lock_at (tables A.table W.table) self.now) view.now }
        ensures plan { IfSome result (λ p. p.1 ≡ planned_in (lock_at (tables A.table W.table) self.now).table view.now) }
    {
        let plan = view.kept;
        match next_atom(plan.home, plan.act, CardState::InCard) {
            Some(atom) => Some((shift(self.base, atom), plan)),
            None => None,
        }
    }

    /// In a card, with this value loaded: the store of the act that it keeps.
    #[inline(always)]
    fn next_store(&self, view: &WholeView<A::View, W::Side>, value: u64) -> Option<(Atom, Plan)>
        requires may { MayBe (rule_of (tables A.table W.table) (goods A.good W.good) A.layout self.now) view.now }
        requires within { view.now.side.card ≡ CardState.Loaded value }
        ensures atom { atom_in result ≡ next_of (lock_at (tables A.table W.table) self.now) view.now }
        ensures plan { IfSome result (λ p. p.1 ≡ planned_in (lock_at (tables A.table W.table) self.now).table view.now) }
    {
        let plan = view.kept;
        match next_atom(plan.home, plan.act, CardState::Loaded { value }) {
            Some(atom) => Some((shift(self.base, atom), plan)),
            None => None,
        }
    }
}

/// What an atom leaves, by where the rank stood.
impl<A: Algo, W: Work> Whole<A, W> {
    /// An atom of the work, in no card.
    #[inline(always)]
    fn after_work(
        &self,
        view: &mut WholeView<A::View, W::Side>,
        got: u64,
        events: &mut Events,
    ) -> Stepped
        requires may { CoreMayGet (tables A.table W.table) (goods A.good W.good) A.layout self.now view.old got }
        requires free { view.old.side.card ≡ CardState.Free }
        requires planned { (A.table self.now.algo).plan view.old.side.view ≡ None }
        requires none { events.old.items ≡ [] }
        ensures { turned_with view.new events.new.items result ≡ after_of (lock_at (tables A.table W.table) self.now) view.old got }
    {
        let rank = view.rank;
        let touch = self.work.touch(&view.work);
        let step = self.work.after(rank, &mut view.work, got);
        tell_touch(rank, touch, events);
        self.follow(rank, &mut view.side.view, step.follow, events);
        step.stepped
    }

    /// The first atom of an act, in no card.
    #[inline(always)]
    fn after_first(
        &self,
        view: &mut WholeView<A::View, W::Side>,
        plan: Plan,
        got: u64,
        events: &mut Events,
    ) -> Stepped
        requires may { CoreMayGet (tables A.table W.table) (goods A.good W.good) A.layout self.now view.old got }
        requires free { view.old.side.card ≡ CardState.Free }
        requires plan { plan ≡ planned_in (lock_at (tables A.table W.table) self.now).table view.old }
        requires act { plan.act ≢ None }
        requires none { events.old.items ≡ [] }
        ensures { turned_with view.new events.new.items result ≡ after_of (lock_at (tables A.table W.table) self.now) view.old got }
    {
        match effect(plan.home, plan.act, CardState::Free, got) {
            Effect::Work => Stepped::Moved,
            Effect::Stay {
                card: CardState::InCard,
                stepped,
            } => {
                view.kept = plan;
                view.side.card = CardState::InCard;
                stepped
            }
            Effect::Stay { stepped, .. } => stepped,
            Effect::Learn { told, lost, .. } => {
                let waits = self.algo.learn(&mut view.side.view, told, events);
                shift_answer(self.base, answer(plan.act, told, lost, waits))
            }
        }
    }

    /// In this card state, which isn't `Free`: an atom of an act that is made through a card, by the plan that the rank keeps. None of
    /// the work is made there.
    #[inline(always)]
    fn after_in_card(
        &self,
        view: &mut WholeView<A::View, W::Side>,
        here: CardState,
        got: u64,
        events: &mut Events,
    ) -> Stepped
        requires may { CoreMayGet (tables A.table W.table) (goods A.good W.good) A.layout self.now view.old got }
        requires here { view.old.side.card ≡ here }
        requires kept { view.old.kept ≡ planned_in (lock_at (tables A.table W.table) self.now).table view.old }
        requires within { here ≢ CardState.Free }
        requires none { events.old.items ≡ [] }
        ensures { turned_with view.new events.new.items result ≡ after_of (lock_at (tables A.table W.table) self.now) view.old got }
    {
        let home = view.kept.home;
        let act = view.kept.act;
        match effect(home, act, here, got) {
            Effect::Work => Stepped::Moved,
            Effect::Stay { card, stepped } => {
                view.side.card = card;
                stepped
            }
            Effect::Learn { card, told, lost } => {
                let waits = self.algo.learn(&mut view.side.view, told, events);
                view.side.card = card;
                shift_answer(self.base, answer(act, told, lost, waits))
            }
        }
    }

    /// Where the view's plan has no act: an atom of the work, or a Leave.
    #[inline(always)]
    fn after_none(
        &self,
        view: &mut WholeView<A::View, W::Side>,
        got: u64,
        events: &mut Events,
    ) -> Stepped
        requires may { CoreMayGet (tables A.table W.table) (goods A.good W.good) A.layout self.now view.old got }
        requires act { (planned_in (lock_at (tables A.table W.table) self.now).table view.old).act ≡ None }
        requires none { events.old.items ≡ [] }
        ensures { turned_with view.new events.new.items result ≡ after_of (lock_at (tables A.table W.table) self.now) view.old got }
    {
        match view.side.card {
            CardState::ToLeave { .. } => {
                view.side.card = CardState::Free;
                Stepped::Moved
            }
            _ => self.after_work(view, got, events),
        }
    }

    /// Where the view's plan has an act: an atom of it.
    #[inline(always)]
    fn after_act(
        &self,
        view: &mut WholeView<A::View, W::Side>,
        plan: Plan,
        got: u64,
        events: &mut Events,
    ) -> Stepped
        requires may { CoreMayGet (tables A.table W.table) (goods A.good W.good) A.layout self.now view.old got }
        requires plan { plan ≡ planned_in (lock_at (tables A.table W.table) self.now).table view.old }
        requires act { plan.act ≢ None }
        requires none { events.old.items ≡ [] }
        ensures { turned_with view.new events.new.items result ≡ after_of (lock_at (tables A.table W.table) self.now) view.old got }
    {
        match view.side.card {
            CardState::Free => self.after_first(view, plan, got, events),
            CardState::InCard => self.after_in_card(view, CardState::InCard, got, events),
            CardState::Loaded { value } => {
                self.after_in_card(view, CardState::Loaded { value }, got, events)
            }
            CardState::ToLeave { .. } => Stepped::Moved,
        }
    }
}

impl<A: Algo, W: Work> Core for Whole<A, W> {
    type View = WholeView<A::View, W::Side>;

    ghost table = { λ c. whole_table (lock_at (tables A.table W.table) c) c.home };

    ghost plan_of = { λ c. planned_in (lock_at (tables A.table W.table) c).table };

    ghost rule = { rule_of (tables A.table W.table) (goods A.good W.good) A.layout };

    #[inline(always)]
    fn next(&self, view: &WholeView<A::View, W::Side>) -> Option<(Atom, Plan)> {
        match view.side.card {
            CardState::Free => self.next_free(view),
            CardState::InCard => self.next_load(view),
            CardState::Loaded { value } => self.next_store(view, value),
            CardState::ToLeave { node } => {
                Some((Atom::Leave { node }, Plan { act: None, home: 0 }))
            }
        }
    }

    #[inline(always)]
    fn after(
        &self,
        view: &mut WholeView<A::View, W::Side>,
        plan: Plan,
        got: u64,
        events: &mut Events,
    ) -> Stepped {
        match plan.act {
            None => self.after_none(view, got, events),
            Some(_) => self.after_act(view, plan, got, events),
        }
    }

    fn home(&self, word: u32) -> u32 {
        if word < self.base {
            self.home
        } else if word - self.base < self.algo.words() {
            self.algo.spot(word - self.base).home
        } else {
            self.work.home(word - self.base - self.algo.words())
        }
    }

    ghost laws = { λ c. core_laws (tables A.table W.table) (goods A.good W.good) A.further A.layout A.laws W.laws c };
}

/// The places of a journal: one for each update of each rank.
fn places(rooms: &[u32]) -> u32
    requires few { sum rooms.now ≤ 20000 }
    ensures { result ≡ sum rooms.now }
{
    rooms.iter().sum()
}

impl<A: Algo, W: Work> Whole<A, W> {
    /// The machine of a shard whose home is this node of a proper shape, over the lock that the settings make. At most 20,000 updates may
    /// be made on it in all. Refused only for want of memory.
    pub fn new(
        alloc: Global,
        shape: &Shape,
        knobs: Knobs,
        home: u32,
        site: Site,
    ) -> Result<Whole<A, W>, OutOfMemory>
        requires proper { IsProper shape.now }
        requires knobs { A.suits_knobs shape.now knobs }
        requires home { home < shape.now.nodes }
        requires fits { GeomFits site.geom }
        requires few { sum site.rooms.items ≤ 20000 }
        requires ranks { length site.rooms.items ≡ length shape.now.node_of }
        ensures lock { IfOk result (HasLock (tables A.table W.table) (kinds A.defined W.defined shape.now home knobs) (site_of site)) }
        ensures promised { IfOk result (λ c. HandsOn (A.further c.algo) (A.promised shape.now home knobs)) }
        ensures layout { IfOk result (λ c. A.layout c.algo ≡ layout_of shape.now) }
        ensures home { IfOk result (λ c. c.home ≡ home) }
    {
        let algo = A::make(alloc, shape, home, knobs)?;
        let base = journal_base(site.geom) + ENTRY_WORDS * places(site.rooms.as_slice());
        let behind = base + algo.words();
        Ok(Whole {
            work: W::make(alloc, shape, home, site, behind)?,
            algo,
            base,
            home,
        })
    }

    /// A rank's view before its first call, with room for so many entries in its transcript. Refused only for want of memory.
    pub fn first_view(
        &self,
        alloc: Global,
        rank: u32,
        room: u32,
    ) -> Result<WholeView<A::View, W::Side>, OutOfMemory>
        requires fits { GeomFits (W.table self.now.work).site.geom }
        requires there { rank < length (A.layout self.now.algo).node_of }
        ensures { IfOk result (λ x. x ≡ first_view (lock_at (tables A.table W.table) self.now) room rank) }
    {
        Ok(WholeView {
            side: Side {
                view: self.algo.first(rank),
                card: CardState::Free,
            },
            kept: Plan { act: None, home: 0 },
            rank,
            work: self.work.first(alloc, rank, room)?,
        })
    }

    /// Whether a call of the view is open: it is until its last atom was made, a card's Leave among them.
    #[inline(always)]
    pub fn has_open(&self, view: &WholeView<A::View, W::Side>) -> bool
        requires { MayBe (rule_of (tables A.table W.table) (goods A.good W.good) A.layout self.now) view.now }
        ensures open { result ≡ is_open (lock_at (tables A.table W.table) self.now) view.now }
        ensures atoms { (result ≡ false) ↔ (next_of (lock_at (tables A.table W.table) self.now) view.now ≡ None) }
    {
        at_work(self.algo.standing(view.side.view), view.side.card) || self.work.is_open(&view.work)
    }

    /// Opens a block, where none is open: a call alone, or the calls of a batch. `seq` is the number of its first call. The
    /// lock is asked for in the mode that the work says, or not yet, where the work begins without it. Takes no memory. That the rule
    /// stays is promised only of a block that the rank may open (`MayOpen`).
    #[inline(always)]
    pub fn ask_for(&self, view: &mut WholeView<A::View, W::Side>, calls: &[Call], seq: u32)
        requires few { length calls.now ≤ 8 }
        requires closed { next_of (lock_at (tables A.table W.table) self.now) view.old ≡ None }
        requires possible { MayBe (rule_of (tables A.table W.table) (goods A.good W.good) A.layout self.now) view.old }
        ensures { view.new ≡ opened_in (lock_at (tables A.table W.table) self.now) calls.now seq view.old }
    {
        if let Some(mode) = self.work.asks(calls) {
            view.side.view = self.algo.ask(view.side.view, mode);
        }
        self.work.open(view.rank, &mut view.work, calls, seq);
    }
}

impl<A: Algo, W: Work> Whole<A, W> {
    /// The node of the card that a rank with this view is in.
    pub fn card_node(&self, view: &WholeView<A::View, W::Side>) -> Option<u32>
        requires { MayBe (rule_of (tables A.table W.table) (goods A.good W.good) A.layout self.now) view.now }
        ensures { result ≡ card_of (A.table self.now.algo) view.now.side }
    {
        match view.side.card {
            CardState::Free => None,
            CardState::ToLeave { node } => Some(node),
            CardState::InCard | CardState::Loaded { .. } => Some(view.kept.home),
        }
    }
}

/// Two domains: a rank's next atom is one of a card only where the lock lets the rank make acts through cards, and a local
/// compare-and-swap only where it lets the rank make one. There is nothing to run.
pub fn domains<A: Algo, W: Work>(core: &Whole<A, W>)
    ensures cards { CoreKeepsToCards (tables A.table W.table) (goods A.good W.good) A.layout core.now }
    ensures locals { CoreKeepsToLocals (tables A.table W.table) (goods A.good W.good) A.layout core.now }
{
    let _ = &core.algo;
}
