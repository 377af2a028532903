//! A whole machine in plain memory: one window, and the views of all ranks.

ghost use Rattle.std.specs.Prelude.{◌≡◌, ◌<◌, length, slice_get, Some, [], refl};
ghost use Rattle.std.proofs.Common.{sym};
ghost use Rattle.rl_word.specs.laws.Places.{one_at, some_at, set_same_get};
ghost use Rattle.rl_step.specs.Core.{card_word_of};
ghost use Rattle.rl_step.specs.FlatAtoms.{IsSameFlatPort, FlatFinishes, FlatGoesOn, FlatWords, FlatViews, FlatAnswers};
ghost use Rattle.rl_step.specs.laws.CoreLemmas.{may_be};

use crate::cores::{Core, Plan};
use crate::event_list::Events;
use crate::events::Stepped;
use crate::port::{Port, advance};
use crate::words::Words;
use rl_word::Atom;

/// A window and the views of all ranks. The core stays with the caller, who lends it to `advance`.
#[derive(Drop)]
pub struct Flat<C: Core> {
    words: Words,
    views: Vec<C::View>,
}

/// The port of one rank. It tells its words.
#[derive(Drop)]
pub struct FlatPort<'a, C: Core> {
    pub flat: &'a mut Flat<C>,
    pub rank: u32,
}

impl<C: Core> Flat<C> {
    ghost use Rattle.std.specs.Borrow.{sem};
    ghost use Rattle.rl_step.specs.Flat.{lends_view};

    /// All words and views; rank n has view number n.
    pub fn new(words: Words, views: Vec<C::View>) -> Flat<C>
        ensures words { result.words ≡ words }
        ensures views { result.views.items ≡ views.items }
    {
        Flat { words, views }
    }

    /// The port of a rank, one of those that have a view.
    #[inline(always)]
    pub fn port(&mut self, rank: u32) -> FlatPort<'_, C>
        requires { rank < length self.old.views.items }
        ensures same_reference { result.flat.ghost_name ≡ self.entry.ghost_name }
        ensures flat { result.flat.now ≡ self.old }
        ensures rank { result.rank ≡ rank }
    {
        FlatPort { flat: self, rank }
    }

    /// Lends the view of a rank between atoms, to be changed.
    pub fn view_mut(&mut self, rank: u32) -> &mut C::View
        requires { rank < length self.old.views.items }
        ensures* writes_back { sem 𝓛 (lends_view C.row C.View.row self.entry rank result) }
        ensures value { slice_get self.old.views.items rank ≡ Some result.now }
    {
        &mut self.views[rank as usize]
    }

    /// Lends the view of a rank for reading.
    pub fn view(&self, rank: u32) -> &C::View
        requires { rank < length self.now.views.items }
        ensures { slice_get self.now.views.items rank ≡ Some result.now }
    {
        &self.views[rank as usize]
    }

    /// Lends the window.
    pub fn words(&self) -> &Words
        ensures { result.now ≡ self.now.words }
    {
        &self.words
    }
}

/// The word of a load or store through a card.
#[inline(always)]
fn card_word(atom: Atom) -> Option<u32>
    ensures { result ≡ card_word_of atom }
{
    match atom {
        Atom::CardLoad { word } | Atom::CardStore { word, .. } => Some(word),
        _ => None,
    }
}

impl<'a, C: Core> Port<C> for FlatPort<'a, C> {
    ghost fits = { λ p c. C.rule c p.flat.now.words p.flat.now.views.items × (p.rank < length p.flat.now.views.items) };

    ghost there = { λ p. p.rank < length p.flat.now.views.items };

    ghost sees = { λ p v. slice_get p.flat.now.views.items p.rank ≡ Some v };

    ghost rank_of = { λ p. p.rank };

    ghost told = { λ p. Some p.flat.now.words };

    ghost frame = { λ p q. IsSameFlatPort p.flat p.rank q.flat q.rank };

    ghost moved = { λ p c q. Unit {0} };

    fn view(&self) -> &C::View {
        &self.flat.views[self.rank as usize]
    }

    #[inline(always)]
    fn perform(&mut self, core: &C, atom: Atom, plan: Plan, events: &mut Events) -> Stepped {
        let home = match card_word(atom) {
            Some(word) => core.home(word),
            None => 0,
        };
        let got = self.flat.words.apply(home, self.rank, atom);
        let view = &mut self.flat.views[self.rank as usize];
        core.after(view, plan, got, events)
    }

    ghost has_rank = { λ p c f. f.1 };

    ghost same_rank = { λ p q f. f.1 };

    ghost known = { λ p c v f s. may_be (C.rule c) p.flat.now.words p.flat.now.views.items p.rank v f.0 s };

    ghost seen = { λ p c f. some_at p.flat.now.views.items p.rank f.1 };

    ghost one = { λ p v w a b. one_at p.flat.now.views.items p.rank v w a b };

    ghost still = { λ p. (refl, refl, λ w s. sym (set_same_get p.flat.now.views.items p.rank w s)) };
}

/// Makes one atom of a rank of a flat machine, if it has one to make: `advance` on the rank's port.
///
/// The answer is Finished exactly where the rank has no next atom, and then nothing changes. Otherwise the window is as
/// the atom leaves it, the rank's view, the answer and the events are those of the core, and the other views stay. The
/// list of events is empty before.
#[inline(always)]
pub fn advance_flat<C: Core>(
    core: &C,
    flat: &mut Flat<C>,
    rank: u32,
    events: &mut Events,
) -> Stepped
    requires ruled { C.rule core.now flat.old.words flat.old.views.items }
    requires there { rank < length flat.old.views.items }
    requires none { events.old.items ≡ [] }
    ensures ruled { C.rule core.now flat.new.words flat.new.views.items }
    ensures there { rank < length flat.new.views.items }
    ensures finished { FlatFinishes (C.table core.now) flat.old rank flat.new events.new.items result }
    ensures goes_on { FlatGoesOn (C.table core.now) flat.old rank result }
    ensures words { FlatWords (C.table core.now) flat.old rank flat.new }
    ensures views { FlatViews (C.table core.now) flat.old rank flat.new }
    ensures answer { FlatAnswers (C.table core.now) flat.old rank events.new.items result }
{
    let mut port = FlatPort { flat, rank };
    advance(core, &mut port, events)
}
