//! Where a rank makes its atoms, and one atom of any machine on any port.

ghost use Rattle.std.specs.Prelude.{◌≡◌, ◌≢◌, ℕ, Option, Some, []};
ghost use Rattle.rl_step.specs.declared.events.Stepped.TheVariants.{Finished as finished};
ghost use Rattle.rl_step.specs.Do.{TheWindow};
ghost use Rattle.rl_step.specs.Core.{MayBe, PortMakes, PortMakesNext, PortFinishes};

use crate::cores::{Core, Plan};
use crate::event_list::Events;
use crate::events::Stepped;
use rl_word::Atom;

/// Where one rank makes its atoms: on plain words, or on words that threads share.
///
/// A port may tell its words and cards; one over shared words can't, since others change them at any moment.
pub trait Port<C: Core> {
    /// The core is the one of the port's words and views.
    ghost fits: { Self → C → Type 0 };

    /// The port's rank is there.
    ghost there: { Self → Type 0 };

    /// The view of the port's rank.
    ghost sees: { Self → C.View → Type 0 };

    /// The rank.
    ghost rank_of: { Self → ℕ };

    /// The words and cards, where the port tells them.
    ghost told: { Self → Option TheWindow };

    /// The two are one port at two times.
    ghost frame: { Self → Self → Type 0 };

    /// What making an atom changes of the port beside its view and its words.
    ghost moved: { Self → C → Self → Type 0 };

    /// The view of the port's rank.
    fn view(&self) -> &C::View
        requires { there self.now }
        ensures { sees self.now result.now };

    /// Makes the view's next atom, with the view's plan: the view becomes what `after` makes of it, and answer and events are those of
    /// `after`. The list of events is empty.
    fn perform(&mut self, core: &C, atom: Atom, plan: Plan, events: &mut Events) -> Stepped
        requires fits { fits self.old core.now }
        requires planned { (v : C.View) × sees self.old v × ((C.table core.now).next v ≡ Some atom) × (plan ≡ C.plan_of core.now v) }
        requires none { events.old.items ≡ [] }
        ensures fits { fits self.new core.now }
        ensures frame { frame self.old self.new }
        ensures moved { moved self.old core.now self.new }
        ensures made { PortMakes (C.table core.now) (C.rule core.now) sees rank_of told self.old self.new atom events.new.items result };

    /// In a port that fits a core the rank is there.
    ghost has_rank: { (p : Self) (c : C) → fits p c → there p };

    /// The rank stays.
    ghost same_rank: { (p q : Self) → frame p q → rank_of q ≡ rank_of p };

    /// The view of a port that fits a core is one that some state under the rule has.
    ghost known: { (p : Self) (c : C) (v : C.View) → fits p c → sees p v → MayBe (C.rule c) v };

    /// A port that fits a core has a view.
    ghost seen: { (p : Self) (c : C) → fits p c → (v : C.View) × sees p v };

    /// And one alone.
    ghost one: { (p : Self) (v w : C.View) → sees p v → sees p w → v ≡ w };

    /// A port is itself while no atom is made.
    ghost still: { (p : Self) → frame p p };
}

/// Makes one atom of the port's rank, if it has one to make.
///
/// The answer is Finished exactly where the rank has no next atom, and then nothing changes; otherwise it is that of the
/// one atom made, and what happened with the atom is put into `events`, which is empty. Takes no memory.
#[inline(always)]
pub fn advance<C: Core, P: Port<C>>(core: &C, port: &mut P, events: &mut Events) -> Stepped
    requires fits { P.fits port.old core.now }
    requires none { events.old.items ≡ [] }
    ensures fits { P.fits port.new core.now }
    ensures frame { P.frame port.old port.new }
    ensures finished { PortFinishes (C.table core.now) P.sees port.old port.new events.new.items result }
    ensures goes_on { (v : C.View) (at : _) → P.sees port.old v → (C.table core.now).next v ≡ Some at → result ≢ Stepped.Finished }
    ensures moved { (v : C.View) (at : _) → P.sees port.old v → (C.table core.now).next v ≡ Some at → P.moved port.old core.now port.new }
    ensures made { PortMakesNext (C.table core.now) (C.rule core.now) P.sees P.rank_of P.told port.old port.new events.new.items result }
{
    match core.next(port.view()) {
        None => Stepped::Finished,
        Some((atom, plan)) => port.perform(core, atom, plan, events),
    }
}
