//! What a core is: a rank's whole machine, whose atoms are the smallest steps.

ghost use Rattle.std.specs.Prelude.{◌≡◌, ◌<◌, [], List, IfSome};
ghost use Rattle.rl_step.specs.declared.cores.Plan.{Plan as ThePlan};
ghost use Rattle.rl_step.specs.Do.{TheWindow};
ghost use Rattle.rl_step.specs.Core.{CoreTable, CoreLaws, MayBe, MayGet, atom_in, turned_with};

use crate::event_list::Events;
use crate::events::Stepped;
use rl_word::{Act, Atom};

/// What a core works out of a view to find its next atom: the act that the atom belongs to, if there is one, and the home of the act's
/// word, where that is asked for. `next` hands it on to `after`, which so needn't work it out again.
#[derive(Clone, Copy, PartialEq, Eq, Debug)]
pub struct Plan {
    pub act: Option<Act>,
    pub home: u32,
}

/// A rank's whole machine over one window of words and cards.
///
/// Its rule is a test of the words, the cards and the views of all ranks. In a state that meets it each atom that `next`
/// gives can be made, and keeps the rule.
pub trait Core: Drop {
    type View: Drop;

    /// The core as plain functions, which the methods compute.
    ghost table: { Self → CoreTable Self.View };

    /// The plan of a view.
    ghost plan_of: { Self → Self.View → ThePlan };

    /// The rule.
    ghost rule: { Self → TheWindow → List Self.View → Type 0 };

    /// The next atom of a rank, with the view's plan; none where the core has nothing to do.
    fn next(&self, view: &Self::View) -> Option<(Atom, Plan)>
        requires { MayBe (rule self.now) view.now }
        ensures atom { atom_in result ≡ (table self.now).next view.now }
        ensures plan { IfSome result (λ p. p.1 ≡ plan_of self.now view.now) };

    /// Changes the view, whose plan this is, as its next atom does, which gave `got`, and tells the answer. What happened with the atom
    /// is put into `events`, which is empty: at most 8 events, in the order of their kinds.
    fn after(&self, view: &mut Self::View, plan: Plan, got: u64, events: &mut Events) -> Stepped
        requires may { MayGet (table self.now) (rule self.now) view.old got }
        requires plan { plan ≡ plan_of self.now view.old }
        requires none { events.old.items ≡ [] }
        ensures { turned_with view.new events.new.items result ≡ (table self.now).after view.old got };

    /// The home of a word, one of the window's.
    fn home(&self, word: u32) -> u32
        requires { word < (table self.now).size }
        ensures { result ≡ (table self.now).home word };

    /// The laws of a core.
    ghost laws: { (c : Self) → CoreLaws (table c) (rule c) };
}
