//! A seat at its window, as a port.

ghost use Rattle.std.specs.Prelude.{◌≡◌, ◌≢◌, ◌+◌, ℕ, [], Some, None, refl};
ghost use Rattle.std.proofs.Common.{sym, ◌∙◌};
ghost use Rattle.rl_window.specs.Seats.{IsSeatOf, IsKept};
ghost use Rattle.rl_window.specs.Ports.{IsFit, IsSamePort, IsMoved};

use crate::window::{WinSeat, Window};
use rl_step::{Core, Events, Plan, Port, Stepped};
use rl_word::Atom;

/// The port of one seat, on words that other seats change at any moment: it tells its view, and neither words nor cards.
///
/// `advance` of `rl_step` makes the next atom of the seat's rank through it: exactly one table step, or none where the rank
/// has no next atom.
#[derive(Drop)]
pub struct TablePort<'a, C: Core> {
    pub window: &'a Window<C>,
    pub seat: &'a mut WinSeat<C>,
}

impl<C: Core> Window<C> {
    /// The port of a seat.
    ///
    /// The seat is one of this window's, and its view the one after its last table step, changed at most in a way that keeps
    /// the core's rule. Neither this call nor an atom made through the port takes memory or waits.
    pub fn port<'a>(&'a self, seat: &'a mut WinSeat<C>) -> TablePort<'a, C>
        requires seat { IsSeatOf C.rule self.now seat.old }
        requires kept { IsKept C.rule self.now seat.old }
        ensures fits { IsFit C.rule result.window.now result.seat.now self.now.core }
        ensures window { result.window.now ≡ self.now }
        ensures same_reference { result.seat.ghost_name ≡ seat.entry.ghost_name }
        ensures seat { result.seat.now ≡ seat.old }
    {
        TablePort { window: self, seat }
    }
}

impl<'a, C: Core> Port<C> for TablePort<'a, C> {
    ghost use Rattle.rl_window.specs.laws.SeatLemmas.{port_known};

    ghost fits = { λ p c. IsFit C.rule p.window.now p.seat.now c };

    ghost there = { λ p. Unit {0} };

    ghost sees = { λ p v. v ≡ p.seat.now.view };

    ghost rank_of = { λ p. p.seat.now.rank };

    ghost told = { λ p. None };

    ghost frame = { λ p q. IsSamePort p.window p.seat q.window q.seat };

    ghost moved = { λ p c q. IsMoved p.window p.seat q.window q.seat };

    fn view(&self) -> &C::View {
        self.seat.view()
    }

    #[inline(always)]
    fn perform(&mut self, core: &C, atom: Atom, plan: Plan, events: &mut Events) -> Stepped {
        self.window.perform(self.seat, core, atom, plan, events)
    }

    ghost has_rank = { λ p c f. tt };

    ghost same_rank = { λ p q f. f.2 };

    ghost known = { λ p c v f s. port_known C.rule p.window.now p.seat.now c v f s };

    ghost seen = { λ p c f. (p.seat.now.view, refl) };

    ghost one = { λ p v w a b. a ∙ sym b };

    ghost still = { λ p. (refl, refl, refl) };
}
