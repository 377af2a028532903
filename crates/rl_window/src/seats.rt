//! What a rank does by its seat.

ghost use Rattle.std.specs.Prelude.{◌≡◌, ◌+◌, ℕ, [], Some};
ghost use Rattle.std.specs.Borrow.{Lends, sem};
ghost use Rattle.rl_window.specs.contracts.window.WinSeat.{the_row};
ghost use Rattle.rl_window.specs.Seats.{with_view, seat_rank, SeatPerforms, IsSeatOf, IsKept, last_view, table_steps};

use crate::window::{WinSeat, Window};
use rl_step::{Core, Events, Plan, Stepped};
use rl_word::Atom;

impl<C: Core> WinSeat<C> {
    /// The number of the seat's rank.
    pub fn rank(&self) -> u32
        ensures { result ≡ seat_rank self.now }
    {
        self.rank
    }

    /// Lends the rank's view for reading.
    pub fn view(&self) -> &C::View
        ensures { result.now ≡ self.now.view }
    {
        &self.view
    }

    /// Lends the rank's view between two atoms, to be changed.
    ///
    /// It asks for nothing. Whoever acts with the seat next has to show that the change keeps the core's rule.
    pub fn view_mut(&mut self) -> &mut C::View
        ensures* writes_back { sem 𝓛 (Lends (the_row C.row C.View.row) C.View.row self.entry result (with_view self.old)) }
        ensures value { result.now ≡ self.old.view }
    {
        &mut self.view
    }
}

impl<C: Core> Window<C> {
    /// Lends the core, whose rule and table the window's contracts speak of.
    pub fn core(&self) -> &C
        ensures { result.now ≡ self.now.core }
    {
        &self.core
    }

    /// Makes the atom that the seat's view has next, in one table step, with the view's plan. The view becomes what the core makes of it,
    /// and what happened is put into `events`, which is empty.
    #[inline(always)]
    pub(crate) fn perform(
        &self,
        seat: &mut WinSeat<C>,
        core: &C,
        atom: Atom,
        plan: Plan,
        events: &mut Events,
    ) -> Stepped
        requires seat { IsSeatOf C.rule self.now seat.old }
        requires kept { IsKept C.rule self.now seat.old }
        requires core { core.now ≡ self.now.core }
        requires planned { (C.table core.now).next seat.old.view ≡ Some atom }
        requires plan { plan ≡ C.plan_of core.now seat.old.view }
        requires none { events.old.items ≡ [] }
        ensures seat { IsSeatOf C.rule self.now seat.new }
        ensures same { (seat.new.rank ≡ seat.old.rank) × (last_view seat.new ≡ seat.new.view) }
        ensures step { table_steps seat.new ≡ table_steps seat.old + 1 }
        ensures made { SeatPerforms (C.table core.now) (C.rule core.now) seat.old seat.new atom events.new.items result }
    {
        let got = self.make(&mut seat.seat, seat.rank, &seat.view, atom);
        core.after(&mut seat.view, plan, got, events)
    }
}
