//! One atom through a seat of a window.

ghost use Rattle.std.specs.Prelude.{◌≡◌, []};
ghost use Rattle.rl_window.specs.Seats.{IsSeatOf, IsKept, seat_rank};
ghost use Rattle.rl_shard.specs.Stepping.{MakesNone, MakesNext};

use rl_step::{Core, Events, Stepped, advance};
use rl_window::{WinSeat, Window};

/// Makes the next atom of the seat's rank in one table step, if it has one to make. What happened with it is put into `events`, which is
/// empty.
#[inline(always)]
pub fn step<C: Core>(window: &Window<C>, seat: &mut WinSeat<C>, events: &mut Events) -> Stepped
    requires seat { IsSeatOf C.rule window.now seat.old }
    requires kept { IsKept C.rule window.now seat.old }
    requires none { events.old.items ≡ [] }
    ensures seat { IsSeatOf C.rule window.now seat.new }
    ensures kept { IsKept C.rule window.now seat.new }
    ensures rank { seat_rank seat.new ≡ seat_rank seat.old }
    ensures finished { MakesNone C.table window.now seat.old seat.new events.new.items result }
    ensures made { MakesNext C.table window.now seat.old seat.new events.new.items result C.rule }
{
    let mut port = window.port(seat);
    advance(window.core(), &mut port, events)
}
