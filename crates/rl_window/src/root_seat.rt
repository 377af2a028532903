//! The table's first seat, while it lies in the window.

ghost use Rattle.std.specs.Prelude.{◌≡◌};

use atomic_table::Seat;
use std::marker::Model;

/// A seat that nobody steps with: so threads may share it, where a seat alone may only be sent.
pub(crate) struct RootSeat<V> {
    pub(crate) seat: Seat<u8, V>,
}

impl<V> Model for RootSeat<V> {
    ghost use base.Fml.{ftrue};

    ghost also_owns = { λ _. ftrue };
}

impl<V> RootSeat<V> {
    pub(crate) fn new(seat: Seat<u8, V>) -> RootSeat<V>
        ensures { result.seat ≡ seat }
    {
        RootSeat { seat }
    }

    pub(crate) fn into_seat(self) -> Seat<u8, V>
        ensures { result ≡ self.seat }
    {
        let RootSeat { seat } = self;
        seat
    }
}

impl<V> Drop for RootSeat<V> {
    fn drop(self) {
        drop(self.into_seat());
    }
}

unsafe impl<V> Send for RootSeat<V> {}

unsafe impl<V> Sync for RootSeat<V> {}
