//! What each table step tells its caller. No value of these types is made.

use crate::knows::Knows;
use atomic_table::{Join, Play, Split};
use rl_step::Core;
use std::marker::{Brand, PhantomData};

/// The rank's view as the call has it, which the table can't read. A call at `Brand` picks it.
pub(crate) trait Tell<V> {
    ghost use Rattle.std.specs.Prelude.{Option};

    ghost told: { Option V };
}

impl<V> Tell<V> for Brand {
    ghost use Rattle.std.specs.Prelude.{None};

    ghost told = { None };
}

/// A step that finds what its atom gives.
pub(crate) struct Finds<C, W> {
    marker: PhantomData<(C, W)>,
}

impl<C: Core, W: Tell<C::View>> Play<u8, Knows<C, C::View>> for Finds<C, W> {
    ghost use Rattle.std.specs.Prelude.{◌≡◌};
    ghost use Rattle.rl_window.specs.Plays.{MovesWhereTold};

    ghost then = { λ s m r n. (n.1 ≡ m.1) × MovesWhereTold C.rule C.table W.told r m.0 n.0 };
}

/// A step that writes, and whose atom gives 0.
pub(crate) struct Writes<C, W> {
    marker: PhantomData<(C, W)>,
}

impl<C: Core, W: Tell<C::View>> Play<u8, Knows<C, C::View>> for Writes<C, W> {
    ghost use Rattle.std.specs.Prelude.{◌≡◌};
    ghost use Rattle.rl_window.specs.Plays.{MovesWhereTold};

    ghost then = { λ s m r n. (n.1 ≡ m.1) × MovesWhereTold C.rule C.table W.told 0 m.0 n.0 };
}

/// The seat of the next rank is split off the root seat.
pub(crate) struct SplitsNext;

impl<C, V> Split<Knows<C, V>> for SplitsNext {
    ghost use Rattle.rl_window.specs.Plays.{without_next, next_seat};

    ghost left = { without_next };

    ghost right = { next_seat };
}

/// A rank's seat is joined to the root seat, with the view that is told.
pub(crate) struct JoinsEnded<W> {
    marker: PhantomData<W>,
}

impl<C, V, W: Tell<V>> Join<Knows<C, V>> for JoinsEnded<W> {
    ghost use Rattle.rl_window.specs.Plays.{with_ended};
    ghost use Rattle.rl_window.specs.declared.knows.Knows.TheVariants.{Spent};

    ghost both = { λ k _. with_ended W.told k };

    ghost spent = { Spent };
}
