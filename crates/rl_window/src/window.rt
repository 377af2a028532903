//! The window, and the seat of a rank.

ghost use Rattle.std.specs.Prelude.{◌≡◌, ◌<◌, ◌≤◌, []};
ghost use Rattle.std.specs.Coded.{Coded-set};
ghost use Rattle.rl_window.specs.Rule.{HasRoomFor};

use crate::knows::{Knows, Setup, WindowRule};
use crate::root_seat::RootSeat;
use atomic_table::{Seat, Table};
use rl_step::Core;
use std::alloc::Global;

/// How many words of 8 bytes a line of a processor's cache has.
///
/// Each card has a line's length to itself, so that threads at different cards, or at words and at cards, don't take a line
/// from each other.
pub(crate) const LINE: usize = 8;

/// A window of words and cards under the rule of its core, shared by all its seats.
///
/// A window that is dropped, or that a seat of was dropped, is never closed; nothing else is lost.
#[derive(Drop)]
pub struct Window<C: Core> {
    pub(crate) table: Table<u8, Knows<C, C::View>, Setup<C, C::View>, WindowRule<C>, Global>,
    pub(crate) root: RootSeat<Knows<C, C::View>>,
    pub(crate) core: C,
    pub(crate) size: usize,
    pub(crate) nodes: usize,
    pub(crate) alloc: Global,
    ghost about: { table.shared.key.core ≡ core } by { Coded-set C.code _ _ },
    ghost counts: { (table.shared.key.size ≡ size) × (table.shared.key.nodes ≡ nodes) },
    ghost sized: { HasRoomFor table.shared.table_id size nodes },
}

/// The seat of a rank at a window, with the rank's view.
///
/// The view can be changed between two atoms (`view_mut`). The window's calls ask that such a change keeps the core's rule,
/// whatever the words, the cards and the other views are then (`IsKept` of `specs/Seats`); it reaches the window with the
/// seat's next table step, or with the close.
#[derive(Drop)]
pub struct WinSeat<C: Core> {
    pub(crate) seat: Seat<u8, Knows<C, C::View>>,
    pub(crate) view: C::View,
    pub(crate) rank: u32,
}
