//! The atoms of a rank, each one table step.

ghost use Rattle.std.specs.Prelude.{◌≡◌, ◌+◌, ◌*◌, ℕ, [], Some};
ghost use Rattle.rl_window.specs.Rule.{sized, MayBeAt, Keeps};
ghost use Rattle.rl_window.specs.Plays.{Moves, last_of};
ghost use Rattle.rl_window.specs.Seats.{IsSeatAt};

use crate::knows::Knows;
use crate::plays::{Finds, Tell, Writes};
use crate::window::{LINE, Window};
use atomic_table::Seat;
use rl_step::Core;
use rl_word::Atom;
use std::marker::Brand;

impl<C: Core> Window<C> {
    /// Which word of the table the card of a node is: the last of the node's line.
    #[inline(always)]
    fn card(&self, node: u32) -> usize
        ensures { result ≡ self.now.size + (8 * node + 7) }
    {
        self.size + (LINE * node as usize + (LINE - 1))
    }

    /// Makes the next atom of `view`, which the call tells the proof by `W`, and gives what it found, or 0 where it only
    /// writes.
    ///
    /// A take is one compare-and-swap of the node's card from 0 to the rank and one; a leave writes 0.
    #[inline(always)]
    fn make_told<W: Tell<C::View>>(
        &self,
        seat: &mut Seat<u8, Knows<C, C::View>>,
        rank: u32,
        view: &C::View,
        atom: Atom,
    ) -> u64
        requires told { W.told ≡ Some view.now }
        requires own { IsSeatAt self.now rank view.now seat.old }
        requires may_be { MayBeAt (sized (C.rule self.now.core) self.now.size self.now.nodes) rank view.now }
        requires kept { Keeps (C.rule self.now.core) rank (last_of view.now seat.old.me.0) view.now }
        requires planned { (C.table self.now.core).next view.now ≡ Some atom }
        ensures own { (seat.new.table_id ≡ seat.old.table_id) × (seat.new.id ≡ seat.old.id) × (seat.new.me.1 ≡ []) }
        ensures moves { Moves C.rule C.table view.now result seat.old.me.0 seat.new.me.0 }
    {
        let shared = &self.table.shared;
        match atom {
            Atom::Load { word } => shared.load::<Finds<C, W>>(seat, word as usize),
            Atom::Store { word, value } => {
                shared.store::<Writes<C, W>>(seat, word as usize, value);
                0
            }
            Atom::LocalCas { word, old, new } => {
                shared.compare_exchange::<Finds<C, W>>(seat, word as usize, old, new)
            }
            Atom::Take { node } => {
                let card = self.card(node);
                shared.compare_exchange::<Finds<C, W>>(seat, card, 0, rank as u64 + 1)
            }
            Atom::CardLoad { word } => shared.load::<Finds<C, W>>(seat, word as usize),
            Atom::CardStore { word, value } => {
                shared.store::<Writes<C, W>>(seat, word as usize, value);
                0
            }
            Atom::Leave { node } => {
                let card = self.card(node);
                shared.store::<Writes<C, W>>(seat, card, 0);
                0
            }
        }
    }

    /// Makes the next atom of `view` in one table step, and gives what it found, or 0 where it only writes.
    #[inline(always)]
    pub(crate) fn make(
        &self,
        seat: &mut Seat<u8, Knows<C, C::View>>,
        rank: u32,
        view: &C::View,
        atom: Atom,
    ) -> u64
        requires own { IsSeatAt self.now rank view.now seat.old }
        requires may_be { MayBeAt (sized (C.rule self.now.core) self.now.size self.now.nodes) rank view.now }
        requires kept { Keeps (C.rule self.now.core) rank (last_of view.now seat.old.me.0) view.now }
        requires planned { (C.table self.now.core).next view.now ≡ Some atom }
        ensures own { (seat.new.table_id ≡ seat.old.table_id) × (seat.new.id ≡ seat.old.id) × (seat.new.me.1 ≡ []) }
        ensures moves { Moves C.rule C.table view.now result seat.old.me.0 seat.new.me.0 }
    {
        self.make_told::<Brand>(seat, rank, view, atom)
    }
}
