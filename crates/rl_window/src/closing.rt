//! How a window is closed: the seats are joined to the root seat, one by one, and the words are read.

ghost use Rattle.std.specs.Prelude.{◌≡◌, ◌+◌, ◌<◌, ◌≤◌, ℕ, List, [], ◌∷◌, ◌++◌, map, take, Some, IfOk, IfErr, vec_len, vec_capacity};
ghost use Rattle.std.specs.Mem.Slots.{slots_items, slots_len, IsFull};
ghost use Rattle.rl_window.specs.Plays.{CanEnd};
ghost use Rattle.rl_window.specs.Seats.{view_of, IsAll, AreKept, IsClosing, IsFirstLeft, HasJoined, ClosesFirst};

use crate::knows::Knows;
use crate::opening::SharedTable;
use crate::plays::{JoinsEnded, Tell};
use crate::window::{WinSeat, Window};
use atomic_table::{Closed, Seat};
use rl_step::Core;
use std::alloc::Global;
use std::marker::Brand;

/// Joins the seat of a rank whose view is now `view`, which the call tells the proof by `W`, to the root seat.
fn join_told<C: Core, W: Tell<C::View>>(
    table: &SharedTable<C, C::View>,
    root: &mut Seat<u8, Knows<C, C::View>>,
    seat: Seat<u8, Knows<C, C::View>>,
    view: &C::View,
)
    requires told { W.told ≡ Some view.now }
    requires table { (root.old.table_id ≡ table.now.table_id) × (seat.table_id ≡ table.now.table_id) × (0 < table.now.table_id.words) }
    requires ending { CanEnd C.rule root.old.me seat.me view.now }
    ensures { HasJoined root.old root.new view.now }
{
    let _ = view;
    table.join_seat::<JoinsEnded<W>>(root, seat);
}

/// Joins the seat of a rank whose view is now `view` to the root seat.
fn join<C: Core>(
    table: &SharedTable<C, C::View>,
    root: &mut Seat<u8, Knows<C, C::View>>,
    seat: Seat<u8, Knows<C, C::View>>,
    view: &C::View,
)
    requires table { (root.old.table_id ≡ table.now.table_id) × (seat.table_id ≡ table.now.table_id) × (0 < table.now.table_id.words) }
    requires ending { CanEnd C.rule root.old.me seat.me view.now }
    ensures { HasJoined root.old root.new view.now }
{
    join_told::<C, Brand>(table, root, seat, view);
}

/// Joins a seat, the first of those that are left, and keeps its view.
fn join_one<C: Core>(
    table: &SharedTable<C, C::View>,
    root: &mut Seat<u8, Knows<C, C::View>>,
    seat: WinSeat<C>,
    views: &mut Vec<C::View>,
)
    requires table { (root.old.table_id ≡ table.now.table_id) × (0 < table.now.table_id.words) }
    requires room { vec_len views.old < vec_capacity views.old }
    requires closing { IsFirstLeft C.rule table.now.key table.now.table_id root.old seat views.old.items }
    ensures closing { ClosesFirst C.rule table.now.key table.now.table_id root.old root.new seat views.old.items views.new.items }
    ensures table { root.new.table_id ≡ root.old.table_id }
    ensures views { views.new.items ≡ views.old.items ++ seat.view ∷ [] }
    ensures room { (vec_len views.new ≡ vec_len views.old + 1) × (vec_capacity views.new ≡ vec_capacity views.old) }
{
    let WinSeat {
        seat,
        view,
        rank: _,
    } = seat;
    join(table, root, seat, &view);
    views.push_reserved(view);
}

/// Joins all seats that are left, and keeps their views.
fn join_all<C: Core>(
    table: &SharedTable<C, C::View>,
    root: &mut Seat<u8, Knows<C, C::View>>,
    seats: Vec<WinSeat<C>>,
    views: &mut Vec<C::View>,
)
    requires table { (root.old.table_id ≡ table.now.table_id) × (0 < table.now.table_id.words) }
    requires room { vec_len seats + vec_len views.old ≤ vec_capacity views.old }
    requires closing { IsClosing C.rule table.now.key table.now.table_id root.old seats.items views.old.items }
    ensures closing { IsClosing C.rule table.now.key table.now.table_id root.new [] views.new.items }
    ensures views { views.new.items ≡ views.old.items ++ map view_of seats.items }
{
    for seat in seats {
        join_one(table, root, seat, views);
    }
}

/// Reads the first so many words.
fn read_words(closed: &Closed<u8, Global>, count: usize, words: &mut Vec<u64>)
    requires closed { IsFull closed.now.words × (count ≤ slots_len closed.now.words) }
    requires room { (words.old.items ≡ []) × (count ≤ vec_capacity words.old) }
    ensures { words.new.items ≡ take count (slots_items closed.now.words) }
{
    let mut i = 0;
    while i < count {
        words.push_reserved(closed.word(i));
        i += 1;
    }
}

/// Closes the window; `words` and `views` have room for what it gives.
fn finish<C: Core>(
    window: Window<C>,
    seats: Vec<WinSeat<C>>,
    mut words: Vec<u64>,
    mut views: Vec<C::View>,
) -> (C, Vec<u64>, Vec<C::View>)
    requires all { IsAll C.rule window seats.items }
    requires kept { AreKept C.rule window seats.items }
    requires words { (words.items ≡ []) × (window.size ≤ vec_capacity words) }
    requires views { (views.items ≡ []) × (vec_len seats ≤ vec_capacity views) }
    ensures core { result.0 ≡ window.core }
    ensures rule { (cards : List ℕ) × C.rule window.core (record { words = result.1.items; cards = cards }) result.2.items }
    ensures views { result.2.items ≡ map view_of seats.items }
{
    let Window {
        table,
        root,
        core,
        size,
        nodes: _,
        alloc: _,
    } = window;
    let mut root = root.into_seat();
    join_all(&table.shared, &mut root, seats, &mut views);
    let closed = table.close_with(root);
    read_words(&closed, size, &mut words);
    closed.free();
    (core, words, views)
}

impl<C: Core> Window<C> {
    /// Ends all seats, and gives the core, the words, and the views in the order of the ranks.
    ///
    /// These are all the window's seats, in the order in which `new` gave them, and each seat's view is the one after its
    /// last table step, changed at most in a way that keeps the core's rule. Words and views meet the rule with some cards.
    /// Refused for want of memory alone: it takes its memory first, and a refusal hands all back untouched.
    pub fn close(
        self,
        seats: Vec<WinSeat<C>>,
    ) -> Result<(C, Vec<u64>, Vec<C::View>), (Window<C>, Vec<WinSeat<C>>)>
        requires all { IsAll C.rule self seats.items }
        requires kept { AreKept C.rule self seats.items }
        ensures core { IfOk result (λ r. r.0 ≡ self.core) }
        ensures rule { IfOk result (λ r. (cards : List ℕ) × C.rule self.core (record { words = r.1.items; cards = cards }) r.2.items) }
        ensures views { IfOk result (λ r. r.2.items ≡ map view_of seats.items) }
        ensures refused { IfErr result (λ p. (p.0 ≡ self) × (p.1.items ≡ seats.items)) }
    {
        let Ok(words) = Vec::with_capacity(self.alloc, self.size) else {
            return Err((self, seats));
        };
        let Ok(views) = Vec::with_capacity(self.alloc, seats.len()) else {
            return Err((self, seats));
        };
        Ok(finish(self, seats, words, views))
    }
}
