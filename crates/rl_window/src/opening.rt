//! How a window is opened: the table is made, and each rank's seat is split off the root seat.

ghost use Rattle.std.specs.Prelude.{◌≡◌, ◌+◌, ◌*◌, ◌<◌, ◌≤◌, ◌^◌, ℕ, List, [], ◌∷◌, ◌++◌, length, replicate, map, IfOk, vec_len, vec_capacity};
ghost use Rattle.rl_window.specs.declared.knows.RootKnows.{RootKnows};
ghost use Rattle.rl_window.specs.declared.knows.Knows.TheVariants.{Root};
ghost use Rattle.rl_window.specs.Rule.{apart};
ghost use Rattle.rl_window.specs.Plays.{without_next, next_seat};
ghost use Rattle.rl_window.specs.Seats.{view_of, IsAll, AreNew, AreKept, IsOpening, OpensFirst};

use crate::knows::{Knows, Setup, WindowRule};
use crate::plays::SplitsNext;
use crate::root_seat::RootSeat;
use crate::window::{LINE, WinSeat, Window};
use atomic_table::{Seat, Shared, Table};
use rl_step::Core;
use std::alloc::{AllocError as OutOfMemory, Global};

/// What the seats of a window step on.
pub(crate) type SharedTable<C, V> = Shared<u8, Knows<C, V>, Setup<C, V>, WindowRule<C>>;

/// Splits the seat of the next rank, whose opening view is `view`, off the root seat.
fn split_next<C: Core>(
    table: &SharedTable<C, C::View>,
    root: &mut Seat<u8, Knows<C, C::View>>,
    view: &C::View,
) -> Seat<u8, Knows<C, C::View>>
    requires table { (root.old.table_id ≡ table.now.table_id) × (0 < table.now.table_id.words) }
    requires root { (r : RootKnows C C.View) × (rest : List C.View) × (root.old.me ≡ (Root r, [])) × (r.to_come ≡ view.now ∷ rest) }
    ensures table { (root.new.table_id ≡ root.old.table_id) × (result.table_id ≡ root.old.table_id) }
    ensures root { root.new.me ≡ (without_next root.old.me.0, []) }
    ensures seat { result.me ≡ (next_seat root.old.me.0, []) }
{
    let _ = view;
    table.split_seat::<SplitsNext>(root)
}

/// Makes the seat of the next rank, whose view this is.
fn split_one<C: Core>(
    table: &SharedTable<C, C::View>,
    root: &mut Seat<u8, Knows<C, C::View>>,
    view: C::View,
    seats: &mut Vec<WinSeat<C>>,
)
    requires table { (root.old.table_id ≡ table.now.table_id) × (0 < table.now.table_id.words) }
    requires room { (vec_len seats.old < vec_capacity seats.old) × (vec_len seats.old < 2 ^ 32) }
    requires opening { (rest : List C.View) × IsOpening table.now.key table.now.table_id root.old (view ∷ rest) seats.old.items }
    ensures opening { OpensFirst table.now.key table.now.table_id root.old root.new view seats.old.items seats.new.items }
    ensures table { root.new.table_id ≡ root.old.table_id }
    ensures room { (vec_len seats.new ≡ vec_len seats.old + 1) × (vec_capacity seats.new ≡ vec_capacity seats.old) }
{
    let rank = seats.len() as u32;
    let seat = split_next(table, root, &view);
    seats.push_reserved(WinSeat { seat, view, rank });
}

/// Makes a seat for each view that is left.
fn split_all<C: Core>(
    table: &SharedTable<C, C::View>,
    root: &mut Seat<u8, Knows<C, C::View>>,
    views: Vec<C::View>,
    seats: &mut Vec<WinSeat<C>>,
)
    requires table { (root.old.table_id ≡ table.now.table_id) × (0 < table.now.table_id.words) }
    requires room { (vec_len views + vec_len seats.old ≤ vec_capacity seats.old) × (vec_len views + vec_len seats.old < 2 ^ 32) }
    requires opening { IsOpening table.now.key table.now.table_id root.old views.items seats.old.items }
    ensures opening { IsOpening table.now.key table.now.table_id root.new [] seats.new.items }
{
    for view in views {
        split_one(table, root, view, seats);
    }
}

/// The table's words: the window's, and behind them a line for each node, whose last word is a free card.
fn words_and_cards(alloc: Global, words: &[u64], nodes: usize) -> Result<Vec<u64>, OutOfMemory>
    requires { nodes < 2 ^ 32 }
    ensures words { IfOk result (λ v. v.items ≡ words.now ++ apart (replicate nodes 0)) }
    ensures count { IfOk result (λ v. vec_len v ≡ length words.now + 8 * nodes) }
{
    let mut all = Vec::new(alloc);
    all.extend_from_slice(words)?;
    all.resize(words.len() + LINE * nodes, 0)?;
    Ok(all)
}

/// The window and its seats, for which there is room in `seats`.
fn opened<C: Core>(
    alloc: Global,
    core: C,
    words: &[u64],
    nodes: usize,
    views: Vec<C::View>,
    mut seats: Vec<WinSeat<C>>,
) -> Result<(Window<C>, Vec<WinSeat<C>>), OutOfMemory>
    requires rule { C.rule core (record { words = words.now; cards = replicate nodes 0 }) views.items }
    requires some { (0 < length words.now) × (nodes < 2 ^ 32) }
    requires room { (seats.items ≡ []) × (vec_len views ≤ vec_capacity seats) × (vec_len views < 2 ^ 32) }
    ensures window { IfOk result (λ p. (p.0.core ≡ core) × (p.0.size ≡ length words.now) × (p.0.nodes ≡ nodes)) }
    ensures seats { IfOk result (λ p. IsAll C.rule p.0 p.1.items × AreNew p.1.items × AreKept C.rule p.0 p.1.items) }
    ensures views { IfOk result (λ p. map view_of p.1.items ≡ views.items) }
{
    let all = words_and_cards(alloc, words, nodes)?;
    let setup = Setup {
        core,
        size: words.len(),
        nodes,
        views,
    };
    let (table, mut root) = Table::of_words(alloc, all.as_slice(), &setup)?;
    let Setup {
        core,
        size,
        nodes,
        views,
    } = setup;
    split_all(&table.shared, &mut root, views, &mut seats);
    Ok((
        Window {
            table,
            root: RootSeat::new(root),
            core,
            size,
            nodes,
            alloc,
        },
        seats,
    ))
}

impl<C: Core> Window<C> {
    /// A window of these words, with a free card for each of so many nodes, and a seat for each view.
    ///
    /// Words, cards and views meet the core's rule, and there is a word and a view. Seat n is rank n's and has view n; no
    /// seat has made a step. A rank's number has 32 bits, so there are fewer than 2^32 views. Refused for want of memory
    /// alone.
    pub fn new(
        alloc: Global,
        core: C,
        words: &[u64],
        nodes: u32,
        views: Vec<C::View>,
    ) -> Result<(Window<C>, Vec<WinSeat<C>>), OutOfMemory>
        requires rule { C.rule core (record { words = words.now; cards = replicate nodes 0 }) views.items }
        requires some { (0 < length words.now) × (0 < vec_len views) × (vec_len views < 2 ^ 32) }
        ensures core { IfOk result (λ p. p.0.core ≡ core) }
        ensures seats { IfOk result (λ p. IsAll C.rule p.0 p.1.items × AreNew p.1.items × AreKept C.rule p.0 p.1.items) }
        ensures views { IfOk result (λ p. map view_of p.1.items ≡ views.items) }
    {
        let seats = Vec::with_capacity(alloc, views.len())?;
        opened(alloc, core, words, nodes as usize, views, seats)
    }
}
