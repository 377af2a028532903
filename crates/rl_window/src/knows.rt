//! What a seat knows, and the rule of the table. All of it is read by contracts alone.

use atomic_table::TableRule;
use rl_step::Core;
use std::collections::LinkedList;
use std::marker::PhantomData;

/// What the table's rule is about, fixed when the table is made.
#[derive(Drop)]
pub struct Setup<C, V> {
    /// The machine of a rank.
    pub core: C,
    /// How many of the table's words are words of the window; the cards come behind them, each with a line's length to itself.
    pub size: usize,
    /// How many cards there are: one for each node.
    pub nodes: usize,
    /// The view that each rank begins with, in the order of the ranks.
    pub views: Vec<V>,
}

/// What the root seat knows. No value of it is made.
pub struct RootKnows<C, V> {
    pub core: C,
    pub size: u64,
    pub nodes: u64,
    /// How many seats were split off: those of the ranks below this number.
    pub given: u64,
    /// The opening views of the other ranks, in their order.
    pub to_come: LinkedList<V>,
    /// The last views of the seats that were joined, in the order of their ranks.
    pub ended: LinkedList<V>,
}

/// What the seat of a rank knows. No value of it is made, so the count of steps has no last value.
pub struct RankKnows<C, V> {
    pub core: C,
    pub size: u64,
    pub nodes: u64,
    pub rank: u64,
    /// The rank's view after its last table step, or as it began.
    pub view: V,
    /// How many table steps the seat has made.
    pub steps: u64,
}

/// What a seat knows: the root seat, a rank's, or one that was joined to the root seat.
pub enum Knows<C, V> {
    Root(RootKnows<C, V>),
    Rank(RankKnows<C, V>),
    Spent,
}

/// The table's rule: the core's, over the words, the cards and one view for each rank.
pub struct WindowRule<C> {
    core: PhantomData<C>,
}

impl<C: Core> TableRule<u8, Knows<C, C::View>, Setup<C, C::View>> for WindowRule<C> {
    ghost use Rattle.rl_window.specs.Rule.{IsRuled, opening_root};

    ghost holds = { IsRuled C.rule };

    ghost first = { opening_root };
}
