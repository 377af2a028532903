//! What a way of working says that can't get stuck; and each block under its lock as one.

ghost use Rattle.std.specs.Prelude.{ℕ, List};
ghost use Rattle.rl_work.specs.WorkEnding.{WorkEnds};
ghost use Rattle.rl_work.specs.LockedLeft.{locked_left, locked_most};
ghost use Rattle.rl_work.specs.laws.LockedEnding.{locked_ends};

use crate::locked::LockedWork;
use crate::way::Work;

/// A way of working without a dead end.
pub trait WorkEnding: Work {
    /// What is left to do of the open blocks, of the words and the ranks' sides.
    ghost left: { Self → List ℕ → List Self.Side → ℕ };

    /// What opening a block adds to it at most, where none is open.
    ghost most: { Self → ℕ };

    /// The laws of a way of working without a dead end.
    ghost ends: { (w : Self) → WorkEnds (Self.table w) (Self.good w) (left w) (most w) };
}

impl WorkEnding for LockedWork {
    ghost left = { λ w. locked_left (record { geom = w.geom; shard = w.shard; rooms = w.rooms.items }) };

    ghost most = { λ w. locked_most (record { geom = w.geom; shard = w.shard; rooms = w.rooms.items }) };

    ghost ends = { λ w. locked_ends (record { geom = w.geom; shard = w.shard; rooms = w.rooms.items }) w.behind };
}
