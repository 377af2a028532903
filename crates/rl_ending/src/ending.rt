//! What a lock says that can't get stuck.

ghost use Rattle.std.specs.Prelude.{ℕ, List};
ghost use Rattle.rl_ending.specs.Ending.{LockEnds};

use rl_step::Algo;

/// A lock without a dead end.
pub trait Ending: Algo {
    /// What is left to do at the lock, of its words and the ranks' views. Who holds the lock has nothing to do at it.
    ghost left: { Self → List ℕ → List Self.View → ℕ };

    /// What a rank that asks, or that leaves, adds to it at most.
    ghost most: { Self → ℕ };

    /// The laws of a lock without a dead end.
    ghost ends: { (a : Self) → LockEnds (Self.table a) (left a) (Self.good a) (most a) };
}

/// In each good state of the lock all ranks are out, or somebody can go on. There is nothing to run.
pub fn somebody_goes_on<A: Ending>(lock: &A)
    ensures { LockEnds (A.table lock.now) (A.left lock.now) (A.good lock.now) (A.most lock.now) }
{
    let _ = lock;
}
