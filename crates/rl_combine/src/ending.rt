//! Flat combining has no dead end, over a lock that has none: whoever has the lock does every posted call.

ghost use Rattle.rl_combine.specs.CombineLeft.{combine_left, combine_most};
ghost use Rattle.rl_combine.specs.laws.CombineEnding.{combine_ends};
ghost use Rattle.rl_combine.specs.Posts.{node_in};

use crate::combine::CombineWork;
use rl_work::WorkEnding;

impl WorkEnding for CombineWork {
    ghost left = { λ w. combine_left w.here };

    ghost most = { λ w. combine_most w.here };

    ghost ends = { λ w. combine_ends w.here (node_in w) };
}
