//! Optimistic readers have no dead end, over a lock that has none: whoever has the lock goes on, and where nobody is at it each get does.

ghost use Rattle.rl_seq.specs.Place.{at_of};
ghost use Rattle.rl_seq.specs.SeqLeft.{seq_left, seq_most};
ghost use Rattle.rl_seq.specs.laws.SeqEnding.{seq_ends};

use crate::way::SeqWork;
use rl_work::WorkEnding;

impl WorkEnding for SeqWork {
    ghost left = { λ w. seq_left (at_of w) };

    ghost most = { λ w. seq_most (at_of w) };

    ghost ends = { λ w. seq_ends (at_of w) w.home };
}
