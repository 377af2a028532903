//! RMA-RW has no dead end.

ghost use Rattle.rl_tree.specs.TreeShape.{levels_of};
ghost use Rattle.rl_rw.specs.Rw.{shared_of};
ghost use Rattle.rl_rw.specs.RwLeft.{rw_left, rw_most};
ghost use Rattle.rl_rw.specs.laws.RwEnding.{ends_of};

use crate::rw::Rw;
use rl_ending::Ending;

impl Ending for Rw {
    ghost left = { λ s. rw_left (shared_of s.tree.rooted s.counters.readers s.group) (levels_of s.tree.rooted.shape) };

    ghost most = { λ s. rw_most (shared_of s.tree.rooted s.counters.readers s.group) (levels_of s.tree.rooted.shape) };

    ghost ends = { λ s. ends_of s.tree.rooted s.counters.readers s.group s.tree.laid s.limited s.few s.grouped s.served };
}
