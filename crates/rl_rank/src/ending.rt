//! Over a lock and a way of working that have no dead end a shard has none.

ghost use Rattle.rl_rank.specs.Running.{lock_at, tables, goods};
ghost use Rattle.rl_rank.specs.WholeLeft.{whole_left, whole_most};
ghost use Rattle.rl_rank.specs.laws.OfCore.{core_ends};

use crate::whole::Whole;
use rl_core::ShardEnding;
use rl_ending::Ending;
use rl_work::WorkEnding;

impl<A: Ending, W: WorkEnding> ShardEnding for Whole<A, W> {
    ghost left = { λ c. whole_left (lock_at (tables A.table W.table) c) (A.left c.algo) (A.most c.algo) (W.left c.work) };

    ghost most = { λ c. whole_most (lock_at (tables A.table W.table) c) (A.left c.algo) (A.most c.algo) (W.left c.work) (W.most c.work) };

    ghost ends = { λ c.
        core_ends (tables A.table W.table) (goods A.good W.good) A.further A.layout A.laws W.laws c A.left A.most A.ends
        W.left W.most W.ends };
}
