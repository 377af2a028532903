//! Over a lock that says who goes on a shard says so too.

ghost use Rattle.std.specs.Prelude.{◌≡◌};
ghost use Rattle.rl_rank.specs.Running.{lock_at, tables, goods};
ghost use Rattle.rl_rank.specs.WholeGuiding.{out_urgency, whole_urgent};
ghost use Rattle.rl_rank.specs.laws.OfCore.{core_guides};

use crate::card_state::CardState;
use crate::whole::{Whole, WholeView};
use rl_core::ShardGuiding;
use rl_ending::Guiding;
use rl_step::{Standing, Words};
use rl_work::WorkEnding;

/// How urgently a rank goes on of which its lock says nothing: behind all others where it is out with a block open, and else not.
fn out_urgency(standing: Standing, is_open: bool) -> Option<u32>
    ensures { result ≡ out_urgency standing is_open }
{
    match standing {
        Standing::Out if is_open => Some(9),
        _ => None,
    }
}

impl<A: Guiding, W: WorkEnding> ShardGuiding for Whole<A, W> {
    ghost urgent = { λ c. whole_urgent (lock_at (tables A.table W.table) c) (A.urgent c.algo) };

    fn urgency(&self, view: &WholeView<A::View, W::Side>, words: &Words) -> Option<u32> {
        match view.side.card {
            CardState::InCard | CardState::Loaded { .. } | CardState::ToLeave { .. } => Some(0),
            CardState::Free => match self.algo.urgency(view.side.view, words, self.base) {
                Some(urgency) => Some(urgency + 1),
                None => out_urgency(
                    self.algo.standing(view.side.view),
                    self.work.is_open(&view.work),
                ),
            },
        }
    }

    ghost guides = { λ c.
        core_guides (tables A.table W.table) (goods A.good W.good) A.further A.layout A.laws W.laws c A.left A.most A.ends
        W.left W.most W.ends A.urgent A.guides };
}
