//! RMA-MCS says who goes on.

ghost use Rattle.rl_tree.specs.TreeShape.{levels_of};
ghost use Rattle.rl_tree.specs.laws.TreeLaid.{well_shaped};
ghost use Rattle.rl_mcs.specs.McsUrgency.{mcs_urgent};
ghost use Rattle.rl_mcs.specs.laws.McsGuiding.{mcs_guides};

use crate::mcs::Mcs;
use rl_ending::Guiding;
use rl_queue::queue_urgency;
use rl_step::{Algo, Words};
use rl_tree::TreeView;

impl Guiding for Mcs {
    ghost urgent = { λ s. mcs_urgent s.tree.rooted };

    fn urgency(&self, view: TreeView, words: &Words, base: u32) -> Option<u32> {
        if view.query {
            Some(0)
        } else {
            queue_urgency(view.phase, self.plan(view), words, base)
        }
    }

    ghost guides = { λ s. mcs_guides s.tree.rooted (levels_of s.tree.rooted.shape) (well_shaped s.tree.rooted s.tree.laid) };
}
