//! D-MCS says who goes on.

ghost use Rattle.std.specs.Prelude.{length};
ghost use Rattle.rl_queue.specs.DmcsUrgency.{dmcs_urgent};
ghost use Rattle.rl_queue.specs.laws.DmcsGuiding.{dmcs_guides};

use crate::dmcs::Dmcs;
use crate::queue::queue_urgency;
use crate::view::QueueView;
use rl_ending::Guiding;
use rl_step::{Algo, Words};

impl Guiding for Dmcs {
    ghost urgent = { λ s. dmcs_urgent (length s.node_of.items) };

    fn urgency(&self, view: QueueView, words: &Words, base: u32) -> Option<u32> {
        queue_urgency(view.phase, self.plan(view), words, base)
    }

    ghost guides = { λ s. dmcs_guides s.home s.node_of.items };
}
