//! The spin lock says who goes on.

ghost use Rattle.std.specs.Prelude.{length};
ghost use Rattle.rl_spin.specs.SpinUrgency.{spin_urgent};
ghost use Rattle.rl_spin.specs.laws.SpinGuiding.{spin_guides};

use crate::spin::Spin;
use crate::view::{SpinPhase, SpinView};
use rl_ending::Guiding;
use rl_step::Words;

impl Guiding for Spin {
    ghost urgent = { λ s. spin_urgent };

    fn urgency(&self, view: SpinView, words: &Words, base: u32) -> Option<u32> {
        match view.phase {
            SpinPhase::Out => None,
            SpinPhase::Trying if words.value(base) != 0 => None,
            SpinPhase::Trying | SpinPhase::Inside | SpinPhase::Releasing => Some(0),
        }
    }

    ghost guides = { λ s. spin_guides (length s.node_of.items) s.home };
}
