//! The spin lock has no dead end.

ghost use Rattle.std.specs.Prelude.{length};
ghost use Rattle.rl_spin.specs.SpinLeft.{spin_left};
ghost use Rattle.rl_spin.specs.laws.SpinEnding.{spin_ends};

use crate::spin::Spin;
use rl_ending::Ending;

impl Ending for Spin {
    ghost left = { λ s. spin_left };

    ghost most = { λ s. 1 };

    ghost ends = { λ s. spin_ends (length s.node_of.items) s.home };
}
