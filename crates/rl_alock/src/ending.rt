//! ALock has no dead end.

ghost use Rattle.std.specs.Prelude.{◌*◌, ◌+◌};
ghost use Rattle.rl_alock.specs.Alock.{cohorts_of, ranks_of};
ghost use Rattle.rl_alock.specs.AlockLeft.{alock_left};
ghost use Rattle.rl_alock.specs.laws.AlockEnding.{bounded_ends};

use crate::alock::Alock;
use rl_ending::Ending;

impl Ending for Alock {
    ghost left = { λ s. alock_left (cohorts_of s.home s.node_of.items s.local s.remote) };

    ghost most = { λ s. 7 * (1 + 3 * ranks_of (cohorts_of s.home s.node_of.items s.local s.remote)) };

    ghost ends = { λ s. bounded_ends (cohorts_of s.home s.node_of.items s.local s.remote) };
}
