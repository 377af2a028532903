//! D-MCS has no dead end.

ghost use Rattle.std.specs.Prelude.{◌*◌, ◌+◌, length};
ghost use Rattle.rl_queue.specs.DmcsLeft.{dmcs_left};
ghost use Rattle.rl_queue.specs.laws.DmcsEnding.{dmcs_ends};

use crate::dmcs::Dmcs;
use rl_ending::Ending;

impl Ending for Dmcs {
    ghost left = { λ s. dmcs_left };

    ghost most = { λ s. 6 * (1 + 1 * length s.node_of.items) };

    ghost ends = { λ s. dmcs_ends s.home s.node_of.items };
}
