//! RMA-MCS has no dead end.

ghost use Rattle.std.specs.Prelude.{◌*◌, ◌+◌};
ghost use Rattle.rl_tree.specs.Elements.{ranks_in};
ghost use Rattle.rl_tree.specs.TreeShape.{levels_of};
ghost use Rattle.rl_tree.specs.laws.TreeLaid.{well_shaped};
ghost use Rattle.rl_mcs.specs.McsLeft.{mcs_left};
ghost use Rattle.rl_mcs.specs.laws.McsEnding.{mcs_ends};

use crate::mcs::Mcs;
use rl_ending::Ending;

impl Ending for Mcs {
    ghost left = { λ s. mcs_left s.tree.rooted (levels_of s.tree.rooted.shape) };

    ghost most = { λ s. (7 * levels_of s.tree.rooted.shape + 6) * (1 + 1 * ranks_in s.tree.rooted) };

    ghost ends = { λ s. mcs_ends s.tree.rooted (levels_of s.tree.rooted.shape) (well_shaped s.tree.rooted s.tree.laid) };
}
