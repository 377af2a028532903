//! What a shard's core says that can't get stuck.

ghost use Rattle.std.specs.Prelude.{ℕ, List};
ghost use Rattle.rl_step.specs.Do.{TheWindow};
ghost use Rattle.rl_core.specs.ShardEnding.{EndsOf};

use crate::shard_core::ShardCore;

/// A core without a dead end: while a block of any rank is open on the shard, some rank's next atom leaves less to do.
pub trait ShardEnding: ShardCore {
    /// What is left to do of the blocks that are open on the shard, of its words and cards and the ranks' views.
    ghost left: { Self → TheWindow → List Self.View → ℕ };

    /// What opening a block adds to it at most, where none is open.
    ghost most: { Self → ℕ };

    /// The laws of a core without a dead end.
    ghost ends: { EndsOf Self.says left most };
}
