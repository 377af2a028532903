//! What a shard's core says that can tell who goes on.

ghost use Rattle.std.specs.Prelude.{◌≡◌, ℕ, List, Option};
ghost use Rattle.rl_step.specs.Core.{MayBe};
ghost use Rattle.rl_core.specs.ShardGuiding.{GuidesOf};

use crate::ending::ShardEnding;
use rl_step::Words;

/// A core without a dead end that says of each rank whether it goes on there, by its view and the shard's words.
pub trait ShardGuiding: ShardEnding {
    /// How urgently a rank goes on at the shard, by the shard's words and its view.
    ghost urgent: { Self → List ℕ → Self.View → Option ℕ };

    /// How urgently a rank with this view goes on at the shard: the smaller number first, and of the same numbers the first rank. None where
    /// it waits for others, or has no block open there.
    fn urgency(&self, view: &Self::View, words: &Words) -> Option<u32>
        requires { (s : MayBe (Self.rule self.now) view.now) × (s.held ≡ words.now) }
        ensures { result ≡ urgent self.now words.now.words view.now };

    /// The laws of a core that says who goes on.
    ghost guides: { GuidesOf Self.says Self.left urgent };
}
