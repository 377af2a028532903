//! Cores that see beforehand that a rank waits.

ghost use Rattle.std.specs.Prelude.{◌≡◌, length, IfSome};
ghost use Rattle.rl_step.specs.Core.{MayBe};
ghost use Rattle.rl_core.specs.Idle.{SeenWaiting};
ghost use Rattle.rl_core.specs.Rounds.{IsRoundOfAll};

use crate::round::Round;
use crate::shard_core::ShardCore;
use rl_step::{Stepped, Words};

/// A core that can see beforehand that a rank waits: that its next atom changes nothing, or that it goes in a round of two loads. What is
/// seen holds while the words that are named have the values that they had, whatever other ranks do; so many steps are counted at once.
pub trait Resting: ShardCore {
    /// The part of a view that the loads of a round change.
    type Sight: Copy;

    /// The view with another such part, and all else as it was.
    ghost with_sight: { Self.View → Self.Sight → Self.View };

    /// The answer of a view's next atom on these words and cards, where it is seen that the atom changes nothing: so it is answered, and
    /// changes nothing, while the word that the answer names has the same value. `None` says nothing of the atom; a core that always
    /// gives it is stepped in full, always.
    fn waits(&self, view: &Self::View, words: &Words) -> Option<Stepped>
        requires { (s : MayBe (Self.rule self.now) view.now) × (s.held ≡ words.now) }
        ensures { IfSome result (SeenWaiting (Self.says self.now).table words.now view.now) };

    /// The round of two loads in which a rank with this view goes on these words, if it is seen to be in one. `None` says nothing of it.
    fn round(&self, view: &Self::View, words: &Words) -> Option<Round<Self::Sight>>
        requires { (s : MayBe (Self.rule self.now) view.now) × (s.held ≡ words.now) }
        ensures { IfSome result (IsRoundOfAll (Self.says self.now).table with_sight (length words.now.words) view.now) };

    /// Exchanges the part of a view that the loads of a round change.
    fn set_sight(view: &mut Self::View, sight: Self::Sight)
        ensures { view.new ≡ with_sight view.old sight };
}
