//! What a lock says that can tell who goes on.

ghost use Rattle.std.specs.Prelude.{◌≡◌, ◌+◌, ◌^◌, ◌≤◌, ℕ, drop, length, take, List, Option};
ghost use Rattle.rl_step.specs.Lock.{MayStep};
ghost use Rattle.rl_ending.specs.Guiding.{LockGuides};

use crate::ending::Ending;
use rl_step::Words;

/// A lock without a dead end that says of each rank whether it goes on, by its view and the lock's words.
///
/// Most locks need one number: any rank that needn't wait goes on, its next act or its work leaves less to do. Where that isn't so, the numbers
/// say who goes before whom.
pub trait Guiding: Ending {
    /// How urgently a rank goes on, by the lock's words and its view.
    ghost urgent: { Self → List ℕ → Self.View → Option ℕ };

    /// How urgently a rank with this view goes on: a number less than 8, the smaller one first. None where it waits for others, or is out. The
    /// lock's words are those of `words` from number `base` on.
    fn urgency(&self, view: Self::View, words: &Words, base: u32) -> Option<u32>
        requires may { MayStep (Self.good self.now) view }
        requires there { base + (Self.table self.now).size ≤ length words.now.words }
        requires fits { base + (Self.table self.now).size ≤ 2 ^ 32 }
        ensures { result ≡ urgent self.now (take (Self.table self.now).size (drop base words.now.words)) view };

    /// The laws of a lock that says who goes on.
    ghost guides: { (a : Self) → LockGuides (Self.table a) (Self.left a) (Self.good a) (urgent a) };
}
