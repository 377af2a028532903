//! A round of two loads in which a rank waits.

ghost use Rattle.std.specs.Prelude.{◌≡◌};
ghost use Rattle.rl_core.specs.Rounds.{leg_answer, turned_round};

use rl_step::Stepped;

/// A load that was seen: what it is to the rank while its word has the value that it had.
#[derive(Clone, Copy)]
pub struct Leg<S: Copy> {
    /// The word, by its number in the window.
    pub word: u32,
    /// The value that it had.
    pub value: u64,
    /// Whether the load is answered Waiting, and else Moved.
    pub waits: bool,
    /// What the rank sees after it: the part of its view that the loads of a round change.
    pub sight: S,
}

/// A round of two loads: the one that the rank makes next, and the one with which it comes back to where it stands.
#[derive(Clone, Copy)]
pub struct Round<S: Copy> {
    pub here: Leg<S>,
    pub there: Leg<S>,
}

impl<S: Copy> Leg<S> {
    /// How the load is answered.
    #[inline(always)]
    pub fn answer(&self) -> Stepped
        ensures { result ≡ leg_answer self.now }
    {
        if self.waits {
            Stepped::Waiting {
                word: self.word,
                value: self.value,
            }
        } else {
            Stepped::Moved
        }
    }
}

impl<S: Copy> Round<S> {
    /// The round once its next load was made.
    #[inline(always)]
    pub fn turned(self) -> Round<S>
        ensures { result ≡ turned_round self }
    {
        Round {
            here: self.there,
            there: self.here,
        }
    }
}
