//! What follows an atom of the work.

use rl_step::Stepped;
use rl_word::Mode;

/// What follows an atom of the work.
#[derive(Clone, Copy, PartialEq, Eq, Debug)]
pub enum Follow {
    /// The block goes on.
    On,
    /// Now the lock is asked for, in this mode.
    Ask(Mode),
    /// The block is over: a rank that holds the lock leaves it.
    Over,
}

/// What an atom of the work comes to, beside what it leaves of the rank's side.
#[derive(Clone, Copy, PartialEq, Eq, Debug)]
pub struct WorkStep {
    /// What follows.
    pub follow: Follow,
    /// The answer: Moved, Waiting or Lost.
    pub stepped: Stepped,
}
