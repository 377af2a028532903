//! What comes of a sketch.

use rl_ops::Schedule;

/// What comes of a sketch.
#[derive(Drop)]
pub enum Drawn {
    /// Each line came to its end, and these are the turns.
    Whole(Schedule),
    /// The line of this number, counted from 1, is the first that comes to no end with the steps that a schedule may have.
    Never { line: u64 },
}
