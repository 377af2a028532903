//! The lines of a calls file, and its versions.
use rl_model::Call;

/// The version of a calls file, which its first line names.
#[derive(Clone, Copy, Debug, PartialEq, Eq)]
pub enum CallsVersion {
    /// Each call stands alone.
    One,
    /// There may be batches.
    Two,
}

/// A line of a calls file between its first line and the line `end`.
#[derive(Clone, Copy, Debug, PartialEq, Eq)]
pub enum CallsLine {
    /// The next `size` lines are the calls of one batch of this rank.
    Batch { rank: u32, size: u32 },
    /// A rank asks for a call. The size is 1 for a call alone, the number of all calls of its batch for the first of
    /// them, and 0 for the others.
    Asks { rank: u32, call: Call, size: u32 },
}
