//! What a rank knows of a spin lock.

/// Where a rank is in its use of the lock.
#[derive(Clone, Copy, PartialEq, Eq, Debug)]
pub enum SpinPhase {
    /// It doesn't use the lock.
    Out,
    /// It makes its compare-and-swap until that succeeds.
    Trying,
    /// It has the lock.
    Inside,
    /// Its work is done, and it swaps 0 in.
    Releasing,
}

/// A rank's view of the lock: its own number, and where it is.
#[derive(Clone, Copy, PartialEq, Eq, Debug)]
pub struct SpinView {
    pub rank: u32,
    pub phase: SpinPhase,
}
