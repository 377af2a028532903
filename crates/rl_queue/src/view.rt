//! What a member knows of its queue: its number, and what it is about to do.

/// What a member is about to do. Each phase has the numbers that it needs, and no others.
#[derive(Clone, Copy, PartialEq, Eq, Debug)]
pub enum Phase {
    /// It doesn't use the queue.
    Idle,
    /// It clears its next word.
    Clear,
    /// It clears its status word.
    Reset,
    /// It swings the tail from the guess to itself: 0, or one more than the member that it takes to be the last.
    Swing { guess: u64 },
    /// It tells the member before it, guess - 1, that it follows.
    Link { guess: u64 },
    /// It loads its status until it is handed the queue.
    Wait,
    /// It is the queue's head and must settle: the layer above acts.
    Settle,
    /// It has the queue, with so many passes left.
    Granted { left: u32 },
    /// It leaves, and loads its next word; where something is above the queue it may have to give that up first.
    Look { left: u32, upper: bool },
    /// It has seen no successor and empties the tail.
    Close { left: u32 },
    /// It lost that compare, and loads its next word until it has a successor.
    Await { left: u32 },
    /// It hands the queue to its successor.
    Hand { successor: u32, left: u32 },
    /// It waits until the layer above has given up what is above the queue; the successor is the one that it has seen.
    Above { successor: Option<u32> },
}

/// A member's view of its queue.
#[derive(Clone, Copy, PartialEq, Eq, Debug)]
pub struct QueueView {
    pub member: u32,
    pub phase: Phase,
}

/// Where a member stands.
#[derive(Clone, Copy, PartialEq, Eq, Debug)]
pub enum Stage {
    /// It doesn't use the queue.
    Idle,
    /// It makes acts to join the queue.
    Joining,
    /// It is a head that must settle: that is up to the layer above.
    Settle,
    /// It has the queue, with so many passes left; without limit that is 0.
    Granted { left: u32 },
    /// It makes acts to leave the queue.
    Leaving,
    /// It waits for the layer above to give up what is above the queue.
    Above,
}
