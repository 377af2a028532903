//! What a rank knows of the counters: the one of its group, and what it is about to do.

/// What a lock lets a rank do at the counters. A reader does it at the counter of its group, a writer at all counters.
#[derive(Clone, Copy, PartialEq, Eq, Debug)]
pub enum Task {
    /// It comes in as a reader.
    Enter,
    /// It goes out as a reader.
    Exit,
    /// It puts the marks up, and waits until all counters are clear.
    Up,
    /// It takes the marks down.
    Down,
}

/// What a rank is about to do. `found` is what it found in arrive, `taken` what it has taken out of depart, and `at` the counter at
/// which a writer is.
#[derive(Clone, Copy, PartialEq, Eq, Debug)]
pub enum Doing {
    /// Nothing: it has no task.
    Nothing,
    /// A reader: it adds itself to arrive.
    Arrive,
    /// It was refused, and takes itself off arrive again.
    Refused { found: u64 },
    /// It looks whether a writer is in the root's queue.
    SeeTail { found: u64 },
    /// It takes out what departed.
    Swap,
    /// It takes off arrive what it has taken out of depart.
    Reset { taken: u64 },
    /// It looks at arrive until it may try again.
    Round,
    /// It looks at the root's tail in that round.
    RoundTail { found: u64 },
    /// Nothing: it is in.
    Inside,
    /// It adds itself to depart.
    Depart,
    /// A writer: it puts the mark on a counter.
    Put { at: u32 },
    /// It counts who has come to a counter.
    Count { at: u32 },
    /// It compares that with who has gone.
    Compare { at: u32, found: u64 },
    /// It takes out what departed of a counter.
    TakeOut { at: u32 },
    /// It takes the mark off, with what it has taken out.
    TakeOff { at: u32, taken: u64 },
}

/// A rank's view of the counters: the one of its group, and what it is about to do.
#[derive(Clone, Copy, PartialEq, Eq, Debug)]
pub struct CounterView {
    pub counter: u32,
    pub doing: Doing,
}
