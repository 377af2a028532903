//! What a step tells: how a rank stands, what happened, and how the step went.

/// How a rank stands to its shard's lock.
#[derive(Clone, Copy, PartialEq, Eq, Debug)]
pub enum Standing {
    /// It has no call open. By its view of the lock alone: it hasn't asked for it.
    Out,
    /// It has asked for the lock and doesn't hold it yet; or its call is open without the lock, as a get's under optimistic readers.
    Asking,
    /// It holds the lock, alone.
    Writer,
    /// It holds the lock together with other readers.
    Reader,
    /// It has ended its work and is giving the lock up.
    Leaving,
}

/// What happened on a shard. Queues, their members, cohorts and ranks are named by number.
#[derive(Clone, Copy, PartialEq, Eq, Debug)]
pub enum Event {
    /// The member has swung the queue's tail to itself.
    Join { queue: u32, member: u32 },
    /// A head of the cohort has stored it as the victim.
    Announce { cohort: u32 },
    /// The queue was handed to the member by the one before it.
    Pass { queue: u32, member: u32 },
    /// The member has got the queue from above: it begins with the whole budget.
    Settle { queue: u32, member: u32 },
    /// The rank has read or written what the lock guards.
    Touch { rank: u32, write: bool },
    /// The rank holds the lock from now on, alone.
    EnterW { rank: u32 },
    /// The rank holds the lock from now on, together with other readers.
    EnterR { rank: u32 },
    /// The rank's work is done; it holds the lock no longer.
    LeaveW { rank: u32 },
    /// The reader's work is done; it holds the lock no longer.
    LeaveR { rank: u32 },
}

/// How a step went.
#[derive(Clone, Copy, PartialEq, Eq, Debug)]
pub enum Stepped {
    /// An atom was made, and none of the answers below holds.
    Moved,
    /// The last load of a waiting round gave this value of this word, and the rank has to wait on.
    Waiting { word: u32, value: u64 },
    /// A compare-and-swap saw another value than it guessed; or a get that reads without the lock saw another version at its end
    /// than the one that it began with, and begins again.
    Lost { guess: u64, seen: u64 },
    /// A take found another rank in the card of this node.
    Busy { node: u32, holder: u32 },
    /// The rank has no call open; no atom was made.
    Finished,
}

/// What a rank has learnt from an act, beside what happened with it: its view, and whether the round has to be made again.
#[derive(Drop)]
pub struct Learnt<V> {
    pub view: V,
    pub waits: bool,
}
