//! What a word of a shard is for.

/// What a word of a shard is for. Ranks, elements, groups, buckets and cells are named by number.
#[derive(Clone, Copy, PartialEq, Eq, Debug)]
pub enum WordName {
    /// Word 0, which is always 1.
    Fixed,
    /// How many updates were done.
    Count,
    /// The first free overflow cell.
    Free,
    /// Whether a bucket is taken, and where its chain goes on.
    State { bucket: u32 },
    /// The key in a bucket's own cell.
    Key { bucket: u32 },
    /// The value in a bucket's own cell.
    Value { bucket: u32 },
    /// The cell behind an overflow cell.
    Link { cell: u32 },
    /// The key in an overflow cell.
    CellKey { cell: u32 },
    /// The value in an overflow cell.
    CellValue { cell: u32 },
    /// One of the six words of the journal's entry at a place.
    Journal { place: u32, word: u32 },
    /// The one word of a spin lock.
    Lock,
    /// The tail of the one queue of D-MCS.
    Tail,
    /// The tail of ALock's queue of the ranks at home.
    LocalTail,
    /// The tail of ALock's queue of all other ranks.
    RemoteTail,
    /// The cohort that announced last.
    Victim,
    /// Who comes behind a rank in its queue.
    Next { rank: u32 },
    /// What a rank in a queue waits at.
    Status { rank: u32 },
    /// The tail of an element's queue.
    ElementTail { element: u32 },
    /// Who comes behind an element in the queue above it.
    ElementNext { element: u32 },
    /// What an element in the queue above it waits at.
    ElementStatus { element: u32 },
    /// How many readers of a group came.
    Arrive { group: u32 },
    /// How many readers of a group left.
    Depart { group: u32 },
    /// The version of optimistic readers.
    Version,
    /// One of the nine words in which a rank posts a call.
    Post { rank: u32, word: u32 },
}
