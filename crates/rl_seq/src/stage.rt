//! Where a rank stands between the versions.

/// Where a rank stands in its open block. The first is the work inside the lock, up to the last load; the next four are a
/// get alone, outside of the lock; the last four are a block of updates that is decided.
#[derive(Clone, Copy, PartialEq, Eq, Debug)]
pub enum SeqStage {
    /// No block is open, or one that loads inside the lock: the next atom is the one that its work names.
    Locked,
    /// A get is open: the load of the version, until it is even.
    Look,
    /// The get found this version: the load of the count.
    Count { version: u64 },
    /// It found this count too: the load of this word of the volume.
    Read { version: u64, count: u32, word: u32 },
    /// It has read all that it needs: the load of the version again.
    Again { version: u64, count: u32 },
    /// A block of updates is decided: the load of the version.
    Decided,
    /// It found this version: the store of the next, which is odd.
    Open { version: u64 },
    /// The version is odd: the next atom is the one that its work names, a store.
    Write { version: u64 },
    /// The count is stored: the store of the next even version.
    Close { version: u64 },
}
