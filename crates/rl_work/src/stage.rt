//! Where a rank stands in the work of its block.

/// Where a rank stands in the work of its block. Each but the first says which atom is next.
#[derive(Clone, Copy, PartialEq, Eq, Debug)]
pub enum Stage {
    /// No block is open, or the work of the last one is over.
    Rest,
    /// A block is open: the load of the count.
    Begin,
    /// It found this count: the load of this word of the volume.
    Read { count: u32, word: u32 },
    /// It has decided, and so many words of its entries are written: the store of the next one.
    Journal { made: u32 },
    /// Its entries are written, and so many of its writes are made: the next write, or the store of the count behind the
    /// last one.
    Volume { made: u32 },
}
