//! The limits of the numbers of a placement.

/// The largest number of a path.
pub const MOST_PART: u32 = 999;

/// The largest budget, of a cohort, of a level, of `writers` and of `readers`.
pub const MOST_BUDGET: u32 = 1000;

/// The most ranks, and the most ranks that share a counter.
pub const MOST_RANKS: u32 = 32;

/// The most shards of the table.
pub const MOST_SHARDS: u32 = 16;

/// The most buckets of a shard.
pub const MOST_BUCKETS: u32 = 64;

/// The most overflow cells of a shard.
pub const MOST_CELLS: u32 = 64;
