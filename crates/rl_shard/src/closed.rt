//! What a closed shard leaves.

use rl_model::Entry;
use rl_step::Tally;

/// What a closed shard leaves.
#[derive(Drop)]
pub struct Closed {
    /// The updates, in the order in which they were done.
    pub journal: Vec<Entry>,
    /// What the table holds at last: each key with its value, by rising key.
    pub pairs: Vec<(u64, u64)>,
    /// The entries of each rank, in the order in which they were done; by the ranks' numbers.
    pub transcripts: Vec<Vec<Entry>>,
    /// The tally of each queue of the lock, by number.
    pub queues: Vec<Tally>,
}
