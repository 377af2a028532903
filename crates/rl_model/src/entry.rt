// What the table answered, and calls that were done.
ghost use Rattle.std.specs.Prelude.{◌≡◌};

use crate::call::Call;

/// The answer to a call.
#[derive(Clone, Copy, PartialEq, Eq, Debug)]
pub enum Reply {
    /// A put of a key that wasn't there.
    New,
    /// The value that the key had until now.
    Was(u64),
    /// A put of a new key whose bucket was taken, with no overflow cell left. Nothing changed.
    Full,
    /// The value of the key.
    Val(u64),
    /// The key isn't there.
    Nothing,
    /// The value after an add.
    Sum(u64),
    /// The value of the key, to which an add would have passed 2^64 - 1. Nothing changed.
    Over(u64),
    /// The value of the key, which isn't the old one of a compare-and-swap. Nothing changed.
    No(u64),
    /// A hold had the lock.
    Held,
    /// Another call of its batch was full or over. Nothing changed.
    Undone,
}

/// A call that was done.
#[derive(Clone, Copy, PartialEq, Eq, Debug, Default)]
pub struct Entry {
    /// The shard that it was done on, from 0.
    pub shard: u32,
    /// The rank whose call it is, from 0.
    pub rank: u32,
    /// Which of its rank's calls it is, counted from 0 over all shards.
    pub seq: u32,
    pub call: Call,
    /// How many updates the shard had before it, which is the place of an update in the journal.
    pub at: u32,
    pub reply: Reply,
    /// How many calls its batch has, and 0 for a call alone.
    pub batch: u32,
    /// Which call of its batch it is, from 0, and 0 for a call alone.
    pub part: u32,
}

/// The reply of a hold, for what fills a vector before it has replies.
impl Default for Reply {
    ghost use Rattle.rl_model.specs.declared.entry.Reply.TheVariants.{Held};

    ghost is_default = { λ reply. reply ≡ Held };

    fn default() -> Reply {
        Reply::Held
    }
}
