//! How far a calls file was read, and what its next line may be.
ghost use Rattle.std.specs.Prelude.{◌≡◌, ◌+◌, ◌<◌, ◌≤◌, ◌^◌, ◌%◌};
ghost use Rattle.rl_ops.specs.Blocks.{shard_among};
ghost use Rattle.rl_ops.specs.OpsReading.{may_end, rest_of, after_call, after_line, nothing_read};

use crate::calls_line::CallsLine;
use rl_model::Call;

/// What the next line of a calls file may be.
#[derive(Clone, Copy, Debug, PartialEq, Eq)]
pub enum Expected {
    /// A call alone, a batch, or the end.
    NewBlock,
    /// The first of so many calls of a batch of this rank.
    FirstCall { rank: u32, size: u32 },
    /// One of so many further calls of a batch of this rank, all of this shard.
    FurtherCall { rank: u32, left: u32, shard: u64 },
}

/// How many call lines were read, and what may come next.
#[derive(Clone, Copy, Debug, PartialEq, Eq)]
pub struct Progress {
    pub count: u32,
    pub expected: Expected,
}

// The shard of a key among so many. Among none each key has its own.
pub fn shard_of_key(key: u64, shards: u32) -> u64
    ensures { result ≡ key % shards }
{
    if shards == 0 {
        key
    } else {
        key % u64::from(shards)
    }
}

fn shard_among(shards: u32, call: Call) -> u64
    ensures { result ≡ shard_among shards call }
{
    match call {
        Call::Put { key, .. }
        | Call::Get { key }
        | Call::Del { key }
        | Call::Add { key, .. }
        | Call::Cas { key, .. } => shard_of_key(key, shards),
        Call::Hold { shard } => u64::from(shard),
    }
}

fn rest_of(rank: u32, left: u32, shard: u64) -> Expected
    ensures { result ≡ rest_of rank left shard }
{
    if left == 0 {
        Expected::NewBlock
    } else {
        Expected::FurtherCall { rank, left, shard }
    }
}

impl Expected {
    /// Whether the file may end here: a batch isn't cut off.
    pub fn may_end(&self) -> bool
        ensures { result ≡ may_end self.now }
    {
        matches!(self, Expected::NewBlock)
    }

    // What is expected after a call.
    fn after_call(&self, shards: u32, call: Call) -> Expected
        ensures { result ≡ after_call shards self.now call }
    {
        match *self {
            Expected::NewBlock => Expected::NewBlock,
            Expected::FirstCall { rank, size } => {
                rest_of(rank, size.saturating_sub(1), shard_among(shards, call))
            }
            Expected::FurtherCall { rank, left, shard } => {
                rest_of(rank, left.saturating_sub(1), shard)
            }
        }
    }
}

impl Progress {
    /// Before the first line.
    pub fn new() -> Progress
        ensures { result ≡ nothing_read }
    {
        Progress {
            count: 0,
            expected: Expected::NewBlock,
        }
    }

    /// After one line more, on a table of so many shards. The line of a batch isn't counted.
    #[inline(always)]
    pub fn after(&self, shards: u32, line: CallsLine) -> Progress
        requires { self.now.count < u32.MAX }
        ensures { result ≡ after_line shards self.now line }
    {
        match line {
            CallsLine::Batch { rank, size } => Progress {
                count: self.count,
                expected: Expected::FirstCall { rank, size },
            },
            CallsLine::Asks { call, .. } => Progress {
                count: self.count + 1,
                expected: self.expected.after_call(shards, call),
            },
        }
    }
}
