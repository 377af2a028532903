//! The tests of a report, and what is told of one that fails.
ghost use Rattle.std.specs.Prelude.{◌≡◌};
ghost use Rattle.rl_check.specs.Faults.{test_word};

/// What a test looks at: a shard's part of a report, or a rank's entries in all parts.
#[derive(Clone, Copy, PartialEq, Eq, Debug)]
pub enum Group {
    /// The shard of this number.
    Shard(u32),
    /// The rank of this number.
    Rank(u32),
}

/// The tests, in the order in which they are made at one place.
///
/// An entry goes through all of its tests before the next entry. `Updates`, `Tally` and `Pairs` look at a shard as a whole,
/// behind its last entry, and `Events` comes after them. The last three are those of a rank.
#[derive(Clone, Copy, PartialEq, Eq, Debug)]
pub enum Test {
    /// The entry's call belongs to this shard.
    Shard,
    /// The entry stands after the one before it.
    Order,
    /// The entry goes on with a batch that is begun, or begins a block where none is; behind the last entry none is begun.
    Batch,
    /// The entry's place is the number of updates before it.
    At,
    /// The entry's reply is what one thread gets.
    Reply,
    /// As many updates are told as there are.
    Updates,
    /// In a run the tallies of the queues keep the budgets and count the tenures; in a replay they count the events.
    Tally,
    /// The pairs of a run are the table after all entries.
    Pairs,
    /// Up to this event of a replay no writer is beside another holder, and no queue is passed more often than its budget.
    Events,
    /// One entry of the rank has this number, and it is what the rank asked for.
    Calls,
    /// The entry looks at no fewer updates than the rank's entry before it on that shard, and at more where that is an update.
    Fresh,
    /// The rank has done as many calls as it has entries, was given as many as the file has, and ends where it may: a run
    /// behind the last call, a replay not inside a batch.
    Done,
}

impl Test {
    /// The test's name in small letters, as a line of a fault has it.
    pub fn word(self) -> &'static str
        ensures { result.now ≡ test_word self }
    {
        match self {
            Test::Shard => "shard",
            Test::Order => "order",
            Test::Batch => "batch",
            Test::At => "at",
            Test::Reply => "reply",
            Test::Updates => "updates",
            Test::Tally => "tally",
            Test::Pairs => "pairs",
            Test::Events => "events",
            Test::Calls => "calls",
            Test::Fresh => "fresh",
            Test::Done => "done",
        }
    }
}

/// A fault: the first test that fails, of those that were made.
#[derive(Clone, Copy, PartialEq, Eq, Debug)]
pub struct Illegal {
    /// The shard or the rank that fails it.
    pub group: Group,
    /// Where it fails: the number of the shard's entry or event, or of the rank's call, from 0. For a test that looks at all
    /// entries it is the number of them.
    pub place: u32,
    /// The test.
    pub test: Test,
}
