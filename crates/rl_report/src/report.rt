//! The value of a report.

use rl_model::Entry;
use rl_step::{Event, Steps, Tally};
use std::marker::Model;

/// One shard's part of a report.
#[derive(Drop)]
pub struct ShardReport {
    /// How many updates the shard had.
    pub updates: u32,
    /// Its history: every call that was done on it, in the order of [`merge`](crate::merge).
    pub entries: Vec<Entry>,
    /// The tally of each queue of its lock, by number.
    pub queues: Vec<Tally>,
    /// What its table held in the end, by rising key; of a run alone.
    pub pairs: Vec<(u64, u64)>,
    /// What happened on it, each event with the number of its step; of a replay alone, and without touches.
    pub events: Vec<(u32, Event)>,
}

impl Model for ShardReport {
    ghost use Rattle.rl_report.specs.Reports.{TheShard};

    ghost Value = { TheShard };

    ghost view = { λ s.
        record { updates = s.updates; entries = s.entries.items; queues = s.queues.items; pairs = s.pairs.items; events = s.events.items } };
}

/// How many calls a rank has done, and how many it was given.
#[derive(Clone, Copy, PartialEq, Eq, Debug)]
pub struct Done {
    pub done: u32,
    pub given: u32,
}

/// What a replay or a run came to.
///
/// Which reports are proper for a placement is said by `ReportFits` of `specs/Reports.antt`.
#[derive(Drop)]
pub struct Report {
    /// By the shards' numbers.
    pub shards: Vec<ShardReport>,
    /// By the ranks' numbers.
    pub done: Vec<Done>,
    /// How often each answer came: `Some` in a replay, `None` in a run.
    pub steps: Option<Steps>,
}

impl Model for Report {
    ghost use Rattle.rl_report.specs.Reports.{TheReport};

    ghost Value = { TheReport };

    ghost view = { λ r. record { shards = r.shards.items; done = r.done.items; steps = r.steps } };
}
