//! The lines of the files, and what is known where one of them is read.

use rl_place::Place;
use rl_report::Naming;
use rl_word::LockName;

/// A line, by what it has to be.
#[derive(Clone, Copy, PartialEq, Eq, Debug)]
pub enum LineKind {
    PlaceHead,
    Levels,
    Lock,
    Cohorts,
    Budgets,
    Writers,
    Readers,
    Group,
    Shards,
    Buckets,
    Overflow,
    FirstRank,
    Rank,
    Home,
    CallsHead,
    Call,
    Part,
    ScheduleHead,
    Turn,
    Stop,
    ReportHead,
    Mode,
    Sizes,
    Shard,
    Entry,
    Queue,
    Pair,
    Event,
    Done,
    Steps,
    End,
}

impl LineKind {
    /// The form of such a line, as the page of the files has it.
    pub fn form(self) -> &'static str {
        match self {
            LineKind::PlaceHead => "rmalock-place 1",
            LineKind::Levels => "levels L",
            LineKind::Lock => "lock NAME",
            LineKind::Cohorts => "budget LOCAL REMOTE",
            LineKind::Budgets => "budget B1 .. BL",
            LineKind::Writers => "writers W",
            LineKind::Readers => "readers R",
            LineKind::Group => "group G",
            LineKind::Shards => "shards S",
            LineKind::Buckets => "buckets B",
            LineKind::Overflow => "overflow O",
            LineKind::FirstRank | LineKind::Rank => "rank K at PATH",
            LineKind::Home => "home I PATH",
            LineKind::CallsHead => "rmalock-calls 1",
            LineKind::Call | LineKind::Part => "RANK CALL",
            LineKind::ScheduleHead => "rmalock-schedule 1",
            LineKind::Turn => "RANK COUNT",
            LineKind::Stop => "stop RANK",
            LineKind::ReportHead => "rmalock-report 2",
            LineKind::Mode => "replay LOCK",
            LineKind::Sizes => "ranks R shards S",
            LineKind::Shard => "shard I updates U entries N",
            LineKind::Entry => "entry AT RANK SEQ CALL = REPLY",
            LineKind::Queue => "queue NAME settled X passed Y",
            LineKind::Pair => "pair KEY VALUE",
            LineKind::Event => "event STEP EVENT",
            LineKind::Done => "rank K done D of C",
            LineKind::Steps => "steps T moved M waiting W lost L busy Z finished F",
            LineKind::End => "end",
        }
    }
}

/// What the placement and the lines before tell, as far as a line's words go by it.
#[derive(Clone, Copy)]
pub struct Known<'a> {
    /// How many numbers a path has.
    pub levels: u32,
    pub lock: LockName,
    pub ranks: u32,
    pub shards: u32,
    /// The number that a count of lines has reached: of a rank, a shard or a home.
    pub next: u32,
    /// What there may still be: steps of a schedule, or calls of a batch.
    pub left: u32,
    /// The rank of a batch, and the shard of its first key.
    pub rank: u32,
    pub shard: Option<u32>,
    /// Whether it is a file of the second version.
    pub second: bool,
    /// The step of the event before, or the key of the pair before.
    pub least: u64,
    /// Whether the report is one of a replay, and the shard of it that is being read.
    pub replay: bool,
    pub part: u32,
    /// Whether an event or a pair may stand here too.
    pub more: bool,
    /// The names of the queues.
    pub naming: Option<&'a Naming>,
}

impl<'a> Known<'a> {
    /// What a placement tells.
    pub fn of(place: &Place) -> Known<'a> {
        Known {
            levels: place.levels,
            lock: place.lock.name(),
            ranks: u32::try_from(place.paths.len()).unwrap_or(u32::MAX),
            shards: place.geom.shards,
            ..Known::nothing()
        }
    }

    /// Nothing is known before a placement.
    pub fn nothing() -> Known<'a> {
        Known {
            levels: 1,
            lock: LockName::Spin,
            ranks: 0,
            shards: 1,
            next: 0,
            left: 0,
            rank: 0,
            shard: None,
            second: false,
            least: 0,
            replay: false,
            part: 0,
            more: false,
            naming: None,
        }
    }
}

/// Where a reader stands: before a line of this kind, with what is known there.
#[derive(Clone, Copy)]
pub struct Standing<'a> {
    pub kind: LineKind,
    pub known: Known<'a>,
}

impl<'a> Standing<'a> {
    /// The same place, where a line of another kind may stand.
    pub fn with(self, kind: LineKind) -> Standing<'a> {
        Standing { kind, ..self }
    }

    /// The same place, where a count of lines begins.
    pub fn counting(self, kind: LineKind) -> Standing<'a> {
        self.reaching(kind, 0)
    }

    /// The same place, where a count of lines has come to this number.
    pub fn reaching(self, kind: LineKind, next: u32) -> Standing<'a> {
        let known = Known { next, ..self.known };
        Standing { kind, known }
    }
}
