//! The verdict on a report, in words.
ghost use Rattle.std.specs.Prelude.{◌≡◌, ◌<◌};
ghost use Rattle.rl_place.specs.Places.{IsProper};

use crate::entries::reason_of_entry;
use crate::events::{queue_of_event, reason_of_event};
use crate::places::{behind_queues, entry_line};
use crate::ranks::reason_of_rank;
use crate::reasons::Reason;
use crate::shards::reason_of_shard;
use crate::spelling::SpelledCall;
use rl_check::{Group, Illegal, Queues, Test};
use rl_explain::Quoted;
use rl_model::Call;
use rl_ops::Ops;
use rl_place::Place;
use rl_report::{Naming, Report, ShardReport};
use std::alloc::{AllocError as OutOfMemory, Global};
use std::fmt;

/// What of a report fails a test.
#[derive(Clone, Copy)]
pub enum Of {
    /// The entry of this number of a shard, with its call.
    Entry(u32, u32, Call),
    /// The event of this number of a shard.
    Event(u32, u32),
    /// All of a shard.
    Shard(u32),
    /// A rank.
    Rank(u32),
}

/// The line of the report that is wrong, what stands there, the queue if it is of one, and why.
#[derive(Clone, Copy)]
pub struct Verdict<'a> {
    pub line: usize,
    pub of: Of,
    pub queue: Option<&'a [u8]>,
    pub reason: Reason,
}

impl fmt::Display for Of {
    fn fmt<W: fmt::Write>(&self, f: &mut fmt::Formatter<W>) -> fmt::Result {
        match *self {
            Of::Entry(number, shard, call) => {
                let call = SpelledCall(call);
                write!(f, "entry {number} of shard {shard}, {call}")
            }
            Of::Event(number, shard) => write!(f, "event {number} of shard {shard}"),
            Of::Shard(shard) => write!(f, "shard {shard}"),
            Of::Rank(rank) => write!(f, "rank {rank}"),
        }
    }
}

/// Writes the name of a queue, if there is one.
fn write_queue<W: fmt::Write>(f: &mut fmt::Formatter<W>, queue: Option<&[u8]>) -> fmt::Result {
    match queue {
        Some(name) => {
            let name = Quoted(name);
            write!(f, ": queue {name}")
        }
        None => Ok(()),
    }
}

impl fmt::Display for Verdict<'_> {
    fn fmt<W: fmt::Write>(&self, f: &mut fmt::Formatter<W>) -> fmt::Result {
        let line = self.line;
        let of = self.of;
        let reason = self.reason;
        write!(f, "line {line}: {of}")?;
        write_queue(f, self.queue)?;
        write!(f, ": {reason}")
    }
}

/// The name of a queue.
fn name_of(naming: &Naming, queue: Option<usize>) -> Option<&[u8]> {
    let queue = naming.queues.get(queue?)?;
    Some(queue.word.as_slice())
}

/// Whether a test is one of an entry.
fn is_of_entry(test: Test) -> bool {
    matches!(
        test,
        Test::Shard | Test::Order | Test::Batch | Test::At | Test::Reply
    )
}

/// What the entry at a place is.
fn entry_at(part: &ShardReport, shard: u32, at: u32) -> Of {
    match part.entries.get(at as usize) {
        Some(entry) => Of::Entry(at, shard, entry.call),
        None => Of::Shard(shard),
    }
}

/// Why an entry of a shard fails a test of its own.
fn of_entry<'a>(
    alloc: Global,
    place: &Place,
    report: &Report,
    part: &ShardReport,
    shard: u32,
    at: u32,
    test: Test,
) -> Result<Verdict<'a>, OutOfMemory>
    requires { IsProper place.now }
{
    let entries = part.entries.as_slice();
    let reason = reason_of_entry(alloc, place.geom, report, shard, entries, at as usize, test)?;
    let last = part.entries.len().saturating_sub(1);
    Ok(Verdict {
        line: entry_line(report, shard as usize, last.min(at as usize)),
        of: entry_at(part, shard, at),
        queue: None,
        reason,
    })
}

/// Why a shard fails a test of its events, or one that looks at all of it.
fn of_shard<'a>(
    alloc: Global,
    place: &Place,
    naming: &'a Naming,
    report: &Report,
    part: &ShardReport,
    shard: u32,
    at: u32,
    test: Test,
) -> Result<Verdict<'a>, OutOfMemory>
    requires proper { IsProper place.now }
    requires there { shard < place.now.geom.shards }
{
    let shape = place.shape(alloc)?;
    let queues = Queues::of(place, &shape, shard);
    if test == Test::Events {
        let events = part.events.as_slice();
        let queue = queue_of_event(events, at as usize);
        return Ok(Verdict {
            line: behind_queues(report, shard as usize, at as usize),
            of: Of::Event(at, shard),
            queue: name_of(naming, queue.map(|queue| queue as usize)),
            reason: reason_of_event(&queues, report, shard as usize, events, at as usize),
        });
    }
    let told = reason_of_shard(
        alloc,
        place.geom,
        &queues,
        report,
        shard as usize,
        part,
        test,
    )?;
    Ok(Verdict {
        line: told.line,
        of: Of::Shard(shard),
        queue: name_of(naming, told.queue),
        reason: told.reason,
    })
}

/// Why a shard fails this test.
fn on_shard<'a>(
    alloc: Global,
    place: &Place,
    naming: &'a Naming,
    report: &Report,
    shard: u32,
    at: u32,
    test: Test,
) -> Result<Option<Verdict<'a>>, OutOfMemory>
    requires { IsProper place.now }
{
    let Some(part) = report.shards.get(shard as usize) else {
        return Ok(None);
    };
    if is_of_entry(test) {
        return Ok(Some(of_entry(alloc, place, report, part, shard, at, test)?));
    }
    if shard >= place.geom.shards {
        return Ok(None);
    }
    Ok(Some(of_shard(alloc, place, naming, report, part, shard, at, test)?))
}

/// What the first fault of a report comes to. The placement is a proper one, whose names these are; calls and report are of it.
///
/// # Errors
///
/// Want of memory.
pub fn explain_fault<'a>(
    alloc: Global,
    place: &Place,
    naming: &'a Naming,
    ops: &Ops,
    report: &Report,
    fault: Illegal,
) -> Result<Option<Verdict<'a>>, OutOfMemory>
    requires { IsProper place.now }
{
    let Illegal {
        group,
        place: at,
        test,
    } = fault;
    match group {
        Group::Shard(shard) => on_shard(alloc, place, naming, report, shard, at, test),
        Group::Rank(rank) => {
            let told = reason_of_rank(ops, report, rank, at, test);
            Ok(Some(Verdict {
                line: told.line,
                of: Of::Rank(rank),
                queue: None,
                reason: told.reason,
            }))
        }
    }
}
