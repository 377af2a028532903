//! Why a shard fails a test that looks at all of it.
ghost use Rattle.std.specs.Prelude.{◌≡◌, ◌<◌, false, length};
ghost use Rattle.rl_model.specs.Geom.{GeomFits};
ghost use Rattle.rl_word.specs.Shapes.{IsProper};
ghost use Rattle.rl_check.specs.QueuesOf.{queue_of};

use crate::entries::updates_among;
use crate::places::{behind_queues, queue_line, shard_line};
use crate::reasons::Reason;
use rl_check::{Queues, Test, one_thread};
use rl_model::Geom;
use rl_report::{Report, ShardReport, tallies, within};
use rl_step::Tally;
use std::alloc::{AllocError as OutOfMemory, Global};

/// A line of the report, the queue that it tells of, if it tells of one, and why what it tells isn't due.
#[derive(Clone, Copy)]
pub struct Told {
    pub line: usize,
    pub queue: Option<usize>,
    pub reason: Reason,
}

impl Told {
    /// What a line tells that is of no queue.
    pub fn on(line: usize, reason: Reason) -> Told {
        Told {
            line,
            queue: None,
            reason,
        }
    }
}

/// How often the queues of a queue's elements were settled.
fn settled_below(queues: &Queues<'_>, queue: usize, tallies: &[Tally]) -> u64
    requires { (queue_of queues.now queue).of_ranks ≡ false }
{
    let mut sum = 0u64;
    for element in 0..tallies.len() {
        if queues.has_element(queue, element) {
            sum = sum.saturating_add(tallies[element].settled);
        }
    }
    sum
}

/// How many tenures of a queue are told.
fn tenures(queues: &Queues<'_>, queue: usize, part: &ShardReport) -> u64
    requires { IsProper queues.now.shape.now }
{
    if queues.of_ranks(queue) {
        return queues.had_by_ranks(queue, part.entries.as_slice()) as u64;
    }
    settled_below(queues, queue, part.queues.as_slice())
}

/// Why the tally of a queue of a run isn't due.
fn wrong_tally(queues: &Queues<'_>, part: &ShardReport, queue: usize, tally: Tally) -> Reason
    requires { IsProper queues.now.shape.now }
{
    let Tally { settled, passed } = tally;
    match queues.budget(queue) {
        Some(budget) if !within(tally, budget) => Reason::Budget(settled, passed, budget),
        _ => Reason::Tenures(settled, passed, tenures(queues, queue, part)),
    }
}

/// The first queue of a run whose tally isn't due.
fn tallied(queues: &Queues<'_>, report: &Report, shard: usize, part: &ShardReport) -> Told
    requires { IsProper queues.now.shape.now }
{
    let tallies = part.queues.as_slice();
    for queue in 0..tallies.len() {
        if !queues.is_tallied(queue, part.entries.as_slice(), tallies) {
            let reason = wrong_tally(queues, part, queue, tallies[queue]);
            let line = queue_line(report, shard, queue);
            let queue = Some(queue);
            return Told {
                line,
                queue,
                reason,
            };
        }
    }
    Told::on(shard_line(report, shard), Reason::Unknown)
}

/// The first queue of a replay whose tally isn't that of its events.
fn counted(
    alloc: Global,
    report: &Report,
    shard: usize,
    part: &ShardReport,
) -> Result<Told, OutOfMemory> {
    let count = u32::try_from(part.queues.len()).unwrap_or(0);
    let counts = tallies(alloc, count, part.events.as_slice())?;
    for (queue, told) in part.queues.iter().enumerate() {
        match counts.get(queue) {
            Some(due) if told != due => {
                let told = (told.settled, told.passed);
                let due = (due.settled, due.passed);
                return Ok(Told {
                    line: queue_line(report, shard, queue),
                    queue: Some(queue),
                    reason: Reason::Counted(told, due),
                });
            }
            _ => {}
        }
    }
    Ok(Told::on(shard_line(report, shard), Reason::Unknown))
}

/// Where the first pair is that one list has and the other hasn't, and both.
fn first_pair(pairs: &[(u64, u64)], due: &[(u64, u64)]) -> (usize, Reason) {
    for place in 0..due.len() {
        let told = pairs.get(place).copied();
        if told != Some(due[place]) {
            return (place, Reason::Pair(told, Some(due[place])));
        }
    }
    (due.len(), Reason::Pair(pairs.get(due.len()).copied(), None))
}

/// The first pair of a run that the table doesn't hold, or that isn't told.
fn paired(
    alloc: Global,
    geom: Geom,
    report: &Report,
    shard: usize,
    part: &ShardReport,
) -> Result<Told, OutOfMemory>
    requires { GeomFits geom }
{
    let told = one_thread(alloc, geom, part.entries.as_slice())?;
    let due = told.table.pairs(alloc)?;
    let (place, reason) = first_pair(part.pairs.as_slice(), due.as_slice());
    Ok(Told::on(behind_queues(report, shard, place), reason))
}

/// Why a shard fails this test, which looks at all of its entries.
pub fn reason_of_shard(
    alloc: Global,
    geom: Geom,
    queues: &Queues<'_>,
    report: &Report,
    shard: usize,
    part: &ShardReport,
    test: Test,
) -> Result<Told, OutOfMemory>
    requires geom { GeomFits geom }
    requires proper { IsProper queues.now.shape.now }
{
    match test {
        Test::Updates => {
            let updates = updates_among(part.entries.as_slice());
            Ok(Told::on(
                shard_line(report, shard),
                Reason::Updates(part.updates, updates),
            ))
        }
        Test::Tally if report.steps.is_some() => counted(alloc, report, shard, part),
        Test::Tally => Ok(tallied(queues, report, shard, part)),
        _ => paired(alloc, geom, report, shard, part),
    }
}
