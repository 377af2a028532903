//! Readers of the lines of a shard, one section after the other.
ghost use Rattle.std.specs.Prelude.{◌≡◌};
ghost use Rattle.rl_text.specs.Reading.{GivesLeaving, seen};
ghost use Rattle.rl_report.specs.Reading.{entries_next, tallies_next, pairs_next, events_next, shard_next};

use crate::entry_reader::entry_of;
use crate::event_reader::event_of;
use crate::line_reader::{pair_of, shard_of, tally_of};
use crate::naming::{Naming, QueueName};
use crate::report::ShardReport;
use crate::version::Version;
use rl_model::Entry;
use rl_step::{Event, Tally};
use rl_text::{Lines, TextErr};
use std::alloc::Global;

// So many lines of entries.
fn entries_of(
    alloc: Global,
    lines: &mut Lines<'_>,
    naming: &Naming,
    version: Version,
    shard: u32,
    count: u32,
) -> Result<Vec<Entry>, TextErr>
    ensures { GivesLeaving (seen (λ entries. entries.items) result) lines.new (entries_next naming.now version shard count lines.old) }
{
    let mut entries = Vec::new(alloc);
    for _ in 0..count {
        let line = lines.next_whole()?;
        let entry = entry_of(&line, naming, version, shard)?;
        entries.push(entry)?;
    }
    Ok(entries)
}

// A line for each queue of the lock.
fn tallies_of(
    alloc: Global,
    lines: &mut Lines<'_>,
    queues: &[QueueName],
) -> Result<Vec<Tally>, TextErr>
    ensures { GivesLeaving (seen (λ tallies. tallies.items) result) lines.new (tallies_next queues.now lines.old) }
{
    let mut tallies = Vec::new(alloc);
    for queue in queues {
        let line = lines.next_whole()?;
        let tally = tally_of(&line, queue)?;
        tallies.push(tally)?;
    }
    Ok(tallies)
}

// The pairs of a run; a replay has none.
fn pairs_of(alloc: Global, lines: &mut Lines<'_>, replay: bool) -> Result<Vec<(u64, u64)>, TextErr>
    ensures { GivesLeaving (seen (λ pairs. pairs.items) result) lines.new (pairs_next replay lines.old) }
{
    let mut pairs = Vec::new(alloc);
    if replay {
        return Ok(pairs);
    }
    let mut last = None;
    while lines.next_begins(b"pair") {
        let line = lines.next_whole()?;
        let pair = pair_of(&line, last)?;
        last = Some(pair.0);
        pairs.push(pair)?;
    }
    Ok(pairs)
}

// The events of a replay; a run has none.
fn events_of(
    alloc: Global,
    lines: &mut Lines<'_>,
    naming: &Naming,
    replay: bool,
) -> Result<Vec<(u32, Event)>, TextErr>
    ensures { GivesLeaving (seen (λ events. events.items) result) lines.new (events_next naming.now replay lines.old) }
{
    let mut events = Vec::new(alloc);
    if !replay {
        return Ok(events);
    }
    let mut least = 0;
    while lines.next_begins(b"event") {
        let line = lines.next_whole()?;
        let event = event_of(&line, naming, least)?;
        least = event.0;
        events.push(event)?;
    }
    Ok(events)
}

/// The part of one shard.
#[tactic(auto, unfolding(crate::specs::Reading::shard_next))]
pub fn next_shard(
    alloc: Global,
    lines: &mut Lines<'_>,
    naming: &Naming,
    version: Version,
    replay: bool,
    number: u32,
) -> Result<ShardReport, TextErr>
    ensures { GivesLeaving result lines.new (shard_next naming.now version replay number lines.old) }
{
    let line = lines.next_whole()?;
    let (updates, count) = shard_of(&line, number)?;
    let entries = entries_of(alloc, lines, naming, version, number, count)?;
    let queues = tallies_of(alloc, lines, naming.queues.as_slice())?;
    let pairs = pairs_of(alloc, lines, replay)?;
    let events = events_of(alloc, lines, naming, replay)?;
    Ok(ShardReport {
        updates,
        entries,
        queues,
        pairs,
        events,
    })
}
