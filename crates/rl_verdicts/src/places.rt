//! Where the parts of a report stand in its text, as lines counted from 1.

use rl_report::{Report, ShardReport};

/// How many lines the part of a shard has.
fn lines_of(part: &ShardReport) -> usize {
    part.entries
        .len()
        .saturating_add(part.queues.len())
        .saturating_add(part.pairs.len())
        .saturating_add(part.events.len())
        .saturating_add(1)
}

/// The line that begins the part of a shard, behind three lines and the parts before it.
pub fn shard_line(report: &Report, shard: usize) -> usize {
    let mut line = 4usize;
    for part in report.shards.iter().take(shard) {
        line = line.saturating_add(lines_of(part));
    }
    line
}

/// The line of an entry of a shard.
pub fn entry_line(report: &Report, shard: usize, entry: usize) -> usize {
    shard_line(report, shard)
        .saturating_add(1)
        .saturating_add(entry)
}

/// The line of a queue of a shard.
pub fn queue_line(report: &Report, shard: usize, queue: usize) -> usize {
    let entries = match report.shards.get(shard) {
        Some(part) => part.entries.len(),
        None => 0,
    };
    entry_line(report, shard, entries).saturating_add(queue)
}

/// The line of a pair or of an event of a shard, by its number there. A report has no pairs or no events.
pub fn behind_queues(report: &Report, shard: usize, number: usize) -> usize {
    let queues = match report.shards.get(shard) {
        Some(part) => part.queues.len(),
        None => 0,
    };
    queue_line(report, shard, queues).saturating_add(number)
}

/// The line of a rank.
pub fn rank_line(report: &Report, rank: usize) -> usize {
    shard_line(report, report.shards.len()).saturating_add(rank)
}
