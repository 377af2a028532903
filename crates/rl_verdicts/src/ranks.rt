//! Why a rank fails one of its tests.

use crate::places::{entry_line, rank_line};
use crate::reasons::Reason;
use crate::shards::Told;
use rl_check::Test;
use rl_model::{Call, Entry};
use rl_ops::Ops;
use rl_report::{Done, Report};

/// An entry, and its line.
#[derive(Clone, Copy)]
struct Placed {
    line: usize,
    entry: Entry,
}

/// The entries of one number of a rank, as far as the second.
#[derive(Clone, Copy)]
struct Numbered {
    first: Option<Placed>,
    second: Option<Placed>,
}

impl Numbered {
    // An entry more.
    fn with(self, placed: Placed) -> Numbered {
        match (self.first, self.second) {
            (None, _) => Numbered {
                first: Some(placed),
                ..self
            },
            (_, None) => Numbered {
                second: Some(placed),
                ..self
            },
            _ => self,
        }
    }
}

/// The entries of a shard that have this number among a rank's, behind some.
fn on_shard(
    report: &Report,
    shard: usize,
    entries: &[Entry],
    rank: u32,
    number: u32,
    so_far: Numbered,
) -> Numbered {
    let mut found = so_far;
    for (at, entry) in entries.iter().enumerate() {
        if entry.rank == rank && entry.seq == number {
            let line = entry_line(report, shard, at);
            found = found.with(Placed {
                line,
                entry: *entry,
            });
        }
    }
    found
}

/// The entries that have this number among a rank's.
fn entries_numbered(report: &Report, rank: u32, number: u32) -> Numbered {
    let mut found = Numbered {
        first: None,
        second: None,
    };
    for (shard, part) in report.shards.iter().enumerate() {
        found = on_shard(report, shard, part.entries.as_slice(), rank, number, found);
    }
    found
}

/// How many entries a rank has.
fn entries_of(report: &Report, rank: u32) -> usize {
    let mut count = 0usize;
    for part in report.shards.iter() {
        for entry in part.entries.iter() {
            count = count.saturating_add(usize::from(entry.rank == rank));
        }
    }
    count
}

/// The calls that a rank asks for.
fn calls_of(ops: &Ops, rank: u32) -> &[Call] {
    match ops.by_rank.as_slice().get(rank as usize) {
        Some(calls) => calls.as_slice(),
        None => &[],
    }
}

/// The part and the size of the batch of a call, by the sizes of its rank's calls.
fn part_due(ops: &Ops, rank: u32, number: usize) -> (u32, u32) {
    let mut due = (0u32, 0u32);
    let Some(sizes) = ops.sizes.as_slice().get(rank as usize) else {
        return due;
    };
    for size in sizes.iter().take(number.saturating_add(1)) {
        due = match *size {
            0 => (due.0.saturating_add(1), due.1),
            1 => (0, 0),
            batch => (0, batch),
        };
    }
    due
}

/// Why an entry isn't what the rank asked for.
fn other(ops: &Ops, rank: u32, number: u32, placed: Placed, due: Call) -> Told {
    let Placed { line, entry } = placed;
    if entry.call != due {
        return Told::on(line, Reason::OtherCall(entry.call, due));
    }
    let part = part_due(ops, rank, number as usize);
    Told::on(line, Reason::OtherPart((entry.part, entry.batch), part))
}

/// Why the call of this number isn't told once, as it was asked for.
fn called(ops: &Ops, report: &Report, rank: u32, number: u32) -> Told {
    let calls = calls_of(ops, rank);
    let line = rank_line(report, rank as usize);
    let Some(due) = calls.get(number as usize) else {
        return Told::on(line, Reason::TooMany(entries_of(report, rank), calls.len()));
    };
    let found = entries_numbered(report, rank, number);
    match (found.first, found.second) {
        (None, _) => Told::on(line, Reason::NoEntry(number, *due)),
        (Some(first), Some(second)) => Told::on(
            second.line,
            Reason::Twice(number, first.line, second.line),
        ),
        (Some(first), None) => other(ops, rank, number, first, *due),
    }
}

/// The entry of a rank's last call before this number on a shard.
fn last_before(report: &Report, shard: usize, rank: u32, number: u32) -> Option<Placed> {
    let mut last: Option<Placed> = None;
    let part = report.shards.get(shard)?;
    for (at, entry) in part.entries.iter().enumerate() {
        if entry.rank == rank && entry.seq < number {
            let is_later = match last {
                Some(last) => last.entry.seq < entry.seq,
                None => true,
            };
            if is_later {
                last = Some(Placed {
                    line: entry_line(report, shard, at),
                    entry: *entry,
                });
            }
        }
    }
    last
}

/// Why an entry isn't behind its rank's entry before it on the shard.
fn stale(report: &Report, rank: u32, number: u32) -> Told {
    let Some(placed) = entries_numbered(report, rank, number).first else {
        return Told::on(rank_line(report, rank as usize), Reason::Unknown);
    };
    match last_before(report, placed.entry.shard as usize, rank, number) {
        Some(last) => {
            let due = last
                .entry
                .at
                .saturating_add(u32::from(last.entry.call.is_update()));
            Told::on(placed.line, Reason::Stale(placed.entry.at, due, last.line))
        }
        None => Told::on(placed.line, Reason::Unknown),
    }
}

/// Why what is told of a rank isn't what its entries come to.
fn done_due(ops: &Ops, report: &Report, rank: u32) -> Reason {
    let Some(told) = report.done.get(rank as usize) else {
        return Reason::Unknown;
    };
    let Done { done, given } = *told;
    let calls = calls_of(ops, rank).len();
    let entries = entries_of(report, rank);
    let counts = done as usize == entries && given as usize == calls;
    match (counts, report.steps.is_some()) {
        (false, _) => Reason::Done((done, given), (entries, calls)),
        (true, true) => Reason::InsideBatch(entries),
        (true, false) => Reason::Done((done, given), (calls, calls)),
    }
}

/// Why a rank fails this test at its call of this number.
pub fn reason_of_rank(ops: &Ops, report: &Report, rank: u32, number: u32, test: Test) -> Told {
    match test {
        Test::Calls => called(ops, report, rank, number),
        Test::Fresh => stale(report, rank, number),
        _ => Told::on(
            rank_line(report, rank as usize),
            done_due(ops, report, rank),
        ),
    }
}
