//! Reports worked out by hand: built, printed and read back.

use crate::faults::{Form, LineRow, all_lines_refused, with_line};
use crate::report_texts::{
    ALOCK_REPORT, BATCH_REPORT, DMCS, DMCS_REPORT, GREATEST_REPORT, LOOKS_REPORT, RUN_REPORT,
    SHARDS, SHARDS_REPORT, SPIN_REPORT, TREE_REPORT,
};
use crate::samples::{ALOCK, SPIN, TREE, place_of, put};
use rl_model::{Call, Entry, Reply};
use rl_report::{Done, Report, ShardReport, read_report, report_text, tallies};
use rl_step::{Event, Steps, Tally};
use rl_text::{TEXT_LIMIT, TextErr, Why};
use std::alloc::{AllocError as OutOfMemory, Global};
use std::process::Abort;
use std::test::*;

/// The report of a placement that a text spells.
fn report_of(alloc: Global, place: &str, text: &[u8]) -> Result<Report, TextErr> {
    let place = place_of(alloc, place.as_bytes())?;
    if text.len() >= TEXT_LIMIT as usize {
        return Err(TextErr::Memory);
    }
    read_report(alloc, &place, text)
}

fn printed(alloc: Global, place: &str, report: &Report) -> Result<Vec<u8>, TextErr> {
    let place = place_of(alloc, place.as_bytes())?;
    Ok(report_text(alloc, &place, report)?)
}

fn same_shard(a: &ShardReport, b: &ShardReport) -> bool {
    a.updates == b.updates
        && a.entries.as_slice() == b.entries.as_slice()
        && a.queues.as_slice() == b.queues.as_slice()
        && a.pairs.as_slice() == b.pairs.as_slice()
        && a.events.as_slice() == b.events.as_slice()
}

fn same_report(a: &Report, b: &Report) -> bool {
    a.shards.len() == b.shards.len()
        && a.shards
            .iter()
            .zip(b.shards.iter())
            .all(|(x, y)| same_shard(x, y))
        && a.done.as_slice() == b.done.as_slice()
        && a.steps == b.steps
}

/// The report has this text, and the text is read as the report.
fn stands(
    rt: &(impl Abort + AllocGlobal),
    place: &str,
    report: &Report,
    text: &str,
) -> Result<(), Fail> {
    let made = printed(rt.alloc(), place, report)?;
    assert_eq!(rt; made.as_slice(), text.as_bytes());
    let back = report_of(rt.alloc(), place, text.as_bytes())?;
    assert!(rt; same_report(&back, report));
    Ok(())
}

fn steps(moved: u32, waiting: u32, lost: u32) -> Option<Steps> {
    Some(Steps {
        moved,
        waiting,
        lost,
        busy: 0,
        finished: 0,
    })
}

fn held(rank: u32) -> Entry {
    Entry {
        rank,
        ..Entry::default()
    }
}

/// So many settlements and passes.
pub fn tally(settled: u64, passed: u64) -> Tally {
    Tally { settled, passed }
}

fn done(done: u32, given: u32) -> Done {
    Done { done, given }
}

fn join(queue: u32, member: u32) -> Event {
    Event::Join { queue, member }
}

fn pass(queue: u32, member: u32) -> Event {
    Event::Pass { queue, member }
}

fn settle(queue: u32, member: u32) -> Event {
    Event::Settle { queue, member }
}

fn enter(rank: u32) -> Event {
    Event::EnterW { rank }
}

fn leave(rank: u32) -> Event {
    Event::LeaveW { rank }
}

/// A report of one shard.
fn report(
    alloc: Global,
    shard: ShardReport,
    done: &[Done],
    steps: Option<Steps>,
) -> Result<Report, OutOfMemory> {
    let mut shards = Vec::new(alloc);
    shards.push(shard)?;
    Ok(Report {
        shards,
        done: Vec::from_slice(alloc, done)?,
        steps,
    })
}

/// The part of a shard in a replay.
fn replayed(
    alloc: Global,
    updates: u32,
    entries: &[Entry],
    queues: &[Tally],
    events: &[(u32, Event)],
) -> Result<ShardReport, OutOfMemory> {
    Ok(ShardReport {
        updates,
        entries: Vec::from_slice(alloc, entries)?,
        queues: Vec::from_slice(alloc, queues)?,
        pairs: Vec::new(alloc),
        events: Vec::from_slice(alloc, events)?,
    })
}

#[test]
fn one_rank_holds_once(rt: HostRuntime) -> Result<(), Fail> {
    // The touch has no line.
    let touch = Event::Touch {
        rank: 0,
        write: true,
    };
    let events = [(2, enter(0)), (3, touch), (4, leave(0))];
    let with_touch = replayed(rt.alloc(), 0, &[held(0)], &[], &events)?;
    let with_touch = report(rt.alloc(), with_touch, &[done(1, 1)], steps(9, 0, 0))?;
    let text = printed(rt.alloc(), SPIN, &with_touch)?;
    assert_eq!(rt; text.as_slice(), SPIN_REPORT.as_bytes());
    let events = [(2, enter(0)), (4, leave(0))];
    let shard = replayed(rt.alloc(), 0, &[held(0)], &[], &events)?;
    let value = report(rt.alloc(), shard, &[done(1, 1)], steps(9, 0, 0))?;
    stands(&rt, SPIN, &value, SPIN_REPORT)
}

/// An entry of rank 0 on shard 0, where as many calls as updates were made before.
pub fn update(call: Call, place: u32, reply: Reply) -> Entry {
    Entry {
        seq: place,
        call,
        at: place,
        reply,
        ..Entry::default()
    }
}

fn run_entries() -> [Entry; 6] {
    [
        update(put(0, 1), 0, Reply::New),
        update(put(1, 2), 1, Reply::New),
        update(put(2, 3), 2, Reply::Full),
        update(put(1, 9), 3, Reply::Was(2)),
        update(Call::Del { key: 0 }, 4, Reply::Was(1)),
        update(put(2, 3), 5, Reply::New),
    ]
}

// The text of a run in the first version is read too, and all are printed in the second.
#[test]
fn a_run_in_both_versions(rt: HostRuntime) -> Result<(), Fail> {
    let shard = ShardReport {
        updates: 6,
        entries: Vec::from_slice(rt.alloc(), &run_entries())?,
        queues: Vec::new(rt.alloc()),
        pairs: Vec::from_slice(rt.alloc(), &[(1, 9), (2, 3)])?,
        events: Vec::new(rt.alloc()),
    };
    let value = report(rt.alloc(), shard, &[done(6, 6)], None)?;
    let old = with_line(rt.alloc(), RUN_REPORT.as_bytes(), 1, "rmalock-report 1")?;
    let back = report_of(rt.alloc(), SPIN, &old)?;
    assert!(rt; same_report(&back, &value));
    stands(&rt, SPIN, &value, RUN_REPORT)
}

#[test]
fn leaver_waits_for_the_link(rt: HostRuntime) -> Result<(), Fail> {
    let events = [
        (4, join(0, 0)),
        (4, settle(0, 0)),
        (4, enter(0)),
        (13, join(0, 1)),
        (15, leave(0)),
        (23, pass(0, 1)),
        (24, enter(1)),
    ];
    let shard = replayed(rt.alloc(), 0, &[held(0)], &[tally(1, 1)], &events)?;
    let value = report(
        rt.alloc(),
        shard,
        &[done(1, 1), done(0, 1)],
        steps(22, 1, 2),
    )?;
    stands(&rt, DMCS, &value, DMCS_REPORT)
}

#[test]
fn local_enters_while_the_remote_is_in_the_card(rt: HostRuntime) -> Result<(), Fail> {
    let events = [
        (6, join(0, 0)),
        (7, Event::Announce { cohort: 1 }),
        (8, settle(0, 0)),
        (8, enter(0)),
        (9, join(1, 1)),
        (11, Event::Announce { cohort: 2 }),
    ];
    let shard = replayed(rt.alloc(), 0, &[], &[tally(1, 0), tally(0, 0)], &events)?;
    let value = report(
        rt.alloc(),
        shard,
        &[done(0, 1), done(0, 1)],
        steps(13, 1, 0),
    )?;
    stands(&rt, ALOCK, &value, ALOCK_REPORT)
}

/// What happens in the tree: the root is queue 0, the nodes are the queues 1 and 2.
fn tree_events() -> [(u32, Event); 15] {
    [
        (4, join(1, 0)),
        (10, join(0, 1)),
        (10, settle(0, 1)),
        (10, settle(1, 0)),
        (10, enter(0)),
        (19, join(1, 1)),
        (26, join(2, 2)),
        (35, join(0, 2)),
        (38, leave(0)),
        (40, pass(1, 1)),
        (41, enter(1)),
        (42, leave(1)),
        (46, pass(0, 2)),
        (51, settle(2, 2)),
        (51, enter(2)),
    ]
}

#[test]
fn budget_one_over_two_nodes(rt: HostRuntime) -> Result<(), Fail> {
    let events = tree_events();
    let counted = tallies(rt.alloc(), 3, &events)?;
    let wanted = [tally(1, 1), tally(1, 1), tally(1, 0)];
    assert_eq!(rt; counted.as_slice(), wanted.as_slice());
    let shard = replayed(rt.alloc(), 0, &[held(0), held(1)], &wanted, &events)?;
    let ranks = [done(1, 1), done(1, 1), done(0, 1), done(0, 0)];
    let value = report(rt.alloc(), shard, &ranks, steps(50, 0, 2))?;
    stands(&rt, TREE, &value, TREE_REPORT)
}

/// Lines of shards and ranks that are out of order or range.
const SHARD_LINES: &[LineRow] = &[
    (8, "shard 0 updates 1 entries 1", 2, Why::Order),
    (8, "shard 2 updates 1 entries 1", 2, Why::Order),
    (9, "entry 0 2 0 put 1 1 = new", 3, Why::Range),
    (12, "rank 1 done 1 of 1", 2, Why::Order),
    (13, "rank 0 done 1 of 1", 2, Why::Order),
];

// The steps of each shard's events begin anew.
#[test]
fn two_shards(rt: HostRuntime) -> Result<(), Fail> {
    let first = update(put(0, 1), 0, Reply::New);
    let second = Entry {
        shard: 1,
        rank: 1,
        ..update(put(1, 1), 0, Reply::New)
    };
    let mut shards = Vec::new(rt.alloc());
    let events = [(25, enter(0)), (41, leave(0))];
    shards.push(replayed(rt.alloc(), 1, &[first], &[], &events)?)?;
    let events = [(4, enter(1)), (20, leave(1))];
    shards.push(replayed(rt.alloc(), 1, &[second], &[], &events)?)?;
    let value = Report {
        shards,
        done: Vec::from_slice(rt.alloc(), &[done(1, 1), done(1, 1)])?,
        steps: steps(46, 0, 0),
    };
    stands(&rt, SHARDS, &value, SHARDS_REPORT)?;
    let form = Form::Report { place: SHARDS };
    all_lines_refused(&rt, form, SHARDS_REPORT, SHARD_LINES)
}

// The greatest numbers, and looks at a table that changes.
#[test]
fn every_kind_of_reply(rt: HostRuntime) -> Result<(), Fail> {
    for text in [GREATEST_REPORT, LOOKS_REPORT] {
        let report = report_of(rt.alloc(), SPIN, text.as_bytes())?;
        let made = printed(rt.alloc(), SPIN, &report)?;
        assert_eq!(rt; made.as_slice(), text.as_bytes());
    }
    Ok(())
}

fn part(entry: Entry, part: u32) -> Entry {
    Entry {
        batch: 2,
        part,
        ..entry
    }
}

#[test]
fn a_batch_without_room_is_undone(rt: HostRuntime) -> Result<(), Fail> {
    let entries = [
        update(put(0, 1), 0, Reply::New),
        part(update(put(0, 5), 1, Reply::Undone), 0),
        part(update(put(1, 6), 2, Reply::Full), 1),
        part(update(Call::Del { key: 0 }, 3, Reply::Was(1)), 0),
        part(update(put(1, 7), 4, Reply::New), 1),
    ];
    let events = [
        (2, enter(0)),
        (15, leave(0)),
        (22, enter(0)),
        (41, leave(0)),
        (48, enter(0)),
        (70, leave(0)),
    ];
    let shard = replayed(rt.alloc(), 5, &entries, &[], &events)?;
    let value = report(rt.alloc(), shard, &[done(5, 5)], steps(75, 0, 0))?;
    stands(&rt, SPIN, &value, BATCH_REPORT)
}
