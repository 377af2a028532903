//! Texts that are no reports, each with the place and the cause of its first fault.

use crate::faults::{Form, LineRow, Row, all_lines_refused, all_refused, at, fault_of, with_line};
use crate::report_texts::{ALOCK_REPORT, BATCH_REPORT, RUN_REPORT, SPIN_REPORT, TREE_REPORT};
use crate::samples::{ALOCK, SPIN, TREE};
use rl_text::Why;
use std::test::*;

/// The reports of a placement.
const fn of(place: &'static str) -> Form {
    Form::Report { place }
}

/// The first lines of a report.
const FIRST_LINES: &[LineRow] = &[
    (1, "", 1, Why::Word),
    (1, "rmalock-place 1", 1, Why::Word),
    (1, "rmalock-report", 2, Why::Missing),
    (1, "rmalock-report 3", 2, Why::Version),
    (1, "rmalock-report 01", 2, Why::Version),
    (1, "rmalock-report 2 2", 3, Why::Extra),
    (2, "play spin", 1, Why::Word),
    (2, "replay dmcs", 2, Why::Word),
    (2, "replay  spin", 2, Why::Word),
    (3, "ranks 2 shards 1", 2, Why::Range),
    (3, "ranks 1 shards 2", 4, Why::Range),
    (4, "shard 1 updates 0 entries 1", 2, Why::Order),
    (4, "shard 0 updates 20001 entries 1", 4, Why::Range),
    (4, "shard 0 updates 0 entries 20001", 6, Why::Range),
];

/// Entries.
const ENTRIES: &[LineRow] = &[
    (5, "entry 20001 0 0 hold 0 = held", 2, Why::Range),
    (5, "entry 0 1 0 hold 0 = held", 3, Why::Range),
    (5, "entry 0 0 20000 hold 0 = held", 4, Why::Range),
    (5, "entry 0 0 0 hold 1 = held", 6, Why::Range),
    (5, "entry 0 0 0 hold 0 is held", 7, Why::Word),
    (5, "entry 0 0 0 hold 0 = had", 8, Why::Word),
    (5, "entry 0 0 0 get 007 = none", 6, Why::Number),
    (5, "entry 0 0 0 get 7 = val", 9, Why::Missing),
    (5, "entry 0 0 0 put 0 1 = new part 1 of 1", 13, Why::Range),
    (5, "entry 0 0 0 put 0 1 = new part 8 of 8", 11, Why::Range),
    (5, "entry 0 0 0 put 0 1 = new part 2 of 2", 13, Why::Range),
    (5, "entry 0 0 0 put 0 1 = new part 0 of 9", 13, Why::Range),
    (5, "entry 0 0 0 put 0 1 = new part 0 to 2", 12, Why::Word),
    (5, "entry 0 0 0 put 0 1 = new part 0 of 2 2", 14, Why::Extra),
    (5, "entry 0 0 0 put 0 1 = new ", 10, Why::Word),
];

/// Events under a spin lock.
const EVENTS: &[LineRow] = &[
    (6, "event 2 enter-w 1", 4, Why::Range),
    (6, "event 2 enter-x 0", 3, Why::Word),
    (6, "event 2 touch 0", 3, Why::Word),
    (6, "event 2 join all 0", 4, Why::Word),
    (6, "event 2 announce local", 4, Why::Word),
    (6, "event 2000000 enter-w 0", 2, Why::Range),
    (7, "event 1 leave-w 0", 2, Why::Order),
];

/// The last lines.
const LAST_LINES: &[LineRow] = &[
    (8, "rank 1 done 1 of 1", 2, Why::Order),
    (8, "rank 0 done 20001 of 1", 4, Why::Range),
    (8, "rank 0 done 1 of 20001", 6, Why::Range),
    (
        9,
        "steps 10 moved 9 waiting 0 lost 0 busy 0 finished 0",
        2,
        Why::Range,
    ),
    (
        9,
        "steps 10 moved 9 waiting 0 lost 0 busy 0 finished 0 0",
        2,
        Why::Range,
    ),
    (
        9,
        "steps 10 moved 9 waiting 0 lost 0 busy 0 finished",
        12,
        Why::Missing,
    ),
    (
        9,
        "steps 2000001 moved 9 waiting 0 lost 0 busy 0",
        2,
        Why::Range,
    ),
    (9, "end", 1, Why::Word),
    (10, "end ", 2, Why::Extra),
];

/// What stands behind the end.
const BEHIND_ALL: &[Row] = &[("x", 11, 0, Why::Extra), ("\n", 11, 0, Why::Extra)];

/// Texts that end too early.
const FRONTS: &[Row] = &[
    ("", 1, 0, Why::NoEnd),
    ("rmalock-report 2\nreplay ", 2, 0, Why::NoEnd),
    ("rmalock-report 2\nreplay spin\n", 3, 0, Why::NoEnd),
];

/// Lines of a run.
const RUN_LINES: &[LineRow] = &[
    (12, "pair 1 3", 2, Why::Repeat),
    (12, "pair 0 3", 2, Why::Order),
    (12, "pair 0", 2, Why::Order),
    (12, "pair 2", 3, Why::Missing),
    (12, "event 2 enter-w 0", 1, Why::Word),
    (14, "steps 0 moved 0 waiting 0", 1, Why::Word),
];

/// Events under a lock with cohorts.
const COHORT_EVENTS: &[LineRow] = &[
    (7, "event 6 join all 0", 4, Why::Word),
    (7, "event 6 join local 2", 5, Why::Range),
    (7, "event 6 join local 00", 5, Why::Number),
    (8, "event 7 announce 1", 4, Why::Word),
];

/// Queues of a tree, and events in them.
const QUEUES: &[LineRow] = &[
    (7, "queue 0 settled 1 passed 1", 2, Why::Word),
    (8, "queue 1 settled 1 passed 1", 2, Why::Word),
    (9, "event 4 join 0 0", 1, Why::Word),
    (10, "event 4 join 2 0", 4, Why::Word),
    (10, "event 4 join 00 0", 4, Why::Word),
    (10, "event 4 join 0 4", 5, Why::Range),
    (11, "event 10 join root root", 5, Why::Word),
    (11, "event 10 join root 2", 5, Why::Word),
    (11, "event 10 announce local", 4, Why::Word),
];

#[test]
fn faults_under_a_spin_lock(rt: HostRuntime) -> Result<(), Fail> {
    for lines in [FIRST_LINES, ENTRIES, EVENTS, LAST_LINES] {
        all_lines_refused(&rt, of(SPIN), SPIN_REPORT, lines)?;
    }
    all_refused(&rt, of(SPIN), SPIN_REPORT.as_bytes(), BEHIND_ALL)?;
    all_refused(&rt, of(SPIN), b"", FRONTS)
}

#[test]
fn faults_of_runs_and_queues(rt: HostRuntime) -> Result<(), Fail> {
    all_lines_refused(&rt, of(SPIN), RUN_REPORT, RUN_LINES)?;
    all_lines_refused(&rt, of(ALOCK), ALOCK_REPORT, COHORT_EVENTS)?;
    all_lines_refused(&rt, of(TREE), TREE_REPORT, QUEUES)
}

// One entry too few shows at the line that comes instead, one too many at its own line.
#[test]
fn another_number_of_entries(rt: HostRuntime) -> Result<(), Fail> {
    for (shard, line) in [
        ("shard 0 updates 0 entries 2", 6),
        ("shard 0 updates 0 entries 0", 5),
    ] {
        let text = with_line(rt.alloc(), SPIN_REPORT.as_bytes(), 4, shard)?;
        let fault = fault_of(rt.alloc(), of(SPIN), &text);
        assert_eq!(rt; fault, at(line, 1, Why::Word), "{shard:?}");
    }
    Ok(())
}

// The first version knows no batch and nothing undone.
#[test]
fn faults_of_the_first_version(rt: HostRuntime) -> Result<(), Fail> {
    let new = BATCH_REPORT.as_bytes();
    let old = with_line(rt.alloc(), new, 1, "rmalock-report 1")?;
    let undone = fault_of(rt.alloc(), of(SPIN), &old);
    assert_eq!(rt; undone, at(6, 9, Why::Word));
    let line = "entry 1 0 1 put 0 5 = full part 0 of 2";
    let text = with_line(rt.alloc(), &old, 6, line)?;
    let batch = fault_of(rt.alloc(), of(SPIN), &text);
    assert_eq!(rt; batch, at(6, 10, Why::Extra));
    Ok(())
}
