//! Small schedules over each lock, with their answers and events worked out by hand: by the machine, by callers, and by single seats on one thread.

use crate::schedules::{
    BUDGET_LED, COHORTS, COHORTS_LED, FIRST_LED, LED, QUEUES, READERS, READERS_LED, SECOND_LED,
    SPIN, WAYS, WAYS_LED, calls_of, is_row, place_of, ranks_of, told_of,
};
use crate::seat_tests::trial_and_seats;
use rl_text::TextErr;
use std::process::Abort;

/// Looks that the steps of a row tell what it says.
fn look_at_row<R: AllocGlobal + Abort>(rt: &R, row: &str) -> Result<(), TextErr> {
    let place = place_of(rt.alloc(), row)?;
    let calls = calls_of(rt.alloc(), row)?;
    let told = trial_and_seats(rt, &place, &calls, ranks_of(row))?;
    assert_eq!(rt; told.as_str(), told_of(row), "{row}");
    Ok(())
}

/// The same of each row of a table.
fn look_at_rows<R: AllocGlobal + Abort>(rt: &R, table: &str) -> Result<(), TextErr> {
    for line in table.split('\n') {
        if is_row(line) {
            look_at_row(rt, line)?;
        }
    }
    Ok(())
}

#[test]
fn one_queue_or_none(rt: HostRuntime) -> Result<(), TextErr> {
    for table in [SPIN, FIRST_LED, SECOND_LED, QUEUES, LED] {
        look_at_rows(&rt, table)?;
    }
    Ok(())
}

#[test]
fn two_cohorts(rt: HostRuntime) -> Result<(), TextErr> {
    for table in [COHORTS, COHORTS_LED, BUDGET_LED] {
        look_at_rows(&rt, table)?;
    }
    Ok(())
}

#[test]
fn readers(rt: HostRuntime) -> Result<(), TextErr> {
    for table in [READERS, READERS_LED, WAYS, WAYS_LED] {
        look_at_rows(&rt, table)?;
    }
    Ok(())
}
