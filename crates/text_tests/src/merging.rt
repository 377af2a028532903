//! Histories merged of journals and transcripts, tallies and budgets, worked out by hand.

use crate::reports::{tally, update};
use crate::samples::put;
use rl_model::{Call, Entry, Reply};
use rl_report::{merge, within};
use std::test::*;

// Two ranks' gets, holds and updates: ordered by the updates before them, reads before the update, then by rank.
#[test]
fn the_history_of_two_ranks(rt: HostRuntime) -> Result<(), Fail> {
    let get = Entry {
        rank: 1,
        call: Call::Get { key: 5 },
        reply: Reply::Nothing,
        ..Entry::default()
    };
    let first = update(put(5, 1), 0, Reply::New);
    let second = Entry {
        rank: 1,
        seq: 1,
        at: 1,
        call: put(5, 2),
        reply: Reply::Was(1),
        ..Entry::default()
    };
    let hold = Entry {
        seq: 1,
        at: 1,
        ..Entry::default()
    };
    let late = Entry {
        rank: 1,
        seq: 2,
        at: 2,
        call: Call::Get { key: 5 },
        reply: Reply::Val(2),
        ..Entry::default()
    };
    let mut transcripts = Vec::new(rt.alloc());
    transcripts.push(Vec::from_slice(rt.alloc(), &[first, hold])?)?;
    transcripts.push(Vec::from_slice(rt.alloc(), &[get, second, late])?)?;
    let entries = merge(rt.alloc(), &[first, second], &transcripts)?;
    let wanted = [get, first, hold, second, late];
    assert_eq!(rt; entries.as_slice(), wanted.as_slice());
    Ok(())
}

#[test]
fn budgets_of_large_numbers(rt: HostRuntime) {
    assert!(rt; within(tally(1, 1), 1));
    assert!(rt; !within(tally(1, 2), 1));
    assert!(rt; within(tally(u64::MAX, u64::MAX), 1000));
    assert!(rt; !within(tally(0, 1), 1000));
}
