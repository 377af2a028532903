//! Schedules: faulty texts with the place and the cause of their first fault, and schedules that are read and printed back.

use crate::faults::{Form, Row, all_refused, joined};
use rl_ops::{Turn, read_schedule, schedule_text};
use rl_text::{TEXT_LIMIT, Why};
use std::process::Abort;
use std::test::*;

const SCHEDULE: &[u8] = b"rmalock-schedule 1\n";

/// The schedules of four ranks.
pub const FOUR: Form = Form::Schedule { ranks: 4 };

/// First lines.
const FIRST_LINES: &[Row] = &[
    ("rmalock-schedule\n", 1, 2, Why::Missing),
    ("rmalock-calls 1\nend\n", 1, 1, Why::Word),
];

/// Lines behind the first.
const TURNS: &[Row] = &[
    ("", 2, 0, Why::NoEnd),
    ("0 9\n", 3, 0, Why::NoEnd),
    ("0 9\nend", 3, 0, Why::NoEnd),
    ("\nend\n", 2, 1, Why::Number),
    (" 0 9\n", 2, 1, Why::Number),
    ("stop0\nend\n", 2, 1, Why::Number),
    ("stop\n", 2, 2, Why::Missing),
    ("stop x\n", 2, 2, Why::Number),
    ("stop 00\n", 2, 2, Why::Number),
    ("stop 4\n", 2, 2, Why::Range),
    ("stop 0\nstop 0 1\n", 3, 2, Why::Repeat),
    ("stop 0\n1 5\nstop 0\n", 4, 2, Why::Repeat),
    ("stop 0 1\n", 2, 3, Why::Extra),
    ("stop 0\n0 x\n", 3, 1, Why::Order),
    ("0 7\nstop 0\n1 2\n0 1\n", 5, 1, Why::Order),
    ("stop 0\n4 x\n", 3, 1, Why::Range),
    ("stop 3\n", 3, 0, Why::NoEnd),
    ("4 9\n", 2, 1, Why::Range),
    ("9 x\n", 2, 1, Why::Range),
    ("0\n", 2, 2, Why::Missing),
    ("0 \n", 2, 2, Why::Number),
    ("0  9\n", 2, 2, Why::Number),
    ("0 09\n", 2, 2, Why::Number),
    ("0 9\r\n", 2, 2, Why::Number),
    ("0 2000001\n", 2, 2, Why::Range),
    ("0 2000001 x\n", 2, 2, Why::Range),
    ("0 1999999\n1 2\nend\n", 3, 2, Why::Range),
    ("0 2000000\n1 0\n2 1\nend\n", 4, 2, Why::Range),
    ("0 9 \n", 2, 3, Why::Extra),
    ("0 9 1\n", 2, 3, Why::Extra),
    ("end 0\n", 2, 2, Why::Extra),
    ("end\n0 9\n", 3, 0, Why::Extra),
    ("end\n0", 3, 0, Why::Extra),
];

#[test]
fn faults_of_schedules(rt: HostRuntime) -> Result<(), Fail> {
    all_refused(&rt, FOUR, b"", FIRST_LINES)?;
    all_refused(&rt, FOUR, SCHEDULE, TURNS)
}

/// The body of a schedule of four ranks is read as these turns, and printed back.
fn is_read_as(rt: &(impl Abort + AllocGlobal), body: &str, turns: &[Turn]) -> Result<(), Fail> {
    let text = joined(rt.alloc(), SCHEDULE, body)?;
    assert!(rt; text.len() < TEXT_LIMIT as usize);
    let schedule = read_schedule(rt.alloc(), 4, &text)?;
    assert_eq!(rt; schedule.turns.as_slice(), turns);
    let printed = schedule_text(rt.alloc(), &schedule)?;
    assert_eq!(rt; printed.as_slice(), text.as_slice());
    Ok(())
}

/// A turn of so many steps.
const fn steps(rank: u8, count: u32) -> Turn {
    Turn::Steps { rank, count }
}

#[test]
fn schedules_are_printed_back(rt: HostRuntime) -> Result<(), Fail> {
    let body = "0 12\n1 10\n2 16\n0 3\n1 10\n2 1\nend\n";
    let turns = [
        steps(0, 12),
        steps(1, 10),
        steps(2, 16),
        steps(0, 3),
        steps(1, 10),
        steps(2, 1),
    ];
    is_read_as(&rt, body, &turns)?;
    let stop = |rank: u8| Turn::Stop { rank };
    let body = "0 12\nstop 1\n2 3\nstop 0\n2 0\nend\n";
    let turns = [steps(0, 12), stop(1), steps(2, 3), stop(0), steps(2, 0)];
    is_read_as(&rt, body, &turns)?;
    assert_eq!(rt; steps(2, 1).steps(), 1);
    assert_eq!(rt; stop(1).steps(), 0);
    Ok(())
}
