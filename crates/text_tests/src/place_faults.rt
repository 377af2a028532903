//! Texts that are no placements, each with the place and the cause of its first fault.

use crate::faults::{Form, LineRow, Row, all_lines_refused, all_refused, at, fault_of};
use crate::samples::{ALOCK, MCS, RW, SPIN};
use rl_text::Why;
use std::test::*;

/// Lines in place of those of a spin lock.
const SPIN_LINES: &[LineRow] = &[
    (1, "rmalock-plac 1", 1, Why::Word),
    (1, "", 1, Why::Word),
    (1, " rmalock-place 1", 1, Why::Word),
    (1, "rmalock-place", 2, Why::Missing),
    (1, "rmalock-place ", 2, Why::Version),
    (1, "rmalock-place 2", 2, Why::Version),
    (1, "rmalock-place 01", 2, Why::Version),
    (1, "rmalock-place 1\r", 2, Why::Version),
    (1, "rmalock-place 1 ", 3, Why::Extra),
    (2, "level 1", 1, Why::Word),
    (2, "levels", 2, Why::Missing),
    (2, "levels  1", 2, Why::Number),
    (2, "levels x", 2, Why::Number),
    (2, "levels 01", 2, Why::Number),
    (2, "levels 0", 2, Why::Range),
    (2, "levels 4", 2, Why::Range),
    (2, "levels 1 1", 3, Why::Extra),
    (3, "lock", 2, Why::Missing),
    (3, "lock ", 2, Why::Word),
    (3, "lock Spin", 2, Why::Word),
    (3, "lock spinn", 2, Why::Word),
    (3, "lock spin spin", 3, Why::Extra),
    (4, "budget 1", 1, Why::Word),
    (4, "shards +1", 2, Why::Number),
    (4, "shards 0", 2, Why::Range),
    (4, "shards 17", 2, Why::Range),
    (5, "buckets 1\r", 2, Why::Number),
    (5, "buckets 0", 2, Why::Range),
    (5, "buckets 65", 2, Why::Range),
    (6, "overflow -0", 2, Why::Number),
    (6, "overflow 65", 2, Why::Range),
    (7, "home 0 0", 1, Why::Word),
    (7, "rank", 2, Why::Missing),
    (7, "rank a at 0", 2, Why::Number),
    (7, "rank 32 at 0", 2, Why::Range),
    (7, "rank 1 at 0", 2, Why::Order),
    (7, "rank 0 in 0", 3, Why::Word),
    (7, "rank 0 at", 4, Why::Missing),
    (7, "rank 0 at ", 4, Why::Word),
    (7, "rank 0 at x", 4, Why::Word),
    (7, "rank 0 at 00", 4, Why::Word),
    (7, "rank 0 at 0.0", 4, Why::Word),
    (7, "rank 0 at 18446744073709551616", 4, Why::Word),
    (7, "rank 0 at 1000", 4, Why::Range),
    (7, "rank 0 at 0 0", 5, Why::Extra),
    (8, "end", 1, Why::Word),
    (8, "home  0 0", 2, Why::Number),
    (8, "home 1 0", 2, Why::Range),
    (8, "home 0", 3, Why::Missing),
    (8, "home 0 1", 3, Why::Range),
    (8, "home 0 1 0", 3, Why::Range),
    (8, "home 0 0 ", 4, Why::Extra),
    (9, "end\r", 1, Why::Word),
    (9, "home 1 0", 1, Why::Word),
    (9, "rank 1 at 0", 1, Why::Word),
    (9, "end end", 2, Why::Extra),
];

/// Lines in place of those of a tree.
const MCS_LINES: &[LineRow] = &[
    (4, "budget 007 2", 2, Why::Number),
    (4, "budget 1", 3, Why::Missing),
    (4, "budget 1 1001", 3, Why::Range),
    (4, "budget 1 2 3", 4, Why::Extra),
    (8, "rank 0 at 0", 4, Why::Word),
    (8, "rank 0 at 0.", 4, Why::Word),
    (8, "rank 0 at 0.0.0", 4, Why::Word),
    (8, "rank 0 at 1000.x", 4, Why::Word),
    (8, "rank 0 at 1000.0", 4, Why::Range),
    (9, "rank 0 at 0.1", 2, Why::Repeat),
    (9, "rank 2 at 0.1", 2, Why::Order),
    (10, "home 1 0.1", 2, Why::Order),
    (10, "home 0 0.2", 3, Why::Range),
    (11, "home 0 0.0", 2, Why::Repeat),
    (11, "home 2 0.0", 2, Why::Range),
    (11, "rank 2 at 0.0", 1, Why::Word),
    (11, "end", 1, Why::Word),
];

/// Lines in place of those with counters.
const RW_LINES: &[LineRow] = &[
    (5, "readers 3", 1, Why::Word),
    (5, "writers 1001", 2, Why::Range),
    (6, "readers 0", 2, Why::Range),
    (6, "readers 1001", 2, Why::Range),
    (7, "group 0", 2, Why::Range),
    (7, "group 33", 2, Why::Range),
];

/// Lines in place of those with cohorts.
const ALOCK_LINES: &[LineRow] = &[
    (4, "budget 5", 3, Why::Missing),
    (4, "budget 5 1001", 3, Why::Range),
    (4, "budget 5 6 7", 4, Why::Extra),
];

/// The first six lines of a placement.
const HEAD: &[u8] = b"rmalock-place 1\nlevels 1\nlock spin\nshards 1\nbuckets 1\noverflow 0\n";

/// Further lines, with one too many or out of order.
const ENDS: &[Row] = &[
    (
        "rank 0 at 0\nrank 0 at 0\nhome 0 0\nend\n",
        8,
        2,
        Why::Repeat,
    ),
    (
        "rank 0 at 0\nrank 1 at 0\nrank 0 at 0\nhome 0 0\nend\n",
        9,
        2,
        Why::Repeat,
    ),
    (
        "rank 0 at 0\nrank 1 at 0\nrank 3 at 0\nhome 0 0\nend\n",
        9,
        2,
        Why::Order,
    ),
    ("rank 0 at 0\nhome 0 0\nend\n\n", 10, 0, Why::Extra),
    ("rank 0 at 0\nhome 0 0\nend\nend\n", 10, 0, Why::Extra),
    ("rank 0 at 0\nhome 0 0\nend\nx", 10, 0, Why::Extra),
];

#[test]
fn faults_of_placements(rt: HostRuntime) -> Result<(), Fail> {
    all_lines_refused(&rt, Form::Place, SPIN, SPIN_LINES)?;
    all_lines_refused(&rt, Form::Place, MCS, MCS_LINES)?;
    all_lines_refused(&rt, Form::Place, RW, RW_LINES)?;
    all_lines_refused(&rt, Form::Place, ALOCK, ALOCK_LINES)?;
    all_refused(&rt, Form::Place, HEAD, ENDS)
}

#[test]
fn each_front_of_a_placement_has_no_end(rt: HostRuntime) {
    let text = SPIN.as_bytes();
    let mut line: u32 = 1;
    for n in 0..text.len() {
        let fault = fault_of(rt.alloc(), Form::Place, &text[..n]);
        assert_eq!(rt; fault, at(line, 0, Why::NoEnd), "of {n} bytes");
        if text[n] == b'\n' {
            line = line.saturating_add(1);
        }
    }
}
