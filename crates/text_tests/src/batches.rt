//! Calls files with batches: faulty texts with the place and the cause of their first fault, and files that are read.

use crate::calls::{TWO, calls_of};
use crate::faults::{Form, Row, all_refused, joined};
use rl_model::Call;
use rl_ops::ops_text;
use rl_text::Why;
use std::test::*;

const BATCHES: &[u8] = b"rmalock-calls 2\n";

/// Texts of one rank.
const OF_ONE_RANK: &[Row] = &[
    (
        "rmalock-calls 2\n0 batch 2\n0 put 0 1\n0 put 1 1\n",
        4,
        3,
        Why::Range,
    ),
    ("rmalock-calls 2\n0 batch 9\n", 2, 3, Why::Range),
    ("rmalock-calls 2\n0 batch 2\n0 get 0\n", 3, 2, Why::Word),
    ("rmalock-calls 1\n0 batch 2\n", 2, 2, Why::Word),
    ("rmalock-calls 3\n", 1, 2, Why::Version),
];

/// Lines of two ranks behind the first.
const OF_TWO_RANKS: &[Row] = &[
    ("2 batch 2\n", 2, 1, Why::Range),
    ("0 batch\n", 2, 3, Why::Missing),
    ("0 batch \n", 2, 3, Why::Number),
    ("0 batch 02\n", 2, 3, Why::Number),
    ("0 batch 0\n", 2, 3, Why::Range),
    ("0 batch 1\n", 2, 3, Why::Range),
    ("0 batch 1 x\n", 2, 3, Why::Range),
    ("0 batch 2 \n", 2, 4, Why::Extra),
    ("0 batches 2\n", 2, 2, Why::Word),
    ("0 batch 2\n", 3, 0, Why::NoEnd),
    ("0 batch 2\n0 put 0 1\nend", 4, 0, Why::NoEnd),
    ("0 batch 2\nend\n", 3, 1, Why::Number),
    ("0 batch 2\n0 put 0 1\nend\n", 4, 1, Why::Number),
    ("0 batch 2\n\n", 3, 1, Why::Number),
    ("0 batch 2\nx put 0 1\n", 3, 1, Why::Number),
    ("0 batch 2\n2 put 0 1\n", 3, 1, Why::Range),
    ("0 batch 2\n1 put 0 1\n", 3, 1, Why::Order),
    ("0 batch 2\n1 x\n", 3, 1, Why::Order),
    ("0 batch 2\n0\n", 3, 2, Why::Missing),
    ("0 batch 2\n0 batch 2\n", 3, 2, Why::Word),
    ("0 batch 2\n0 hold 0\n", 3, 2, Why::Word),
    ("0 batch 2\n0 get x\n", 3, 2, Why::Word),
    ("0 batch 2\n0 put\n", 3, 3, Why::Missing),
    ("0 batch 2\n0 put x 1\n", 3, 3, Why::Number),
    ("0 batch 2\n0 put 0\n", 3, 4, Why::Missing),
    ("0 batch 2\n0 put 0 x\n", 3, 4, Why::Number),
    ("0 batch 2\n0 put 0 1 2\n", 3, 5, Why::Extra),
    (
        "0 batch 3\n0 put 0 1\n0 put 2 1\n0 put 5 x\n",
        5,
        3,
        Why::Range,
    ),
    ("0 batch 2\n0 put 0 1\n0 del 2\n1 x\n", 5, 2, Why::Word),
    ("0 batch 2\n0 put 0 1\n0 del 2\nend \n", 5, 2, Why::Extra),
];

#[test]
fn faults_of_batches(rt: HostRuntime) -> Result<(), Fail> {
    let one = Form::Calls {
        ranks: 1,
        shards: 2,
    };
    all_refused(&rt, one, b"", OF_ONE_RANK)?;
    all_refused(&rt, TWO, BATCHES, OF_TWO_RANKS)
}

#[test]
fn batches_that_interleave_are_printed_rank_by_rank(rt: HostRuntime) -> Result<(), Fail> {
    let body =
        "1 batch 2\n1 put 3 5\n1 add 1 1\n0 get 7\n0 batch 3\n0 del 4\n0 cas 0 1 2\n0 put 2 9\n1 hold 0\nend\n";
    let text = joined(rt.alloc(), BATCHES, body)?;
    let ops = calls_of(rt.alloc(), &text)?;
    let printed = ops_text(rt.alloc(), &ops)?;
    let expected = joined(
        rt.alloc(),
        BATCHES,
        "0 get 7\n0 batch 3\n0 del 4\n0 cas 0 1 2\n0 put 2 9\n1 batch 2\n1 put 3 5\n1 add 1 1\n1 hold 0\nend\n",
    )?;
    assert_eq!(rt; printed.as_slice(), expected.as_slice());
    let again = calls_of(rt.alloc(), &printed)?;
    let sizes = again.sizes.into_vec();
    assert_eq!(rt; sizes.len(), 2);
    assert_eq!(rt; sizes[0].as_slice(), [1, 3, 0, 0].as_slice());
    assert_eq!(rt; sizes[1].as_slice(), [2, 0, 1].as_slice());
    let calls = again.by_rank.into_vec();
    assert_eq!(rt; calls[0].len(), 4);
    assert_eq!(rt;
        calls[1].as_slice(),
        [
            Call::Put { key: 3, value: 5 },
            Call::Add { key: 1, by: 1 },
            Call::Hold { shard: 0 },
        ]
        .as_slice()
    );
    Ok(())
}

#[test]
fn the_second_version_without_a_batch_is_printed_as_the_first(rt: HostRuntime) -> Result<(), Fail> {
    let text = joined(rt.alloc(), BATCHES, "1 get 4\nend\n")?;
    let ops = calls_of(rt.alloc(), &text)?;
    let printed = ops_text(rt.alloc(), &ops)?;
    assert_eq!(rt;
        printed.as_slice(),
        b"rmalock-calls 1\n1 get 4\nend\n".as_slice()
    );
    Ok(())
}

/// Lines behind batches of 20,000 calls, which are as many as there may be.
const BEHIND_ALL: &[Row] = &[
    ("1 put 3 5\n", 22_502, 0, Why::Range),
    ("0 batch 2\n", 22_502, 0, Why::Range),
];

/// Lines within a batch that goes past 20,000 calls.
const PAST_ALL: &[Row] = &[
    ("0 put 2 1\n", 20_003, 0, Why::Range),
    ("\n", 20_003, 0, Why::Range),
    ("end\n", 20_003, 1, Why::Number),
    ("end", 20_003, 0, Why::NoEnd),
];

#[test]
fn twenty_thousand_calls_in_batches_and_no_more(rt: HostRuntime) -> Result<(), Fail> {
    let mut text = Vec::from_slice(rt.alloc(), BATCHES)?;
    for _ in 0..2_500 {
        text.extend_from_slice(b"1 batch 8\n")?;
        for _ in 0..8 {
            text.extend_from_slice(b"1 put 3 5\n")?;
        }
    }
    let whole = joined(rt.alloc(), &text, "end\n")?;
    assert!(rt; calls_of(rt.alloc(), &whole).is_ok());
    all_refused(&rt, TWO, &text, BEHIND_ALL)
}

#[test]
fn a_batch_that_goes_past_twenty_thousand(rt: HostRuntime) -> Result<(), Fail> {
    let mut text = Vec::from_slice(rt.alloc(), BATCHES)?;
    for _ in 0..19_999 {
        text.extend_from_slice(b"1 hold 1\n")?;
    }
    text.extend_from_slice(b"0 batch 2\n0 put 0 1\n")?;
    all_refused(&rt, TWO, &text, PAST_ALL)
}
