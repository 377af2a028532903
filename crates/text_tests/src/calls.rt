//! Calls files without batches: faulty texts with the place and the cause of their first fault, and values that are read and printed.
ghost use Rattle.std.specs.Prelude.{IfOk};
ghost use Rattle.rl_ops.specs.Ops.{OpsFit};

use crate::faults::{Form, Row, all_refused, at, fault_of, joined};
use crate::schedules::FOUR;
use rl_model::{Call, Geom};
use rl_ops::{Ops, call_text, ops_text, read_ops};
use rl_text::{TEXT_LIMIT, TextErr, Why};
use std::alloc::Global;
use std::test::*;

const CALLS: &[u8] = b"rmalock-calls 1\n";

/// The calls of two ranks on two shards.
pub const TWO: Form = Form::Calls {
    ranks: 2,
    shards: 2,
};

/// The calls of two ranks on two shards that a text spells.
pub fn calls_of(alloc: Global, text: &[u8]) -> Result<Ops, TextErr>
    ensures { IfOk result (λ ops. OpsFit 2 2 ops) }
{
    if text.len() >= TEXT_LIMIT as usize {
        return Err(TextErr::Memory);
    }
    read_ops(alloc, 2, 2, text)
}

/// First lines.
const FIRST_LINES: &[Row] = &[
    ("", 1, 0, Why::NoEnd),
    ("rmalock-calls 1", 1, 0, Why::NoEnd),
    ("rmalock-ca", 1, 0, Why::NoEnd),
    ("\n", 1, 1, Why::Word),
    ("rmalock-call 1\n", 1, 1, Why::Word),
    ("rmalock-schedule 1\n", 1, 1, Why::Word),
    (" rmalock-calls 1\n", 1, 1, Why::Word),
    ("rmalock-calls\n", 1, 2, Why::Missing),
    ("rmalock-calls \n", 1, 2, Why::Version),
    ("rmalock-calls 0\n", 1, 2, Why::Version),
    ("rmalock-calls 3\n", 1, 2, Why::Version),
    ("rmalock-calls 01\n", 1, 2, Why::Version),
    ("rmalock-calls 1\r\n", 1, 2, Why::Version),
    ("rmalock-calls 1 \n", 1, 3, Why::Extra),
    ("rmalock-calls 1 1\nend\n", 1, 3, Why::Extra),
    ("rmalock-calls 2 \n", 1, 3, Why::Extra),
];

/// Lines behind the first.
const CALL_LINES: &[Row] = &[
    ("", 2, 0, Why::NoEnd),
    ("0 get 1\n", 3, 0, Why::NoEnd),
    ("0 get 1\nend", 3, 0, Why::NoEnd),
    ("0 get 1\nx", 3, 0, Why::NoEnd),
    ("\nend\n", 2, 1, Why::Number),
    ("x get 1\n", 2, 1, Why::Number),
    ("stop 0\n", 2, 1, Why::Number),
    ("endx\n", 2, 1, Why::Number),
    ("00 get 1\n", 2, 1, Why::Number),
    ("+1 get 1\n", 2, 1, Why::Number),
    ("-1 get 1\n", 2, 1, Why::Number),
    ("18446744073709551616 get 1\n", 2, 1, Why::Number),
    ("2 get 1\n", 2, 1, Why::Range),
    ("4294967296 get 1\n", 2, 1, Why::Range),
    ("18446744073709551615 get 1\n", 2, 1, Why::Range),
    ("5 gat x\n", 2, 1, Why::Range),
    ("1 get 1\n2 get 1\n", 3, 1, Why::Range),
    ("0\n", 2, 2, Why::Missing),
    ("0 \n", 2, 2, Why::Word),
    ("0 Get 1\n", 2, 2, Why::Word),
    ("0 read 1\n", 2, 2, Why::Word),
    ("0 batch 2\n", 2, 2, Why::Word),
    ("0  get 1\n", 2, 2, Why::Word),
    ("0 get\n", 2, 3, Why::Missing),
    ("0 del\n", 2, 3, Why::Missing),
    ("0 hold\n", 2, 3, Why::Missing),
    ("0 put 1\n", 2, 4, Why::Missing),
    ("0 add 1\n", 2, 4, Why::Missing),
    ("0 cas 1\n", 2, 4, Why::Missing),
    ("0 cas 1 2\n", 2, 5, Why::Missing),
    ("0 get x\n", 2, 3, Why::Number),
    ("0 get 007\n", 2, 3, Why::Number),
    ("0 put x 99 y\n", 2, 3, Why::Number),
    ("0 put 1  2\n", 2, 4, Why::Number),
    ("0 put 1 2x\n", 2, 4, Why::Number),
    ("0 add 1 +2\n", 2, 4, Why::Number),
    ("0 cas 1 x y\n", 2, 4, Why::Number),
    ("0 cas 1 2 3\r\n", 2, 5, Why::Number),
    ("0 hold 01\n", 2, 3, Why::Number),
    ("0 hold 2\n", 2, 3, Why::Range),
    ("0 hold 2 x\n", 2, 3, Why::Range),
    ("0 hold 18446744073709551615\n", 2, 3, Why::Range),
    ("0 get 1 \n", 2, 4, Why::Extra),
    ("0 get 1 2\n", 2, 4, Why::Extra),
    ("0 del 1 1\n", 2, 4, Why::Extra),
    ("0 hold 1 1\n", 2, 4, Why::Extra),
    ("0 put 1 2 3\n", 2, 5, Why::Extra),
    ("0 cas 1 2 3 4\n", 2, 6, Why::Extra),
    ("end end\n", 2, 2, Why::Extra),
    ("end \n", 2, 2, Why::Extra),
    ("end\n\n", 3, 0, Why::Extra),
    ("end\nx", 3, 0, Why::Extra),
    ("0 get 1\nend\nend\n", 4, 0, Why::Extra),
];

/// Lines behind 20,000 calls, which are as many as there may be.
const BEHIND_ALL: &[Row] = &[
    ("end end\n", 20_002, 2, Why::Extra),
    ("1 hold 1\nend\n", 20_002, 0, Why::Range),
    ("\n", 20_002, 0, Why::Range),
    ("endx\n", 20_002, 0, Why::Range),
    ("9", 20_002, 0, Why::NoEnd),
];

#[test]
fn faults_of_calls(rt: HostRuntime) -> Result<(), Fail> {
    all_refused(&rt, TWO, b"", FIRST_LINES)?;
    all_refused(&rt, TWO, CALLS, CALL_LINES)?;
    let one = Form::Calls {
        ranks: 1,
        shards: 1,
    };
    all_refused(&rt, one, CALLS, &[("0 hold 1\nend\n", 2, 3, Why::Range)])
}

#[test]
fn twenty_thousand_calls_and_no_more(rt: HostRuntime) -> Result<(), Fail> {
    let mut text = Vec::from_slice(rt.alloc(), CALLS)?;
    for _ in 0..20_000 {
        text.extend_from_slice(b"1 hold 1\n")?;
    }
    let whole = joined(rt.alloc(), &text, "end\n")?;
    assert!(rt; calls_of(rt.alloc(), &whole).is_ok());
    all_refused(&rt, TWO, &text, BEHIND_ALL)
}

#[test]
fn a_file_of_newlines(rt: HostRuntime) -> Result<(), Fail> {
    let text = vec![in rt.alloc(); b'\n'; 4_194_304]?;
    for form in [TWO, FOUR] {
        let fault = fault_of(rt.alloc(), form, &text);
        assert_eq!(rt; fault, at(1, 1, Why::Word));
    }
    Ok(())
}

#[test]
fn interleaved_calls_are_printed_rank_by_rank(rt: HostRuntime) -> Result<(), Fail> {
    let first = joined(rt.alloc(), CALLS, "0 put 1 2\n1 get 1\n0 del 1\nend\n")?;
    let ops = calls_of(rt.alloc(), &first)?;
    let printed = ops_text(rt.alloc(), &ops)?;
    let expected = joined(rt.alloc(), CALLS, "0 put 1 2\n0 del 1\n1 get 1\nend\n")?;
    assert_eq!(rt; printed.as_slice(), expected.as_slice());
    let again = calls_of(rt.alloc(), &printed)?.by_rank.into_vec();
    assert_eq!(rt; again.len(), 2);
    assert_eq!(rt;
        again[0].as_slice(),
        [Call::Put { key: 1, value: 2 }, Call::Del { key: 1 }].as_slice()
    );
    assert_eq!(rt; again[1].as_slice(), [Call::Get { key: 1 }].as_slice());
    Ok(())
}

#[test]
fn spellings_of_calls(rt: HostRuntime) -> Result<(), Fail> {
    let key = u64::MAX;
    for (call, text) in [
        (Call::Put { key, value: 0 }, "put 18446744073709551615 0"),
        (Call::Get { key: 5 }, "get 5"),
        (Call::Del { key: 6 }, "del 6"),
        (Call::Add { key: 7, by: 10 }, "add 7 10"),
        (
            Call::Cas {
                key: 5,
                old: 1,
                new: 2,
            },
            "cas 5 1 2",
        ),
        (Call::Hold { shard: 3 }, "hold 3"),
    ] {
        let mut out = Vec::from_slice(rt.alloc(), b"0 ")?;
        call_text(call, &mut out)?;
        let expected = joined(rt.alloc(), b"0 ", text)?;
        assert_eq!(rt; out.as_slice(), expected.as_slice());
    }
    Ok(())
}

#[test]
fn rooms_on_the_shards(rt: HostRuntime) -> Result<(), Fail> {
    let text = joined(
        rt.alloc(),
        CALLS,
        "0 put 0 1\n0 get 2\n0 add 1 1\n1 hold 0\n1 hold 1\n1 del 3\n1 cas 2 0 1\nend\n",
    )?;
    let ops = calls_of(rt.alloc(), &text)?;
    let geom = Geom {
        shards: 2,
        buckets: 1,
        overflow: 0,
    };
    let rooms = ops.rooms(rt.alloc(), geom)?;
    assert_eq!(rt; rooms.len(), 2);
    for (room, (calls, updates)) in rooms.iter().zip([([2, 2], [1, 1]), ([1, 2], [1, 1])]) {
        assert_eq!(rt; room.calls.as_slice(), calls.as_slice());
        assert_eq!(rt; room.updates.as_slice(), updates.as_slice());
    }
    Ok(())
}
