//! Sketches of four ranks: one with a line of each form, which is read and printed back, and faulty ones with the place and the cause of their first fault.
//! The values were worked out by hand from what the format says.

use crate::faults::{Form, Row, all_refused};
use rl_sketch::{Course, Ranks, Sight, SketchLine, add_stopped, going, read_sketch, sketch_text};
use rl_text::{TEXT_LIMIT, Why};
use std::alloc::Global;
use std::process::Abort;
use std::test::*;

/// The sketches of four ranks.
const FOUR: Form = Form::Sketch { ranks: 4 };

/// A sketch with a line of each form.
const SKETCH: &[u8] =
    b"rmalock-sketch 1\n# the heads of both cohorts\n0 3 until announce\n\n2 before store next 0\n1 0 1999\n2 1 in turn 4\n3 in turn until done\nall at random 7 100\nstop 3 1\nall until out\nstop all\nend\n";

/// A line as it is told here: its kind, its ranks, its words, its seed and its count.
type Told<'a> = (&'static str, &'a [u8], &'a [u8], u64, u32);

/// What the lines of the sketch say.
const LINES: &[Told<'static>] = &[
    ("note", b"", b"# the heads of both cohorts", 0, 0),
    ("until", &[0, 3], b"announce", 0, 0),
    ("note", b"", b"", 0, 0),
    ("before", &[2], b"store next 0", 0, 0),
    ("steps", &[1, 0], b"", 0, 1999),
    ("turns", &[2, 1], b"", 0, 4),
    ("turns until", &[3], b"(done)", 0, 0),
    ("random", b"all", b"", 7, 100),
    ("stop", &[3, 1], b"", 0, 0),
    ("until", b"all", b"(out)", 0, 0),
    ("stop", b"all", b"", 0, 0),
];

/// Lines that are no sketch of four ranks.
const FAULTS: &[Row] = &[
    ("", 2, 0, Why::NoEnd),
    ("# a note", 2, 0, Why::NoEnd),
    (" # no note\n", 2, 1, Why::Number),
    ("4 9\n", 2, 1, Why::Range),
    ("0 1 0 until lost\n", 2, 3, Why::Repeat),
    ("0 1 3 \n", 2, 4, Why::Number),
    ("\n# x\n0\n", 4, 2, Why::Missing),
    ("0 2000001\n", 2, 2, Why::Range),
    ("0 untill lost\n", 2, 2, Why::Number),
    ("0 until\n", 2, 3, Why::Missing),
    ("0 until never\n", 2, 3, Why::Word),
    ("0 until done 1\n", 2, 4, Why::Extra),
    ("0 before enter\n", 2, 3, Why::Word),
    ("0 in lap 3\n", 2, 3, Why::Word),
    ("0 in turn 2000001\n", 2, 4, Why::Range),
    ("all at random 7\n", 2, 5, Why::Missing),
    ("all at random 7 1 1\n", 2, 6, Why::Extra),
    ("stop\n", 2, 2, Why::Missing),
    ("stop all 0\n", 2, 3, Why::Extra),
    ("stop 1\n0 1 until lost\n", 3, 2, Why::Order),
    ("stop 1\nstop 0 1\n", 3, 3, Why::Repeat),
    ("stop all\nall 1\n", 3, 1, Why::Order),
    ("stop 0 1 2 3\nstop all\n", 3, 2, Why::Repeat),
    ("end\n# late\n", 3, 0, Why::Extra),
];

fn listed(ranks: &Ranks) -> &[u8] {
    match ranks {
        Ranks::All => b"all",
        Ranks::These(list) => list.as_slice(),
    }
}

fn seen(sight: &Sight) -> &[u8] {
    match sight {
        Sight::Words(text) => text.as_slice(),
        Sight::Done => b"(done)",
        Sight::Out => b"(out)",
    }
}

fn told(line: &SketchLine) -> Told<'_> {
    match line {
        SketchLine::Note(text) => ("note", b"", text.as_slice(), 0, 0),
        SketchLine::Stops(ranks) => ("stop", listed(ranks), b"", 0, 0),
        SketchLine::Goes { ranks, course } => match course {
            Course::Steps { count } => ("steps", listed(ranks), b"", 0, *count),
            Course::Until { sight } => ("until", listed(ranks), seen(sight), 0, 0),
            Course::Before { sight } => ("before", listed(ranks), seen(sight), 0, 0),
            Course::InTurn { count } => ("turns", listed(ranks), b"", 0, *count),
            Course::InTurnUntil { sight } => ("turns until", listed(ranks), seen(sight), 0, 0),
            Course::AtRandom { seed, count } => ("random", listed(ranks), b"", *seed, *count),
        },
    }
}

/// The lines say this.
fn say(rt: &impl Abort, lines: &[SketchLine], wanted: &[Told<'static>]) {
    assert_eq!(rt; lines.len(), wanted.len());
    for (line, other) in lines.iter().zip(wanted) {
        assert_eq!(rt; told(line), *other);
    }
}

/// The text is read as these lines, and printed back.
fn is_read_as(
    rt: &(impl Abort + AllocGlobal),
    text: &[u8],
    wanted: &[Told<'static>],
) -> Result<(), Fail> {
    assert!(rt; text.len() < TEXT_LIMIT as usize);
    let sketch = read_sketch(rt.alloc(), 4, text)?;
    say(rt, sketch.lines.as_slice(), wanted);
    let printed = sketch_text(rt.alloc(), &sketch)?;
    assert_eq!(rt; printed.as_slice(), text);
    Ok(())
}

#[test]
fn each_form_is_read_and_printed_back(rt: HostRuntime) -> Result<(), Fail> {
    is_read_as(&rt, SKETCH, LINES)
}

#[test]
fn faults_of_sketches(rt: HostRuntime) -> Result<(), Fail> {
    all_refused(&rt, FOUR, b"rmalock-sketch 1\n", FAULTS)
}

/// The ranks that these lines stop, in their order.
fn stopped_by(alloc: Global, lines: &[SketchLine]) -> Result<Vec<u8>, Fail> {
    let mut stopped = Vec::new(alloc);
    for line in lines {
        add_stopped(alloc, 4, &mut stopped, line)?;
    }
    Ok(stopped)
}

#[test]
fn ranks_that_were_stopped_stay_out(rt: HostRuntime) -> Result<(), Fail> {
    let text = b"rmalock-sketch 1\nstop 2 0\nstop all\nend\n";
    let sketch = read_sketch(rt.alloc(), 4, text)?;
    let stopped = stopped_by(rt.alloc(), sketch.lines.as_slice())?;
    assert_eq!(rt; stopped.as_slice(), [2, 0, 1, 3].as_slice());
    let left = going(rt.alloc(), 4, &[2, 0])?;
    assert_eq!(rt; left.as_slice(), [1, 3].as_slice());
    Ok(())
}
