//! The schedule of a sketch, or the line that says why there is none.
ghost use Rattle.std.specs.Prelude.{◌≡◌, length, IfOk};
ghost use Rattle.rl_inputs.specs.Fitting.{IsProper, OpsFit, SuitsLock};
ghost use Rattle.rl_inputs.specs.Done.{IsAnswerStatus};
ghost use Rattle.rl_sketch.specs.Sketch.{SketchFits};
ghost use Rattle.rl_viewer.specs.Asking.{all_by};
ghost use Rattle.rmalock_schedule.specs.Answer.{never_line, TellsDrawn, IsDrawnAs, AnswersFiles};

use crate::explaining::say_sketch;
use crate::reading::{Sketched, read_files};
use rl_drawing::{Drawn, drawn};
use rl_explain::{Kept, Third, say_refusal};
use rl_inputs::{Answer, Files, Stop};
use rl_io::Source;
use rl_ops::schedule_text;
use rl_text::put_number;
use rl_viewer::{Program, all_of};
use std::alloc::{AllocError as OutOfMemory, Global};
use std::io::Eprint;

/// The line that refuses a sketch, one of whose lines never comes to its end.
fn never_line(alloc: Global, name: &str, line: u64) -> Result<Vec<u8>, OutOfMemory>
    ensures { IfOk result (λ text. text.items ≡ never_line name.now line) }
{
    let mut text = Vec::from_slice(alloc, b"refused ")?;
    text.extend_from_slice(name.as_bytes())?;
    text.push(b' ')?;
    put_number(&mut text, line)?;
    text.extend_from_slice(b" 0 never\n")?;
    Ok(text)
}

/// The text of what comes of a sketch, whose file has this name.
fn told(alloc: Global, name: &str, drawn: &Drawn) -> Result<Answer, OutOfMemory>
    ensures told { IfOk result (TellsDrawn name.now drawn.now) }
    ensures status { IfOk result (λ answer. IsAnswerStatus answer.status) }
{
    match drawn {
        Drawn::Whole(schedule) => Ok(Answer::new(0, schedule_text(alloc, schedule)?)),
        Drawn::Never { line } => Ok(Answer::new(2, never_line(alloc, name, *line)?)),
    }
}

/// What a sketch comes to, whose file has this name.
fn drawn_as(alloc: Global, name: &str, sketched: &Sketched) -> Result<Answer, OutOfMemory>
    requires proper { IsProper sketched.now.place }
    requires calls { OpsFit (length sketched.now.place.paths) sketched.now.place.geom.shards sketched.now.ops }
    requires suits { SuitsLock sketched.now.place sketched.now.ops }
    requires sketch { SketchFits (length sketched.now.place.paths) sketched.now.sketch }
    ensures drawn { IfOk result (IsDrawnAs name.now sketched.now) }
    ensures status { IfOk result (λ answer. IsAnswerStatus answer.status) }
{
    let drawn = drawn(alloc, &sketched.place, &sketched.ops, &sketched.sketch)?;
    told(alloc, name, &drawn)
}

/// Draws the schedule of a sketch, whose file is named in the place of a schedule's: 0 after the schedule, 2 after the line that refuses a file.
/// A sketch is refused too where a line of it comes to no end with the steps of a schedule: `refused SKETCH LINE 0 never`. The bytes with status 0
/// are exactly the text of the schedule that is drawn (`IsDrawn` of `rl_drawing`).
pub struct Scheduler;

impl Program for Scheduler {
    type Part = ();

    ghost part_by = { all_by };

    ghost answers = { AnswersFiles };

    fn part_of(words: &[String]) -> Option<()> {
        all_of(words)
    }

    fn answer<S: Source>(
        alloc: Global,
        source: &mut S,
        files: Files<'_>,
        _all: (),
    ) -> Result<Answer, Stop> {
        let sketched = read_files(alloc, source, files)?;
        Ok(drawn_as(alloc, files.schedule, &sketched)?)
    }

    fn say_refused<R: Eprint>(rt: &R, alloc: Global, program: &str, kept: &Kept) {
        match kept.texts() {
            [_, _, _] => say_sketch(rt, alloc, program, kept),
            _ => say_refusal(rt, alloc, program, Third::Schedule, kept),
        }
    }
}
