//! The schedule of a replay made complete, or the line that says why there is none.
ghost use Rattle.std.specs.Prelude.{length, IfOk};
ghost use Rattle.rl_inputs.specs.Fitting.{IsProper, OpsFit, SuitsLock, ScheduleFits};
ghost use Rattle.rl_inputs.specs.Done.{IsAnswerStatus};
ghost use Rattle.rl_viewer.specs.Asking.{all_by};
ghost use Rattle.rmalock_finish.specs.Answer.{AnswersReplay, AnswersFiles};

use crate::explaining::say_uncompleted;
use rl_completed::{Uncompleted, completed, reason_line};
use rl_explain::{Kept, Third, say_refusal};
use rl_inputs::{Answer, Files, Replay, Stop, read_replay};
use rl_io::Source;
use rl_viewer::{Program, all_of};
use std::alloc::{AllocError as OutOfMemory, Global};
use std::io::Eprint;

/// The answer to a replay that was read, whose schedule stands in a file of this name.
fn answer_replay(alloc: Global, name: &str, replay: Replay) -> Result<Answer, OutOfMemory>
    requires proper { IsProper replay.place }
    requires calls { OpsFit (length replay.place.paths) replay.place.geom.shards replay.ops }
    requires suits { SuitsLock replay.place replay.ops }
    requires schedule { ScheduleFits (length replay.place.paths) replay.schedule }
    ensures status { IfOk result (λ answer. IsAnswerStatus answer.status) }
    ensures answer { IfOk result (λ answer. AnswersReplay name.now replay answer) }
{
    let Replay {
        place,
        ops,
        schedule,
    } = replay;
    match completed(alloc, &place, ops, schedule) {
        Ok(text) => Ok(Answer::new(0, text)),
        Err(Uncompleted::Refused(reason)) => Ok(Answer::new(2, reason_line(alloc, name, reason)?)),
        Err(Uncompleted::Memory) => Err(OutOfMemory),
    }
}

/// Makes the schedule of a replay complete: 0 after the schedule, 2 after the line that refuses a file, or that says why its schedule isn't
/// made complete. With status 0 a replay of the bytes as a schedule ends all calls of all ranks (`IsComplete` of `rl_completed`).
pub struct Finisher;

impl Program for Finisher {
    type Part = ();

    ghost part_by = { all_by };

    ghost answers = { AnswersFiles };

    fn part_of(words: &[String]) -> Option<()> {
        all_of(words)
    }

    fn answer<S: Source>(
        alloc: Global,
        source: &mut S,
        files: Files<'_>,
        _all: (),
    ) -> Result<Answer, Stop> {
        let replay = read_replay(alloc, source, files)?;
        Ok(answer_replay(alloc, files.schedule, replay)?)
    }

    fn say_refused<R: Eprint>(rt: &R, alloc: Global, program: &str, kept: &Kept) {
        say_refusal(rt, alloc, program, Third::Schedule, kept);
        say_uncompleted(rt, alloc, program, kept);
    }
}
