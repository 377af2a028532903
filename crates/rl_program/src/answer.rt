//! The answers to what is asked for.
ghost use Rattle.std.specs.Prelude.{◌≡◌, IfOk, IfSome, IfErr, Some};
ghost use Rattle.std.specs.Option.{option_map};
ghost use Rattle.rl_io.specs.Whole.{RisesWithFault};
ghost use Rattle.rl_inputs.specs.declared.stop.Stop.TheVariants.{Memory};
ghost use Rattle.rl_inputs.specs.Done.{IsAnswerStatus};
ghost use Rattle.rl_inputs.specs.Files.{named};
ghost use Rattle.rl_inputs.specs.Reading.{stopped_by_fault};
ghost use Rattle.rl_making.specs.Summary.{made_summary};
ghost use Rattle.rl_program.specs.Command.{Replay, Run, Make, Show, AskFits, asked, run_named, usage_text, without_runs};
ghost use Rattle.rl_program.specs.Answer.{MayRead, NamesNoFile, WasAnsweredTo};

use crate::checking::{answer_check, answer_check_in_threads};
use crate::command::{Form, RunFiles};
use crate::replaying::replayed;
use crate::running::run_text;
use crate::showing::shown;
use rl_inputs::{Answer, Files, Stop};
use rl_io::{Gate, Source};
use rl_making::made_summary;
use std::alloc::Global;
use std::sync::Wait;
use std::thread::Threads;

/// The one line that says which words are a form.
fn usage(alloc: Global) -> Result<Answer, Stop>
    ensures answer { IfOk result (λ answer. answer ≡ record { status = 1; text = usage_text }) }
    ensures memory { IfErr result (λ why. why ≡ Memory) }
{
    let text = Vec::from_slice(
        alloc,
        b"usage: rmalock run PLACE CALLS | replay PLACE CALLS SCHEDULE | make NUMBER RANKS CALLS | check PLACE CALLS REPORT | show PLACE\n",
    )?;
    Ok(Answer::new(1, text))
}

/// The answer to a replay of these files.
fn answer_replay<S: Source>(alloc: Global, source: &mut S, files: Files<'_>) -> Result<Answer, Stop>
    requires { MayRead (S.may_open source.old) (Some (Replay (named files))) }
    ensures answered { WasAnsweredTo (Some (Replay (named files.entry))) (S.file source.old) result }
    ensures status { IfOk result (λ answer. IsAnswerStatus answer.status) }
    ensures faults { RisesWithFault stopped_by_fault result (S.faults source.old) (S.faults source.new) }
{
    let text = replayed(alloc, source, files)?;
    Ok(Answer::new(0, text))
}

/// The answer to a run of these files.
fn answer_run<S: Source, G: Gate, R: Threads + Wait + Sync>(
    rt: &R,
    alloc: Global,
    source: &mut S,
    files: RunFiles<'_>,
    gate: &G,
) -> Result<Answer, Stop>
    requires { MayRead (S.may_open source.old) (Some (Run (run_named files))) }
    ensures answered { WasAnsweredTo (Some (Run (run_named files.entry))) (S.file source.old) result }
    ensures status { IfOk result (λ answer. IsAnswerStatus answer.status) }
    ensures faults { RisesWithFault stopped_by_fault result (S.faults source.old) (S.faults source.new) }
{
    let text = run_text(rt, alloc, source, files, gate)?;
    Ok(Answer::new(0, text))
}

/// The summary of what a generator makes from a number, for so many ranks and calls.
fn answer_make(alloc: Global, number: u64, ranks: u32, calls: u32) -> Result<Answer, Stop>
    requires { AskFits (Make number ranks calls) }
    ensures answer { IfOk result (λ answer. answer ≡ record { status = 0; text = made_summary number ranks calls }) }
    ensures memory { IfErr result (λ why. why ≡ Memory) }
{
    let text = made_summary(alloc, number, ranks, calls)?;
    Ok(Answer::new(0, text))
}

/// The answer to the shape of the placement in a file.
fn answer_show<S: Source>(alloc: Global, source: &mut S, place: &str) -> Result<Answer, Stop>
    requires { MayRead (S.may_open source.old) (Some (Show place.now)) }
    ensures answered { WasAnsweredTo (Some (Show place.now)) (S.file source.old) result }
    ensures status { IfOk result (λ answer. IsAnswerStatus answer.status) }
    ensures faults { RisesWithFault stopped_by_fault result (S.faults source.old) (S.faults source.new) }
{
    let text = shown(alloc, source, place)?;
    Ok(Answer::new(0, text))
}

/// The answer to what is asked for, without threads: a run is no form.
pub fn answer_alone<S: Source>(
    alloc: Global,
    form: Option<Form<'_>>,
    source: &mut S,
) -> Result<Answer, Stop>
    requires may_read { MayRead (S.may_open source.old) (without_runs (option_map asked form)) }
    requires fits { IfSome form (λ form. AskFits (asked form)) }
    ensures answered { WasAnsweredTo (without_runs (option_map asked form.entry)) (S.file source.old) result }
    ensures status { IfOk result (λ answer. IsAnswerStatus answer.status) }
    ensures faults { RisesWithFault stopped_by_fault result (S.faults source.old) (S.faults source.new) }
    ensures unread { NamesNoFile (without_runs (option_map asked form.entry)) → source.new ≡ source.old }
{
    match form {
        Some(Form::Replay(files)) => answer_replay(alloc, source, files),
        Some(Form::Run(_)) => usage(alloc),
        Some(Form::Check(files)) => answer_check(alloc, source, files),
        Some(
            Form::Make {
                number,
                ranks,
                calls,
            },
        ) => answer_make(alloc, number, ranks, calls),
        Some(Form::Show { place }) => answer_show(alloc, source, place),
        None => usage(alloc),
    }
}

/// The answer to what is asked for, with threads for a run, and for a check that is worth them. The gate stands at the calls and steps of a
/// run.
pub fn answer_in_threads<S: Source, G: Gate, R: Threads + Wait + Sync>(
    rt: &R,
    alloc: Global,
    form: Option<Form<'_>>,
    source: &mut S,
    gate: &G,
) -> Result<Answer, Stop>
    requires may_read { MayRead (S.may_open source.old) (option_map asked form) }
    requires fits { IfSome form (λ form. AskFits (asked form)) }
    ensures answered { WasAnsweredTo (option_map asked form.entry) (S.file source.old) result }
    ensures status { IfOk result (λ answer. IsAnswerStatus answer.status) }
    ensures faults { RisesWithFault stopped_by_fault result (S.faults source.old) (S.faults source.new) }
    ensures unread { NamesNoFile (option_map asked form.entry) → source.new ≡ source.old }
{
    match form {
        Some(Form::Replay(files)) => answer_replay(alloc, source, files),
        Some(Form::Run(files)) => answer_run(rt, alloc, source, files, gate),
        Some(Form::Check(files)) => answer_check_in_threads(rt, alloc, source, files),
        Some(
            Form::Make {
                number,
                ranks,
                calls,
            },
        ) => answer_make(alloc, number, ranks, calls),
        Some(Form::Show { place }) => answer_show(alloc, source, place),
        None => usage(alloc),
    }
}
