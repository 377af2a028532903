//! A check: whether the report in a file is legal for a placement and calls.
ghost use Rattle.std.specs.Prelude.{◌≡◌, IfOk, IsTrue, Some};
ghost use Rattle.std.specs.List.{join_with_byte};
ghost use Rattle.rl_text.specs.Printing.{Puts};
ghost use Rattle.rl_place.specs.Places.{IsProper};
ghost use Rattle.rl_report.specs.Naming.{naming_of};
ghost use Rattle.rl_report.specs.Reports.{ReportFits};
ghost use Rattle.rl_io.specs.Whole.{RisesWithFault};
ghost use Rattle.rl_inputs.specs.Done.{IsAnswerStatus};
ghost use Rattle.rl_inputs.specs.Reading.{WasRead, stopped_by_fault};
ghost use Rattle.rl_program.specs.Command.{Check, check_named};
ghost use Rattle.rl_program.specs.Answer.{MayRead, WasAnsweredTo};
ghost use Rattle.rl_program.specs.CheckAnswer.{group_words, verdict, reported, AreProper, WereChecked};

use crate::command::CheckFiles;
use rl_check::{Group, Illegal, check_all, check_one};
use rl_inputs::{Answer, Stop, read_called, read_placed, read_within, stopped};
use rl_io::Source;
use rl_ops::Ops;
use rl_place::Place;
use rl_report::{Report, read_report};
use rl_text::put_number;
use std::alloc::{AllocError as OutOfMemory, Global};
use std::thread::Threads;

/// A report has at most this many bytes.
pub const MOST_REPORT: u32 = 16_777_216;

/// What the files of a check spell.
#[derive(Drop)]
struct Checked {
    place: Place,
    ops: Ops,
    report: Report,
}

/// The report of a placement in a file.
#[tactic(auto, unfolding(crate::specs::CheckAnswer::reported))]
fn read_reported<S: Source>(
    alloc: Global,
    source: &mut S,
    name: &str,
    place: &Place,
) -> Result<Report, Stop>
    requires may_open { IsTrue (S.may_open source.old name.now) }
    requires proper { IsProper place.now }
    ensures read { WasRead (S.file source.old name.now) (λ report. report) (reported name.now place.now) result }
    ensures fits { IfOk result (λ report. ReportFits (naming_of place.now) report) }
    ensures faults { RisesWithFault stopped_by_fault result (S.faults source.old) (S.faults source.new) }
{
    let bytes = read_within(alloc, source, name, MOST_REPORT)?;
    match read_report(alloc, place, bytes.as_slice()) {
        Ok(report) => Ok(report),
        Err(error) => Err(stopped(alloc, name, error)),
    }
}

/// What the files of a check spell, one read after the other: the first that is too long or refused ends it.
#[tactic(auto, unfolding(crate::specs::CheckAnswer::checked))]
fn read_checked<S: Source>(
    alloc: Global,
    source: &mut S,
    files: CheckFiles<'_>,
) -> Result<Checked, Stop>
    requires { MayRead (S.may_open source.old) (Some (Check (check_named files))) }
    ensures read { WereChecked (S.file source.old) (check_named files.entry) result }
    ensures proper { IfOk result AreProper }
    ensures faults { RisesWithFault stopped_by_fault result (S.faults source.old) (S.faults source.new) }
{
    let place = read_placed(alloc, source, files.place)?;
    let ops = read_called(alloc, source, files.calls, &place)?;
    let report = read_reported(alloc, source, files.report, &place)?;
    Ok(Checked { place, ops, report })
}

/// Appends a shard or a rank: its kind and its number.
fn put_group(line: &mut Vec<u8>, group: Group) -> Result<(), OutOfMemory>
    ensures { Puts result line.old line.new (join_with_byte 32 (group_words group)) }
{
    match group {
        Group::Shard(shard) => {
            line.extend_from_slice(b"shard ")?;
            put_number(line, u64::from(shard))
        }
        Group::Rank(rank) => {
            line.extend_from_slice(b"rank ")?;
            put_number(line, u64::from(rank))
        }
    }
}

/// The line of a fault: `illegal`, its shard or rank, its place and its test.
fn fault_line(alloc: Global, fault: Illegal) -> Result<Vec<u8>, OutOfMemory>
    ensures { IfOk result (λ line. line.items ≡ (verdict (Some fault)).text) }
{
    let mut line = Vec::from_slice(alloc, b"illegal ")?;
    put_group(&mut line, fault.group)?;
    line.push(b' ')?;
    put_number(&mut line, u64::from(fault.place))?;
    line.push(b' ')?;
    line.extend_from_slice(fault.test.word().as_bytes())?;
    line.push(b'\n')?;
    Ok(line)
}

/// The answer to what is found: `legal`, or the first fault.
fn verdict(alloc: Global, found: Option<Illegal>) -> Result<Answer, OutOfMemory>
    ensures { IfOk result (λ answer. answer ≡ verdict found) }
{
    match found {
        None => Ok(Answer::new(0, Vec::from_slice(alloc, b"legal\n")?)),
        Some(fault) => Ok(Answer::new(6, fault_line(alloc, fault)?)),
    }
}

/// The answer to a check of these files, in one thread.
pub fn answer_check<S: Source>(
    alloc: Global,
    source: &mut S,
    files: CheckFiles<'_>,
) -> Result<Answer, Stop>
    requires { MayRead (S.may_open source.old) (Some (Check (check_named files))) }
    ensures answered { WasAnsweredTo (Some (Check (check_named files.entry))) (S.file source.old) result }
    ensures status { IfOk result (λ answer. IsAnswerStatus answer.status) }
    ensures faults { RisesWithFault stopped_by_fault result (S.faults source.old) (S.faults source.new) }
{
    let read = read_checked(alloc, source, files)?;
    let found = check_one(alloc, &read.place, &read.ops, &read.report)?;
    Ok(verdict(alloc, found)?)
}

/// The same, where the tests of several shards are made side by side, and then those of several ranks, if [`check_all`] finds it worth
/// the threads.
pub fn answer_check_in_threads<S: Source>(
    rt: &(impl Threads + Sync),
    alloc: Global,
    source: &mut S,
    files: CheckFiles<'_>,
) -> Result<Answer, Stop>
    requires { MayRead (S.may_open source.old) (Some (Check (check_named files))) }
    ensures answered { WasAnsweredTo (Some (Check (check_named files.entry))) (S.file source.old) result }
    ensures status { IfOk result (λ answer. IsAnswerStatus answer.status) }
    ensures faults { RisesWithFault stopped_by_fault result (S.faults source.old) (S.faults source.new) }
{
    let read = read_checked(alloc, source, files)?;
    let found = check_all(rt, alloc, &read.place, &read.ops, &read.report)?;
    Ok(verdict(alloc, found)?)
}
