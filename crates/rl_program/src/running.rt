//! A run: of a placement and calls by threads, and of the files that spell them.
ghost use Rattle.std.specs.Prelude.{◌≡◌, length, IfOk, Some};
ghost use Rattle.rl_inputs.specs.Fitting.{IsProper, OpsFit, SuitsLock};
ghost use Rattle.rl_report.specs.Lawful.{IsLawful};
ghost use Rattle.rl_run.specs.Made.{IsRunBy};
ghost use Rattle.rl_locks.specs.Kinds.{lock_kind_of};
ghost use Rattle.rl_io.specs.Whole.{RisesWithFault};
ghost use Rattle.rl_inputs.specs.Reading.{stopped_by_fault};
ghost use Rattle.rl_program.specs.Command.{Run, run_named};
ghost use Rattle.rl_program.specs.Answer.{MayRead};
ghost use Rattle.rl_program.specs.RunAnswer.{WasRun};

use crate::command::RunFiles;
use rl_check::report_laws;
use rl_inputs::{Stop, read_called, read_placed};
use rl_io::{Gate, Source};
use rl_locks::{
    AlockCore, CombineCore, DmcsCore, McsCore, RwCore, SeqCore, SpinCore, settings_suit,
};
use rl_ops::Ops;
use rl_place::{Lock, Place};
use rl_report::{Report, report_text};
use rl_run::run_all;
use std::alloc::{AllocError as OutOfMemory, Global};
use std::sync::Wait;
use std::thread::Threads;

/// A report of a run of all calls of a placement's ranks, a thread for each rank, over the placement's kind of lock; no batch is among the
/// calls where the lock does none. The report tells of each shard what some order of the ranks' openings and atoms leaves there, each of the
/// machine that a replay of the placement has (`made`). It may wait, and returns when all calls are done. Refused only for want of memory.
pub fn run_report<G: Gate, R: Threads + Wait + Sync>(
    rt: &R,
    alloc: Global,
    place: &Place,
    ops: Ops,
    gate: &G,
) -> Result<Report, OutOfMemory>
    requires proper { IsProper place.now }
    requires calls { OpsFit (length place.now.paths) place.now.geom.shards ops }
    requires suits { SuitsLock place.now ops }
    ensures lawful { IfOk result (λ report. IsLawful place.now ops report) }
    ensures made { IfOk result (λ report. IsRunBy (lock_kind_of place.now.lock).defined place.now ops report) }
{
    settings_suit();
    match &place.lock {
        Lock::Spin => run_all::<SpinCore, G, R>(rt, alloc, place, ops, gate),
        Lock::Dmcs => run_all::<DmcsCore, G, R>(rt, alloc, place, ops, gate),
        Lock::Alock { .. } => run_all::<AlockCore, G, R>(rt, alloc, place, ops, gate),
        Lock::Mcs { .. } => run_all::<McsCore, G, R>(rt, alloc, place, ops, gate),
        Lock::Rw { .. } => run_all::<RwCore, G, R>(rt, alloc, place, ops, gate),
        Lock::Seq { .. } => run_all::<SeqCore, G, R>(rt, alloc, place, ops, gate),
        Lock::Combine { .. } => run_all::<CombineCore, G, R>(rt, alloc, place, ops, gate),
    }
}

/// The text of a report of a run of these files.
#[tactic(auto, unfolding(crate::specs::RunAnswer::run_read))]
pub fn run_text<S: Source, G: Gate, R: Threads + Wait + Sync>(
    rt: &R,
    alloc: Global,
    source: &mut S,
    files: RunFiles<'_>,
    gate: &G,
) -> Result<Vec<u8>, Stop>
    requires { MayRead (S.may_open source.old) (Some (Run (run_named files))) }
    ensures run { WasRun (S.file source.old) (run_named files.entry) result }
    ensures faults { RisesWithFault stopped_by_fault result (S.faults source.old) (S.faults source.new) }
{
    let place = read_placed(alloc, source, files.place)?;
    let ops = read_called(alloc, source, files.calls, &place)?;
    let report = run_report(rt, alloc, &place, ops, gate)?;
    report_laws();
    Ok(report_text(alloc, &place, &report)?)
}
