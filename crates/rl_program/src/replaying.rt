//! A replay: of a placement, calls and a schedule, and of the files that spell them.
ghost use Rattle.std.specs.Prelude.{◌≡◌, length, IfOk, Some};
ghost use Rattle.rl_inputs.specs.Fitting.{IsProper, shape_of, knobs_of, name_of, lock_under, does_batches, OpsFit, SuitsLock, ScheduleFits, ReplayFits};
ghost use Rattle.rl_check.specs.LawfulReplays.{IsLawfulReplay};
ghost use Rattle.rl_check.specs.Legal.{IsLegalReport};
ghost use Rattle.rl_inputs.specs.Files.{named};
ghost use Rattle.rl_program.specs.Command.{Replay};
ghost use Rattle.rl_program.specs.Replay.{IsReportOf, report_of_replay};
ghost use Rattle.rl_program.specs.Headline.{IsKept, KeepsPromises};
ghost use Rattle.rl_io.specs.Whole.{RisesWithFault};
ghost use Rattle.rl_inputs.specs.Reading.{stopped_by_fault};
ghost use Rattle.rl_program.specs.Answer.{MayRead, WasReplayed};

use rl_check::report_laws;
use rl_core::{Resting, ShardGuiding};
use rl_inputs::{Files, Stop, read_called, read_placed, read_scheduled};
use rl_io::Source;
use rl_locks::{CoreTask, Promising, over_lock, ways_of_machine};
use rl_ops::{Ops, Schedule};
use rl_place::Place;
use rl_replay::replay;
use rl_report::{Report, report_text};
use rl_reporting::report_of_machine;
use std::alloc::{AllocError as OutOfMemory, Global};

/// The report of a replay with this core, which is that of the placement's lock.
fn report_with<C: Resting + Promising>(
    alloc: Global,
    place: &Place,
    ops: Ops,
    schedule: &Schedule,
) -> Result<Report, OutOfMemory>
    requires proper { IsProper place.now }
    requires knobs { C.suits_knobs (shape_of place.now) (knobs_of place.now.lock) }
    requires kind { C.name ≡ lock_under (name_of place.now.lock) }
    requires batches { C.batches ≡ does_batches (name_of place.now.lock) }
    requires may { ReplayFits place.now ops schedule.now }
    ensures report { IfOk result (IsReportOf C.defined place.now ops schedule.now) }
    ensures kept { IfOk result (λ _. IsKept C.defined C.promised C.ways place.now ops schedule.now) }
    ensures lawful { IfOk result (λ report. IsLawfulReplay place.now ops report) }
{
    let shape = place.shape(alloc)?;
    let knobs = place.knobs();
    let homes = place.homes.as_slice();
    let turns = schedule.turns.as_slice();
    let machine = replay::<C>(alloc, &shape, knobs, place.geom, homes, ops, turns)?;
    ways_of_machine(&machine);
    report_of_machine(alloc, place, &machine)
}

/// A replay, with the core of whichever lock the placement has.
#[derive(Drop)]
struct ReplayTask<'a> {
    alloc: Global,
    ops: Ops,
    schedule: &'a Schedule,
}

impl CoreTask for ReplayTask<'_> {
    type Out = Result<Report, OutOfMemory>;

    ghost takes = { λ r place. ReplayFits place r.ops r.schedule.now };

    ghost gives = { λ r place kind urgent result.
        IfOk result (IsReportOf kind.defined place r.ops r.schedule.now)
        × IfOk result (λ _. IsKept kind.defined kind.promised kind.ways place r.ops r.schedule.now)
        × IfOk result (λ report. IsLawfulReplay place r.ops report) };

    fn over<C: Resting + Promising + ShardGuiding>(
        self,
        place: &Place,
    ) -> Result<Report, OutOfMemory> {
        report_with::<C>(self.alloc, place, self.ops, self.schedule)
    }
}

/// The report of a replay, exactly the schedule's steps; the calls and the schedule are of the placement's ranks, and no batch is among the
/// calls where the lock does none. It is lawful.
pub fn replay_report(
    alloc: Global,
    place: &Place,
    ops: Ops,
    schedule: &Schedule,
) -> Result<Report, OutOfMemory>
    requires proper { IsProper place.now }
    requires calls { OpsFit (length place.now.paths) place.now.geom.shards ops }
    requires suits { SuitsLock place.now ops }
    requires schedule { ScheduleFits (length place.now.paths) schedule.now }
    ensures report { IfOk result (λ report. report ≡ report_of_replay place.now ops schedule.now) }
    ensures kept { IfOk result (λ _. KeepsPromises place.now ops schedule.now) }
    ensures lawful { IfOk result (λ report. IsLawfulReplay place.now ops report) }
    // So a check finds it legal.
    ensures legal { IfOk result (λ report. IsLegalReport place.now ops report) }
{
    report_laws();
    over_lock(
        place,
        ReplayTask {
            alloc,
            ops,
            schedule,
        },
    )
}

/// The text of the report of a replay of these files.
#[tactic(auto, unfolding(crate::specs::Answer::replayed))]
pub fn replayed<S: Source>(alloc: Global, source: &mut S, files: Files<'_>) -> Result<Vec<u8>, Stop>
    requires { MayRead (S.may_open source.old) (Some (Replay (named files))) }
    ensures replayed { WasReplayed (S.file source.old) (named files.entry) result }
    ensures faults { RisesWithFault stopped_by_fault result (S.faults source.old) (S.faults source.new) }
{
    let place = read_placed(alloc, source, files.place)?;
    let ops = read_called(alloc, source, files.calls, &place)?;
    let schedule = read_scheduled(alloc, source, files.schedule, &place)?;
    let report = replay_report(alloc, &place, ops, &schedule)?;
    Ok(report_text(alloc, &place, &report)?)
}
