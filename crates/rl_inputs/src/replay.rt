//! The three files of a replay, read one after the other.
ghost use Rattle.std.specs.Prelude.{◌≡◌, length, IfOk};
ghost use Rattle.rl_io.specs.Whole.{RisesWithFault};
ghost use Rattle.rl_place.specs.Places.{IsProper};
ghost use Rattle.rl_ops.specs.Ops.{OpsFit};
ghost use Rattle.rl_ops.specs.Schedule.{ScheduleFits};
ghost use Rattle.rl_inputs.specs.Reading.{SuitsLock, stopped_by_fault};
ghost use Rattle.rl_inputs.specs.Files.{named, MayOpenFiles, WereRead};

use crate::files::Files;
use crate::reading::{read_called, read_placed, read_scheduled};
use crate::stop::Stop;
use rl_io::Source;
use rl_ops::{Ops, Schedule};
use rl_place::Place;
use std::alloc::Global;

/// What the files of a replay spell.
#[derive(Drop)]
pub struct Replay {
    pub place: Place,
    pub ops: Ops,
    pub schedule: Schedule,
}

/// Reads the placement, then the calls, then the schedule; each is parsed before the next is opened. The first that is too
/// long or refused ends it (`Stop::Refused`), as calls with a batch do where the placement's lock does none; `Stop::Fault` comes exactly where
/// the source's count of faults rose. The calls and the schedule are of the placement's ranks.
#[tactic(auto, unfolding(crate::specs::Files::spelled))]
pub fn read_replay<S: Source>(
    alloc: Global,
    source: &mut S,
    files: Files<'_>,
) -> Result<Replay, Stop>
    requires { MayOpenFiles (S.may_open source.old) (named files) }
    ensures read { WereRead (S.file source.old) (named files.entry) result }
    ensures proper { IfOk result (λ replay. IsProper replay.place) }
    ensures calls { IfOk result (λ replay. OpsFit (length replay.place.paths) replay.place.geom.shards replay.ops) }
    ensures suits { IfOk result (λ replay. SuitsLock replay.place replay.ops) }
    ensures schedule { IfOk result (λ replay. ScheduleFits (length replay.place.paths) replay.schedule) }
    ensures faults { RisesWithFault stopped_by_fault result (S.faults source.old) (S.faults source.new) }
{
    let place = read_placed(alloc, source, files.place)?;
    let ops = read_called(alloc, source, files.calls, &place)?;
    let schedule = read_scheduled(alloc, source, files.schedule, &place)?;
    Ok(Replay {
        place,
        ops,
        schedule,
    })
}
