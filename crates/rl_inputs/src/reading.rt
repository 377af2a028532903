//! How the files of a replay are read.
ghost use Rattle.std.specs.Prelude.{◌≡◌, ◌≤◌, ◌<◌, IsTrue, IfOk, length, Ok, Err, IfErr, false};
ghost use Rattle.rl_io.specs.Outside.{SameFiles};
ghost use Rattle.rl_io.specs.Whole.{RisesWithFault};
ghost use Rattle.rl_step.specs.LockQueues.{does_batches};
ghost use Rattle.rl_place.specs.LockWords.{name_of};
ghost use Rattle.rl_place.specs.Places.{IsProper};
ghost use Rattle.rl_ops.specs.Ops.{OpsFit};
ghost use Rattle.rl_ops.specs.Schedule.{ScheduleFits};
ghost use Rattle.rl_inputs.specs.Reading.{WasRead, Ends, stopped_by_fault, within, as_done, placed, called, scheduled, SuitsLock};

use crate::stop::{Stop, refuse, stopped};
use rl_io::{ReadErr, Source, read_file};
use rl_ops::{Ops, Schedule, read_ops, read_schedule};
use rl_place::{Place, read_place};
use std::alloc::Global;

/// A placement or a calls file has at most this many bytes.
pub const MOST_WORDS: u32 = 4_194_304;

/// A schedule has at most this many bytes.
pub const MOST_SCHEDULE: u32 = 16_777_216;

/// The bytes of a file that isn't longer than this.
pub fn read_within<S: Source>(
    alloc: Global,
    source: &mut S,
    name: &str,
    most: u32,
) -> Result<Vec<u8>, Stop>
    requires { IsTrue (S.may_open source.old name.now) }
    ensures read { WasRead (S.file source.old name.now) (λ bytes. bytes.items) (within name.now most) result }
    ensures short { IfOk result (λ bytes. length bytes.items ≤ most) }
    ensures faults { RisesWithFault stopped_by_fault result (S.faults source.old) (S.faults source.new) }
    ensures same { SameFiles S.file S.may_open source.old source.new }
{
    match read_file(alloc, source, name, most) {
        Ok(bytes) => Ok(bytes),
        Err(ReadErr::Fault) => Err(Stop::Fault),
        Err(ReadErr::TooLong { .. }) => Err(refuse(alloc, name, "toolong")),
        Err(ReadErr::Memory) => Err(Stop::Memory),
    }
}

/// The placement of a file.
#[tactic(auto, unfolding(crate::specs::Reading::placed))]
pub fn read_placed<S: Source>(alloc: Global, source: &mut S, name: &str) -> Result<Place, Stop>
    requires { IsTrue (S.may_open source.old name.now) }
    ensures read { WasRead (S.file source.old name.now) (λ place. place) (placed name.now) result }
    ensures proper { IfOk result (λ place. IsProper place) }
    ensures faults { RisesWithFault stopped_by_fault result (S.faults source.old) (S.faults source.new) }
    ensures same { SameFiles S.file S.may_open source.old source.new }
{
    let bytes = read_within(alloc, source, name, MOST_WORDS)?;
    match read_place(alloc, bytes.as_slice()) {
        Ok(place) => Ok(place),
        Err(error) => Err(stopped(alloc, name, error)),
    }
}

/// Whether a placement's lock does batches.
fn does_batches(place: &Place) -> bool
    ensures { result ≡ does_batches (name_of place.now.lock) }
{
    place.lock.name().facts().batches
}

/// The calls of the file of this name, if the placement's lock can do them.
fn as_done(alloc: Global, name: &str, place: &Place, ops: Ops) -> Result<Ops, Stop>
    ensures done { Ends (λ ops. ops) result (as_done name.now place.now ops) }
    ensures same { IfOk result (λ taken. taken ≡ ops) }
    ensures no_fault { IfErr result (λ why. stopped_by_fault why ≡ false) }
    ensures suits { IfOk result (λ ops. SuitsLock place.now ops) }
{
    if !does_batches(place) && ops.has_batch() {
        return Err(refuse(alloc, name, "word"));
    }
    Ok(ops)
}

/// The calls of a file. Refused too where they have a batch and the placement's lock does none.
#[tactic(auto, unfolding(crate::specs::Reading::called))]
pub fn read_called<S: Source>(
    alloc: Global,
    source: &mut S,
    name: &str,
    place: &Place,
) -> Result<Ops, Stop>
    requires may_open { IsTrue (S.may_open source.old name.now) }
    requires proper { IsProper place.now }
    ensures read { WasRead (S.file source.old name.now) (λ ops. ops) (called name.now place.now) result }
    ensures fits { IfOk result (λ ops. OpsFit (length place.now.paths) place.now.geom.shards ops) }
    ensures suits { IfOk result (λ ops. SuitsLock place.now ops) }
    ensures faults { RisesWithFault stopped_by_fault result (S.faults source.old) (S.faults source.new) }
    ensures same { SameFiles S.file S.may_open source.old source.new }
{
    let bytes = read_within(alloc, source, name, MOST_WORDS)?;
    let ranks = place.paths.len() as u32;
    match read_ops(alloc, ranks, place.geom.shards, bytes.as_slice()) {
        Ok(ops) => as_done(alloc, name, place, ops),
        Err(error) => Err(stopped(alloc, name, error)),
    }
}

/// The schedule of a file. It may have two million turns: so the loop that reads them stands apart from its caller.
#[inline(never)]
#[tactic(auto, unfolding(crate::specs::Reading::scheduled))]
pub fn read_scheduled<S: Source>(
    alloc: Global,
    source: &mut S,
    name: &str,
    place: &Place,
) -> Result<Schedule, Stop>
    requires may_open { IsTrue (S.may_open source.old name.now) }
    requires proper { IsProper place.now }
    ensures read { WasRead (S.file source.old name.now) (λ schedule. schedule) (scheduled name.now place.now) result }
    ensures fits { IfOk result (λ schedule. ScheduleFits (length place.now.paths) schedule) }
    ensures faults { RisesWithFault stopped_by_fault result (S.faults source.old) (S.faults source.new) }
    ensures same { SameFiles S.file S.may_open source.old source.new }
{
    let bytes = read_within(alloc, source, name, MOST_SCHEDULE)?;
    let ranks = place.paths.len() as u8;
    match read_schedule(alloc, ranks, bytes.as_slice()) {
        Ok(schedule) => Ok(schedule),
        Err(error) => Err(stopped(alloc, name, error)),
    }
}
