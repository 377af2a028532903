//! A schedule with the turns behind it by which all calls of all ranks end.
ghost use Rattle.std.specs.Prelude.{◌≡◌, ◌<◌, ◌≤◌, ◌^◌, ◌++◌, length, sum_by, IfOk, IfErr};
ghost use Rattle.rl_inputs.specs.Fitting.{IsProper, shape_of, knobs_of, name_of, does_batches, OpsFit, SuitsLock, ScheduleFits};
ghost use Rattle.rl_ops.specs.Schedule.{schedule_spelling, steps_of};
ghost use Rattle.rl_ops.specs.ScheduleReading.{IsReadAsSchedule};
ghost use Rattle.rl_locks.specs.Urgencies.{EachUrgency};
ghost use Rattle.rl_completed.specs.Completing.{MayGoOn, ComeBehind, IsCompleteUnder, IsWhyNotUnder, IsLong};

use crate::stops::first_stop;
use crate::uncompleted::{Reason, Uncompleted};
use rl_core::{Resting, ShardGuiding};
use rl_finish::finish;
use rl_locks::{CoreTask, Promising, over_lock};
use rl_ops::{MOST_STEPS, Ops, Schedule, Turn, Turns, schedule_text};
use rl_place::Place;
use rl_replay::replay;
use std::alloc::{AllocError as OutOfMemory, Global};

/// A schedule file has at most this many bytes.
const MOST_BYTES: usize = 16_777_216;

/// How many steps these turns have.
fn total_steps(turns: &[Turn]) -> u32
    requires { sum_by steps_of turns.now < 2 ^ 32 }
    ensures { result ≡ sum_by steps_of turns.now }
{
    turns.iter().map(|turn| turn.steps()).sum()
}

/// The turns behind a schedule by which all calls end, with this core, which is that of the placement's lock.
fn way_on_with<C: Resting + ShardGuiding>(
    alloc: Global,
    place: &Place,
    ops: Ops,
    schedule: &Schedule,
) -> Result<Turns, Uncompleted>
    requires proper { IsProper place.now }
    requires knobs { C.suits_knobs (shape_of place.now) (knobs_of place.now.lock) }
    requires batches { C.batches ≡ does_batches (name_of place.now.lock) }
    requires may { MayGoOn place.now ops schedule.now }
    ensures { EachUrgency C.says C.urgent C.defined (λ urgent. ComeBehind C.defined urgent place.now ops schedule.now) result }
{
    let shape = place.shape(alloc)?;
    let knobs = place.knobs();
    let homes = place.homes.as_slice();
    let turns = schedule.turns.as_slice();
    let most = MOST_STEPS - total_steps(turns);
    let mut machine = replay::<C>(alloc, &shape, knobs, place.geom, homes, ops, turns)?;
    let way = finish(&mut machine, alloc, most)?;
    if way.ended {
        Ok(way.turns)
    } else {
        Err(Uncompleted::Refused(Reason::Steps))
    }
}

/// The turns behind a schedule, with the core of whichever lock the placement has.
#[derive(Drop)]
struct WayTask<'a> {
    alloc: Global,
    ops: Ops,
    schedule: &'a Schedule,
}

impl CoreTask for WayTask<'_> {
    type Out = Result<Turns, Uncompleted>;

    ghost takes = { λ r place. MayGoOn place r.ops r.schedule.now };

    ghost gives = { λ r place kind urgent result. ComeBehind kind.defined urgent place r.ops r.schedule.now result };

    fn over<C: Resting + Promising + ShardGuiding>(
        self,
        place: &Place,
    ) -> Result<Turns, Uncompleted> {
        way_on_with::<C>(self.alloc, place, self.ops, self.schedule)
    }
}

/// A schedule with these turns behind its own.
fn joined(schedule: Schedule, more: &[Turn]) -> Result<Schedule, OutOfMemory>
    ensures { IfOk result (λ whole. whole ≡ record { turns = schedule.turns ++ more.now }) }
{
    let mut turns = schedule.turns.into_vec();
    turns.extend_from_slice(more)?;
    Ok(Schedule {
        turns: Turns::from_vec(turns),
    })
}

/// The text of a schedule, if it isn't longer than a schedule file may be.
fn text_within(alloc: Global, schedule: &Schedule) -> Result<Vec<u8>, Uncompleted>
    ensures text { IfOk result (λ text. (text.items ≡ schedule_spelling schedule.now) × (length text.items ≤ 16777216)) }
    ensures again { IfOk result (λ text. IsReadAsSchedule text.items schedule.now) }
    ensures long { IfErr result (λ why. IsLong (schedule_spelling schedule.now) why) }
{
    let text = schedule_text(alloc, schedule)?;
    if text.len() > MOST_BYTES {
        return Err(Uncompleted::Refused(Reason::Bytes));
    }
    Ok(text)
}

/// The text of a schedule made complete: its turns as they are, and behind them those of the way on, by which all calls of all ranks end. A
/// replay of the placement and the calls takes it.
///
/// The calls and the schedule are of the placement's ranks, and no batch is among the calls where the lock does none. The way on is the steps of
/// whoever goes next, one after the other, as the kind of the lock defines it. Refused where a rank is stopped, at the line of the first stop;
/// where the way on makes the whole longer than 2,000,000 steps, or its text longer than 16,777,216 bytes; and for want of memory.
pub fn completed(
    alloc: Global,
    place: &Place,
    ops: Ops,
    schedule: Schedule,
) -> Result<Vec<u8>, Uncompleted>
    requires proper { IsProper place.now }
    requires calls { OpsFit (length place.now.paths) place.now.geom.shards ops }
    requires suits { SuitsLock place.now ops }
    requires schedule { ScheduleFits (length place.now.paths) schedule }
    ensures complete { IfOk result (λ text. IsCompleteUnder place.now ops schedule text.items) }
    ensures why_not { IfErr result (IsWhyNotUnder place.now ops schedule) }
{
    if let Some(line) = first_stop(schedule.turns.as_slice()) {
        return Err(Uncompleted::Refused(Reason::Stopped { line }));
    }
    let way = over_lock(
        place,
        WayTask {
            alloc,
            ops,
            schedule: &schedule,
        },
    )?;
    let whole = joined(schedule, way.as_slice())?;
    text_within(alloc, &whole)
}
