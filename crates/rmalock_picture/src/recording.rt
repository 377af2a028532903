//! A machine is made, makes the steps of a schedule, and each step is taken down.
ghost use Rattle.std.specs.Prelude.{◌≡◌, ◌+◌, ◌-◌, ◌<◌, ◌≤◌, ◌^◌, true, length, vec_len, IfOk};
ghost use Rattle.rl_model.specs.Geom.{GeomFits};
ghost use Rattle.rl_inputs.specs.Fitting.{IsProper, shape_of, knobs_of, name_of, does_batches, OpsFit, SuitsLock, ScheduleFits};
ghost use Rattle.rl_ops.specs.Schedule.{TurnFits};
ghost use Rattle.rl_step.specs.Answers.{steps_made};

use crate::deeds::{Deed, Remark, deed_of};
use crate::lanes::{Cell, Lane, Moment};
use rl_core::{Resting, ShardCore, ShardGuiding};
use rl_locks::{CoreTask, Promising, over_lock};
use rl_machine::Machine;
use rl_names::{WordMap, put_step};
use rl_ops::{Ops, Schedule, Turn};
use rl_place::Place;
use rl_report::Naming;
use rl_step::Event;
use rl_viewer::Window;
use std::alloc::{AllocError as OutOfMemory, Global};

/// What is seen of a machine: the placement, by whose names its steps are told, and the step before which the window ends.
#[derive(Clone, Copy)]
struct View<'a> {
    alloc: Global,
    place: &'a Place,
    naming: &'a Naming,
    until: u32,
}

/// A lane for each of so many ranks.
fn first_lanes(alloc: Global, ranks: u32, first: u32) -> Result<Vec<Lane>, OutOfMemory>
    ensures { IfOk result (λ lanes. vec_len lanes ≡ ranks) }
{
    let mut lanes = Vec::new(alloc);
    for rank in 0..ranks {
        lanes.push(Lane::new(alloc, rank, first))?;
    }
    Ok(lanes)
}

/// The events of one step, which are the last of a shard's.
fn events_of_step(events: &[(u32, Event)], step: u32) -> &[(u32, Event)] {
    let mut first = events.len();
    while first > 0 && events[first - 1].0 == step {
        first -= 1;
    }
    &events[first..]
}

/// What a rank's next step does to a word. Its next block is opened.
fn next_deed<C: ShardCore>(view: View<'_>, machine: &mut Machine<C>, rank: u32) -> Option<Deed>
    requires there { rank < length machine.old.calls }
    requires fits { GeomFits view.place.now.geom }
    ensures ranks { machine.new.calls ≡ machine.old.calls }
    ensures counted { machine.new.steps ≡ machine.old.steps }
{
    machine.open_next(rank);
    let next = machine.next_atom(rank)?;
    let behind = machine.behind_journal(machine.place(rank));
    deed_of(&WordMap::of(view.place, view.naming, behind), next)
}

/// Makes one step of a rank, the step with this number, and takes it down; in words where the lane shows it. Gives what the step is called
/// beyond its events.
fn make_step<C: ShardCore>(
    view: View<'_>,
    machine: &mut Machine<C>,
    lane: &mut Lane,
    rank: u32,
    step: u32,
) -> Result<Option<Remark>, OutOfMemory>
    requires there { rank < length machine.old.calls }
    requires few { steps_made machine.old.steps < 2 ^ 32 - 1 }
    requires fits { GeomFits view.place.now.geom }
    ensures ranks { IfOk result (λ _. length machine.new.calls ≡ length machine.old.calls) }
    ensures counted { IfOk result (λ _. steps_made machine.new.steps ≡ steps_made machine.old.steps + 1) }
{
    let deed = next_deed(view, machine, rank);
    let mut told = Vec::new(view.alloc);
    let answer = if lane.shows(step) {
        put_step(&mut told, view.place, view.naming, machine, rank)?
    } else {
        machine.step(rank)?
    };
    let shard = machine.place(rank);
    let moment = Moment {
        cell: Cell::new(step, answer, deed, told),
        deed,
        shard,
        standing: machine.standing(rank),
        card: machine.card(rank),
    };
    lane.note(moment, events_of_step(machine.events(shard), step))
}

/// Tells the lane of a rank whose posted call another rank has done with a step.
fn tell_owner(
    lanes: &mut Vec<Lane>,
    remark: Option<Remark>,
    step: u32,
    shard: u32,
) -> Result<(), OutOfMemory>
    ensures lanes { IfOk result (λ _. vec_len lanes.new ≡ vec_len lanes.old) }
{
    if let Some(Remark::DoneFor { rank }) = remark {
        if let Some(lane) = lanes.get_mut(rank as usize) {
            lane.is_answered(step, shard)?;
        }
    }
    Ok(())
}

/// Makes so many steps of a rank, as far as the window goes; the first has this number. Gives the number of the next one.
fn make_steps<C: ShardCore>(
    view: View<'_>,
    machine: &mut Machine<C>,
    lanes: &mut Vec<Lane>,
    rank: u32,
    count: u32,
    first: u32,
) -> Result<u32, OutOfMemory>
    requires there { rank < length machine.old.calls }
    requires lanes { vec_len lanes.old ≡ length machine.old.calls }
    requires counted { steps_made machine.old.steps ≡ first }
    requires few { view.until ≤ 2000000 }
    requires fits { GeomFits view.place.now.geom }
    ensures ranks { IfOk result (λ _. length machine.new.calls ≡ length machine.old.calls) }
    ensures lanes { IfOk result (λ _. vec_len lanes.new ≡ vec_len lanes.old) }
    ensures counted { IfOk result (λ step. steps_made machine.new.steps ≡ step) }
{
    let mut step = first;
    for _ in 0..count {
        if step >= view.until {
            return Ok(step);
        }
        let remark = make_step(view, machine, &mut lanes[rank as usize], rank, step)?;
        tell_owner(lanes, remark, step, machine.place(rank))?;
        step += 1;
    }
    Ok(step)
}

/// Tells the lane of a rank that it stops before this step.
fn stop_rank(lanes: &mut Vec<Lane>, until: u32, rank: u32, step: u32) -> Result<u32, OutOfMemory>
    ensures lanes { IfOk result (λ _. vec_len lanes.new ≡ vec_len lanes.old) }
    ensures step { IfOk result (λ next. next ≡ step) }
{
    if step < until {
        if let Some(lane) = lanes.get_mut(rank as usize) {
            lane.stops(step)?;
        }
    }
    Ok(step)
}

/// Makes the steps of a turn, as far as the window goes. A stop has none.
fn make_turn<C: ShardCore>(
    view: View<'_>,
    machine: &mut Machine<C>,
    lanes: &mut Vec<Lane>,
    turn: Turn,
    step: u32,
) -> Result<u32, OutOfMemory>
    requires there { TurnFits (length machine.old.calls) turn }
    requires lanes { vec_len lanes.old ≡ length machine.old.calls }
    requires counted { steps_made machine.old.steps ≡ step }
    requires few { view.until ≤ 2000000 }
    requires fits { GeomFits view.place.now.geom }
    ensures ranks { IfOk result (λ _. length machine.new.calls ≡ length machine.old.calls) }
    ensures lanes { IfOk result (λ _. vec_len lanes.new ≡ vec_len lanes.old) }
    ensures counted { IfOk result (λ step. steps_made machine.new.steps ≡ step) }
{
    match turn {
        Turn::Steps { rank, count } => {
            make_steps(view, machine, lanes, u32::from(rank), count, step)
        }
        Turn::Stop { rank } => stop_rank(lanes, view.until, u32::from(rank), step),
    }
}

/// What is seen of a replay with this core, which is that of the placement's lock.
fn record_with<C: ShardCore>(
    alloc: Global,
    place: &Place,
    ops: Ops,
    schedule: &Schedule,
    window: Window,
) -> Result<Vec<Lane>, OutOfMemory>
    requires proper { IsProper place.now }
    requires knobs { C.suits_knobs (shape_of place.now) (knobs_of place.now.lock) }
    requires batches { C.batches ≡ does_batches (name_of place.now.lock) }
    requires calls { OpsFit (length place.now.paths) place.now.geom.shards ops }
    requires suits { SuitsLock place.now ops }
    requires schedule { ScheduleFits (length place.now.paths) schedule.now }
    requires few { window.to ≤ 2000000 }
    ensures lanes { IfOk result (λ lanes. vec_len lanes ≡ length place.now.paths) }
{
    let shape = place.shape(alloc)?;
    let naming = Naming::of(alloc, place)?;
    let homes = place.homes.as_slice();
    let ranks = place.paths.len() as u32;
    let mut lanes = first_lanes(alloc, ranks, window.from)?;
    let mut machine: Machine<C> = Machine::new(
        alloc,
        &shape,
        place.knobs(),
        place.geom,
        homes,
        ops,
    )?;
    let view = View {
        alloc,
        place,
        naming: &naming,
        until: window.to,
    };
    let mut step = 0;
    for turn in schedule.turns.as_slice() {
        step = make_turn(view, &mut machine, &mut lanes, *turn, step)?;
    }
    for lane in lanes.iter_mut() {
        lane.end(step)?;
    }
    Ok(lanes)
}

/// What is seen of a replay, with the core of whichever lock the placement has.
#[derive(Drop)]
struct RecordTask<'a> {
    alloc: Global,
    ops: Ops,
    schedule: &'a Schedule,
    window: Window,
}

impl CoreTask for RecordTask<'_> {
    type Out = Result<Vec<Lane>, OutOfMemory>;

    ghost takes = { λ r place. OpsFit (length place.paths) place.geom.shards r.ops × SuitsLock place r.ops × ScheduleFits (length place.paths) r.schedule.now × (r.window.to ≤ 2000000) };

    ghost gives = { λ r place kind urgent result. IfOk result (λ lanes. vec_len lanes ≡ length place.paths) };

    fn over<C: Resting + Promising + ShardGuiding>(
        self,
        place: &Place,
    ) -> Result<Vec<Lane>, OutOfMemory> {
        record_with::<C>(self.alloc, place, self.ops, self.schedule, self.window)
    }
}

/// What is seen of the replay of a placement, calls and a schedule in a window of its steps: a lane for each rank. Refused
/// only for want of memory.
pub fn record(
    alloc: Global,
    place: &Place,
    ops: Ops,
    schedule: &Schedule,
    window: Window,
) -> Result<Vec<Lane>, OutOfMemory>
    requires proper { IsProper place.now }
    requires calls { OpsFit (length place.now.paths) place.now.geom.shards ops }
    requires suits { SuitsLock place.now ops }
    requires schedule { ScheduleFits (length place.now.paths) schedule.now }
    requires few { window.to ≤ 2000000 }
    ensures lanes { IfOk result (λ lanes. vec_len lanes ≡ length place.now.paths) }
{
    over_lock(
        place,
        RecordTask {
            alloc,
            ops,
            schedule,
            window,
        },
    )
}
