//! A whole replay: a machine is made and takes the steps of a schedule.

ghost use Rattle.std.specs.Prelude.{ℕ, ◌≡◌, ◌+◌, ◌-◌, ◌<◌, ◌≤◌, ◌^◌, [], false, get_or, length, replicate, slice_index, IfOk, OnErr};
ghost use Rattle.std.specs.List.{AllByRecursion};
ghost use Rattle.rl_model.specs.Geom.{GeomFits};
ghost use Rattle.rl_word.specs.Shapes.{IsProper};
ghost use Rattle.rl_step.specs.Answers.{steps_made};
ghost use Rattle.rl_ops.specs.Ops.{OpsFit};
ghost use Rattle.rl_ops.specs.Schedule.{TurnFits, steps_of};
ghost use Rattle.rl_machine.specs.Changes.{OnlyWritersChange};
ghost use Rattle.rl_machine.specs.Promises.{IsSound, EachKeepsQueues};
ghost use Rattle.rl_machine.specs.Run.{run_of, stepped, turn_ranks, ranks_of_turns, steps_in};
ghost use Rattle.rl_machine.specs.RunTransitions.{RunSays};
ghost use Rattle.rl_machine.specs.Running.{running, cores_of};
ghost use Rattle.rl_replay.specs.Rested.{AllRested};
ghost use Rattle.rl_machine.specs.Start.{start_of};
ghost use Rattle.rl_replay.specs.Made.{MadeFewer, run_of_turns};

use crate::last_rest::{LastRest, no_rests};
use crate::noted::{forget, look, take_noted};
use rl_core::Resting;
use rl_machine::{Machine, StepOutcome, soundness};
use rl_model::Geom;
use rl_ops::{Ops, Turn};
use rl_word::{Knobs, Shape};
use std::alloc::{AllocError as OutOfMemory, Global};

/// A step of a rank made in full. Where it didn't get on, what is known of the rank then is noted, and else nothing. Whether it got on.
#[inline(always)]
fn step_in_full<C: Resting>(
    machine: &mut Machine<C>,
    rests: &mut Vec<LastRest<C::Sight>>,
    rank: u32,
) -> Result<bool, OutOfMemory>
    requires there { rank < length machine.old.calls }
    requires few { steps_made machine.old.steps < 2 ^ 32 - 1 }
    requires many { length rests.old.items ≡ length machine.old.calls }
    requires rested { AllRested C.with_sight (running C.says machine.old) rests.old.items }
    ensures cores { cores_of machine.new ≡ cores_of machine.old }
    ensures stepped { IfOk result (λ _. running C.says machine.new ≡ stepped (running C.says machine.old) rank) }
    ensures many { length rests.new.items ≡ length rests.old.items }
    ensures rested { IfOk result (λ _. AllRested C.with_sight (running C.says machine.new) rests.new.items) }
    ensures kept { OnErr result (machine.new ≡ machine.old) }
{
    forget(rests, rank);
    let end = machine.step_told(rank)?;
    if end.told == StepOutcome::GotOn {
        return Ok(true);
    }
    look(machine, rests, rank, end);
    Ok(false)
}

/// Takes so many steps of one rank, as `Machine::step` would one by one. What was noted of it, in `rests`, is looked at first: while
/// the card that it takes is held, the word that it waits for has the same value, or both words of a round in which it waits have,
/// and once all its calls are done, its steps are counted at once, and so are those after it is seen to rest. `rests` begins as
/// `no_rests` and belongs to this machine, all of whose steps are taken so.
///
/// Fewer than 2^32 steps are made in all. Refused only for want of memory: then some of the steps were made, fewer than all (`part`), and
/// `rests` is of no more use.
#[inline(always)]
pub fn take_steps<C: Resting>(
    machine: &mut Machine<C>,
    rests: &mut Vec<LastRest<C::Sight>>,
    rank: u32,
    count: u32,
) -> Result<(), OutOfMemory>
    requires there { rank < length machine.old.calls }
    requires few { steps_made machine.old.steps + count < 2 ^ 32 }
    requires many { length rests.old.items ≡ length machine.old.calls }
    requires rested { AllRested C.with_sight (running C.says machine.old) rests.old.items }
    ensures cores { cores_of machine.new ≡ cores_of machine.old }
    ensures run { IfOk result (λ _. running C.says machine.new ≡ run_of (running C.says machine.old) (replicate count rank)) }
    ensures steps { IfOk result (λ _. steps_made machine.new.steps ≡ steps_made machine.old.steps + count) }
    ensures calls { IfOk result (λ _. machine.new.calls ≡ machine.old.calls) }
    ensures many { length rests.new.items ≡ length rests.old.items }
    ensures rested { IfOk result (λ _. AllRested C.with_sight (running C.says machine.new) rests.new.items) }
    ensures part { OnErr result (MadeFewer (running C.says machine.old) rank count (running C.says machine.new)) }
{
    if take_noted(machine, rests, rank, count) {
        return Ok(());
    }
    for made in 0..count {
        if step_in_full(machine, rests, rank)? {
            continue;
        }
        if take_noted(machine, rests, rank, count - made - 1) {
            return Ok(());
        }
    }
    Ok(())
}

/// Takes the steps of one turn. A stop has none.
fn take_turn<C: Resting>(
    machine: &mut Machine<C>,
    rests: &mut Vec<LastRest<C::Sight>>,
    turn: Turn,
) -> Result<(), OutOfMemory>
    requires there { TurnFits (length machine.old.calls) turn }
    requires few { steps_made machine.old.steps + steps_of turn < 2 ^ 32 }
    requires many { length rests.old.items ≡ length machine.old.calls }
    requires rested { AllRested C.with_sight (running C.says machine.old) rests.old.items }
    ensures cores { cores_of machine.new ≡ cores_of machine.old }
    ensures run { IfOk result (λ _. running C.says machine.new ≡ run_of (running C.says machine.old) (turn_ranks turn)) }
    ensures steps { IfOk result (λ _. steps_made machine.new.steps ≡ steps_made machine.old.steps + steps_of turn) }
    ensures calls { IfOk result (λ _. machine.new.calls ≡ machine.old.calls) }
    ensures many { length rests.new.items ≡ length rests.old.items }
    ensures rested { IfOk result (λ _. AllRested C.with_sight (running C.says machine.new) rests.new.items) }
{
    match turn {
        Turn::Steps { rank, count } => take_steps(machine, rests, u32::from(rank), count),
        Turn::Stop { .. } => Ok(()),
    }
}

/// The machine after exactly the steps of a schedule: `turns` are taken in order, each so many steps of its rank.
///
/// `shape` says where the ranks sit, `knobs` are the settings of each shard's lock, `geom` is the size of the table, `homes`
/// says for each shard the node that its words live on, and `ops` what each rank asks for; the ranks of the turns are the
/// shape's, and there are fewer than 2^32 steps in all. Refused only for want of memory. Whatever the schedule, the machine
/// is sound (`IsSound`), and whichever step comes next, only a writer's changes what a lock guards;
/// on each shard the lock's queues, whose members and budgets are the placement's, keep their promises;
/// and what a lock promises beside holds of its events on each shard, and of the atoms there, by the lock's words before and after each.
/// The contract speaks of the run by its definition (`run_of` of `rl_machine`), which knows no vectors.
///
/// It stands apart from its callers, which makes the loop that takes the steps shorter by some hundredths.
#[inline(never)]
pub fn replay<C: Resting>(
    alloc: Global,
    shape: &Shape,
    knobs: Knobs,
    geom: Geom,
    homes: &[u32],
    ops: Ops,
    turns: &[Turn],
) -> Result<Machine<C>, OutOfMemory>
    requires proper { IsProper shape.now }
    requires knobs { C.suits_knobs shape.now knobs }
    requires fits { GeomFits geom }
    requires many { length homes.now ≡ geom.shards }
    requires homes { AllByRecursion (λ home. home < shape.now.nodes) homes.now }
    requires ops { OpsFit (length shape.now.node_of) geom.shards ops }
    requires batches { C.batches ≡ false → (k i : ℕ) → slice_index (get_or ops.sizes k []) i ≤ 1 }
    requires there { AllByRecursion (TurnFits (length shape.now.node_of)) turns.now }
    requires few { steps_in turns.now < 2 ^ 32 }
    ensures run { IfOk result (λ m. running C.says m ≡ run_of_turns (start_of C.defined shape.now knobs geom homes.now ops) turns.now) }
    ensures sound { IfOk result (λ m. IsSound (running C.says m)) }
    ensures changes { IfOk result (λ m. OnlyWritersChange (running C.says m)) }
    ensures queues { IfOk result (λ m. EachKeepsQueues C.name shape.now knobs homes.now (running C.says m)) }
    ensures further { IfOk result (λ _. RunSays C.defined C.promised shape.now knobs geom homes.now ops (ranks_of_turns turns.now)) }
{
    let mut machine = Machine::new(alloc, shape, knobs, geom, homes, ops)?;
    let mut rests = no_rests(alloc, &machine)?;
    for turn in turns {
        take_turn(&mut machine, &mut rests, *turn)?;
    }
    soundness(&machine);
    Ok(machine)
}
