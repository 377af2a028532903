//! Ranks that go in turn, or as chance draws them, a step at a time.

ghost use Rattle.std.specs.Prelude.{◌≡◌, ◌+◌, ◌-◌, ◌≤◌, ◌<◌, ◌++◌, [], ◌∷◌, ℕ, not, filter, length, if◌then◌else◌, IfOk, OnOk};
ghost use Rattle.std.specs.List.{AllByRecursion};
ghost use Rattle.rl_chance.specs.Draws.{first_state};
ghost use Rattle.rl_inputs.specs.Fitting.{shape_of, knobs_of};
ghost use Rattle.rl_machine.specs.Running.{running};
ghost use Rattle.rl_machine.specs.Run.{stepped};
ghost use Rattle.rl_drawing.specs.Sights.{is_over};
ghost use Rattle.rl_drawing.specs.Drawing.{laps, drawn_turns, AreInTurn, AreToTheEnd};
ghost use Rattle.rl_drawing.specs.Leads.{SceneFits, OnStage, sees, Draws, DrawsOne};

use crate::courses::{Each, go_each, go_one};
use crate::looking::{Scene, Sought, is_over, step_looking};
use crate::stage::{Halt, Stage};
use rl_chance::Generator;
use rl_core::Resting;
use rl_machine::Machine;
use rl_ops::Turn;
use std::alloc::AllocError as OutOfMemory;

/// So many laps, a step of each of these ranks in each.
pub fn go_laps<C: Resting>(
    scene: Scene<'_>,
    stage: &mut Stage<C>,
    ranks: &[u8],
    count: u32,
) -> Result<(), Halt>
    requires scene { SceneFits C.batches scene }
    requires knobs { C.suits_knobs (shape_of scene.place.now) (knobs_of scene.place.now.lock) }
    requires there { AllByRecursion (λ k. k < length scene.place.now.paths) ranks.now }
    requires stage { OnStage C.says C.defined scene stage.old }
    ensures stage { OnOk result (OnStage C.says C.defined scene.entry stage.new) }
    ensures draws { Draws C.says (λ m turns. turns ≡ laps count ranks.now) stage.old stage.new result }
{
    for _ in 0..count {
        go_each(scene, stage, ranks, Each::Steps(1))?;
    }
    Ok(())
}

/// So many steps, each of one of these ranks, which is drawn by chance.
pub fn go_at_random<C: Resting>(
    scene: Scene<'_>,
    stage: &mut Stage<C>,
    ranks: &[u8],
    seed: u64,
    count: u32,
) -> Result<(), Halt>
    requires scene { SceneFits C.batches scene }
    requires knobs { C.suits_knobs (shape_of scene.place.now) (knobs_of scene.place.now.lock) }
    requires some { 0 < length ranks.now }
    requires few { length ranks.now < 256 }
    requires there { AllByRecursion (λ k. k < length scene.place.now.paths) ranks.now }
    requires stage { OnStage C.says C.defined scene stage.old }
    ensures stage { OnOk result (OnStage C.says C.defined scene.entry stage.new) }
    ensures draws { Draws C.says (λ m turns. turns ≡ drawn_turns (first_state seed) count ranks.now) stage.old stage.new result }
{
    let mut generator = Generator::new(seed);
    for _ in 0..count {
        let drawn = generator.draw(ranks.len() as u32);
        go_one(scene, stage, ranks[drawn as usize], Each::Steps(1))?;
    }
    Ok(())
}

/// One step of a rank, as a turn, and whether it shows what is looked for.
fn go_once<C: Resting>(
    scene: Scene<'_>,
    stage: &mut Stage<C>,
    rank: u8,
    sought: Sought<'_>,
) -> Result<bool, Halt>
    requires scene { SceneFits C.batches scene }
    requires there { rank < length scene.place.now.paths }
    requires stage { OnStage C.says C.defined scene stage.old }
    ensures stage { OnOk result (OnStage C.says C.defined scene.entry stage.new) }
    ensures shown { IfOk result (λ shown. shown ≡ sees scene.entry.place.now sought.entry (running C.says stage.old.machine) rank) }
    ensures stepped { OnOk result (running C.says stage.new.machine ≡ stepped (running C.says stage.old.machine) rank) }
    ensures draws { DrawsOne C.says scene.entry (Each.Steps 1) rank stage.old stage.new result }
{
    if stage.left == 0 {
        return Err(Halt::Never);
    }
    let shown = step_looking(scene, &mut stage.machine, u32::from(rank), sought)?;
    stage.turns.push(Turn::Steps { rank, count: 1 })?;
    stage.left -= 1;
    Ok(shown)
}

/// A rank comes again behind those that wait, where its step hasn't shown what is looked for.
fn come_again(waiting: &mut Vec<u8>, rank: u8, shown: bool) -> Result<(), OutOfMemory>
    ensures { OnOk result (waiting.new.items ≡ if shown then waiting.old.items else waiting.old.items ++ rank ∷ []) }
{
    if !shown {
        waiting.push(rank)?;
    }
    Ok(())
}

/// Steps of these ranks in turn: whose step shows what is looked for makes no more, and the others come again.
pub fn go_in_turn<C: Resting>(
    scene: Scene<'_>,
    stage: &mut Stage<C>,
    ranks: Vec<u8>,
    sought: Sought<'_>,
) -> Result<(), Halt>
    requires scene { SceneFits C.batches scene }
    requires there { AllByRecursion (λ k. k < length scene.place.now.paths) ranks.items }
    requires stage { OnStage C.says C.defined scene stage.old }
    ensures stage { OnOk result (OnStage C.says C.defined scene.entry stage.new) }
    ensures draws { Draws C.says (λ m. AreInTurn (sees scene.entry.place.now sought.entry) m ranks.items) stage.old stage.new result }
{
    let mut waiting = ranks;
    let most = stage.left + 1;
    for _ in 0..most {
        if waiting.is_empty() {
            return Ok(());
        }
        let rank = waiting.remove(0);
        let shown = go_once(scene, stage, rank, sought)?;
        come_again(&mut waiting, rank, shown)?;
    }
    Err(Halt::Never)
}

/// The ranks among these that have a call open or left.
fn not_over<C: Resting>(
    scene: Scene<'_>,
    machine: &Machine<C>,
    ranks: &[u8],
) -> Result<Vec<u8>, OutOfMemory>
    requires { AllByRecursion (λ k. k < length machine.now.calls) ranks.now }
    ensures { IfOk result (λ list. list.items ≡ filter (λ k. not (is_over (running C.says machine.now) k)) ranks.now) }
{
    let mut list = Vec::new(scene.alloc);
    for rank in ranks {
        if !is_over(machine, u32::from(*rank)) {
            list.push(*rank)?;
        }
    }
    Ok(list)
}

/// Steps of these ranks in turn, until none of them has a call open or left.
pub fn go_to_the_end<C: Resting>(
    scene: Scene<'_>,
    stage: &mut Stage<C>,
    ranks: &[u8],
) -> Result<(), Halt>
    requires scene { SceneFits C.batches scene }
    requires there { AllByRecursion (λ k. k < length scene.place.now.paths) ranks.now }
    requires stage { OnStage C.says C.defined scene stage.old }
    ensures stage { OnOk result (OnStage C.says C.defined scene.entry stage.new) }
    ensures draws { Draws C.says (λ m. AreToTheEnd m ranks.now) stage.old stage.new result }
{
    let left = not_over(scene, &stage.machine, ranks)?;
    go_in_turn(scene, stage, left, Sought::Over)
}
