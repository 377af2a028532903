//! What ranks do, one after the other: the machine makes their steps, and they are written down as turns.

ghost use Rattle.std.specs.Prelude.{◌≡◌, ◌+◌, ◌-◌, ◌≤◌, ◌<◌, ◌++◌, [], ◌∷◌, ℕ, length, OnOk, Err};
ghost use Rattle.std.specs.List.{AllByRecursion};
ghost use Rattle.rl_inputs.specs.Fitting.{shape_of, knobs_of};
ghost use Rattle.rl_drawing.specs.Drawing.{AreEach};
ghost use Rattle.rl_drawing.specs.Leads.{SceneFits, OnStage, IsOf, Draws, DrawsOne};

use crate::anew::machine_after;
use crate::looking::{Scene, Sought, make_steps, steps_before};
use crate::stage::{Halt, Stage};
use rl_core::Resting;
use rl_ops::Turn;

/// What each of several ranks does.
#[derive(Clone, Copy)]
pub enum Each<'a> {
    /// So many steps.
    Steps(u32),
    /// Steps up to and with the first that shows this.
    Until(Sought<'a>),
    /// Steps up to the first that would show this, which isn't made.
    Before(Sought<'a>),
    /// It stops.
    Stop,
}

/// So many steps of a rank, as a turn.
fn go_steps<C: Resting>(
    scene: Scene<'_>,
    stage: &mut Stage<C>,
    rank: u8,
    count: u32,
) -> Result<(), Halt>
    requires scene { SceneFits C.batches scene }
    requires there { rank < length scene.place.now.paths }
    requires stage { OnStage C.says C.defined scene stage.old }
    ensures stage { OnOk result (OnStage C.says C.defined scene.entry stage.new) }
    ensures draws { DrawsOne C.says scene.entry (Each.Steps count) rank stage.old stage.new result }
{
    if stage.left < count {
        return Err(Halt::Never);
    }
    make_steps(&mut stage.machine, u32::from(rank), count)?;
    stage.turns.push(Turn::Steps { rank, count })?;
    stage.left -= count;
    Ok(())
}

/// The steps of a rank up to and with the first that shows what is looked for, as a turn.
fn go_until<C: Resting>(
    scene: Scene<'_>,
    stage: &mut Stage<C>,
    rank: u8,
    sought: Sought<'_>,
) -> Result<(), Halt>
    requires scene { SceneFits C.batches scene }
    requires there { rank < length scene.place.now.paths }
    requires stage { OnStage C.says C.defined scene stage.old }
    ensures stage { OnOk result (OnStage C.says C.defined scene.entry stage.new) }
    ensures draws { DrawsOne C.says scene.entry (Each.Until sought.entry) rank stage.old stage.new result }
{
    let most = stage.left;
    let before = steps_before(scene, &mut stage.machine, u32::from(rank), sought, most)?;
    let count = before + 1;
    stage.turns.push(Turn::Steps { rank, count })?;
    stage.left -= count;
    Ok(())
}

/// The steps of a rank up to the first that would show what is looked for, as a turn. That step is made to look at it, so the machine is made anew then.
fn go_before<C: Resting>(
    scene: Scene<'_>,
    stage: &mut Stage<C>,
    rank: u8,
    sought: Sought<'_>,
) -> Result<(), Halt>
    requires scene { SceneFits C.batches scene }
    requires knobs { C.suits_knobs (shape_of scene.place.now) (knobs_of scene.place.now.lock) }
    requires there { rank < length scene.place.now.paths }
    requires stage { OnStage C.says C.defined scene stage.old }
    ensures stage { OnOk result (OnStage C.says C.defined scene.entry stage.new) }
    ensures draws { DrawsOne C.says scene.entry (Each.Before sought.entry) rank stage.old stage.new result }
{
    let most = stage.left + 1;
    let count = steps_before(scene, &mut stage.machine, u32::from(rank), sought, most)?;
    stage.turns.push(Turn::Steps { rank, count })?;
    stage.machine = machine_after(scene, stage.turns.as_slice())?;
    stage.left -= count;
    Ok(())
}

/// What a rank does, as a turn.
pub fn go_one<C: Resting>(
    scene: Scene<'_>,
    stage: &mut Stage<C>,
    rank: u8,
    each: Each<'_>,
) -> Result<(), Halt>
    requires scene { SceneFits C.batches scene }
    requires knobs { C.suits_knobs (shape_of scene.place.now) (knobs_of scene.place.now.lock) }
    requires there { rank < length scene.place.now.paths }
    requires stage { OnStage C.says C.defined scene stage.old }
    ensures stage { OnOk result (OnStage C.says C.defined scene.entry stage.new) }
    ensures draws { DrawsOne C.says scene.entry each.entry rank stage.old stage.new result }
{
    match each {
        Each::Steps(count) => go_steps(scene, stage, rank, count),
        Each::Until(sought) => go_until(scene, stage, rank, sought),
        Each::Before(sought) => go_before(scene, stage, rank, sought),
        Each::Stop => {
            stage.turns.push(Turn::Stop { rank })?;
            Ok(())
        }
    }
}

/// What each of these ranks does, one after the other, each as a turn.
pub fn go_each<C: Resting>(
    scene: Scene<'_>,
    stage: &mut Stage<C>,
    ranks: &[u8],
    each: Each<'_>,
) -> Result<(), Halt>
    requires scene { SceneFits C.batches scene }
    requires knobs { C.suits_knobs (shape_of scene.place.now) (knobs_of scene.place.now.lock) }
    requires there { AllByRecursion (λ k. k < length scene.place.now.paths) ranks.now }
    requires stage { OnStage C.says C.defined scene stage.old }
    ensures stage { OnOk result (OnStage C.says C.defined scene.entry stage.new) }
    ensures draws { Draws C.says (λ m. AreEach (IsOf scene.entry.place.now each.entry) m ranks.now) stage.old stage.new result }
{
    for rank in ranks {
        go_one(scene, stage, *rank, each)?;
    }
    Ok(())
}
