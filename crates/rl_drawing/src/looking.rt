//! One step of a machine, and whether it shows what is looked for.

ghost use Rattle.std.specs.Prelude.{ℕ, ◌≡◌, ◌+◌, ◌-◌, ◌<◌, ◌≤◌, ◌^◌, ◌∷◌, true, false, length, replicate, Err, IfOk};
ghost use Rattle.rl_step.specs.Answers.{steps_made};
ghost use Rattle.rl_machine.specs.Running.{running};
ghost use Rattle.rl_machine.specs.Run.{stepped, run_of};
ghost use Rattle.rl_drawing.specs.Sights.{begins_whole, stands_in, shows_words, does_call, is_over};
ghost use Rattle.rl_drawing.specs.Leads.{SceneFits, IsFirstSeen, sees};

use crate::stage::Halt;
use rl_core::ShardCore;
use rl_machine::Machine;
use rl_names::put_step;
use rl_ops::Ops;
use rl_place::Place;
use rl_report::Naming;
use rl_sketch::Sight;
use std::alloc::{AllocError as OutOfMemory, Global};

/// Whose steps are looked at: the placement, the names by which a step is told, and what the ranks ask for.
#[derive(Clone, Copy)]
pub struct Scene<'a> {
    pub alloc: Global,
    pub place: &'a Place,
    pub naming: &'a Naming,
    pub ops: &'a Ops,
}

/// What is looked for.
#[derive(Clone, Copy)]
pub enum Sought<'a> {
    /// A sight of a sketch.
    Shown(&'a Sight),
    /// The rank has no open call behind the step, and none left.
    Over,
}

/// Whether a text begins with these bytes, and a word ends behind them.
fn begins_whole(text: &[u8], sought: &[u8]) -> bool
    ensures { result ≡ begins_whole sought.now text.now }
{
    match text.strip_prefix(sought) {
        Some([]) => true,
        Some([byte, ..]) => *byte == b' ',
        None => false,
    }
}

/// Whether these bytes stand in a text, where a word ends behind them.
fn stands_in(text: &[u8], sought: &[u8]) -> bool
    ensures { result ≡ stands_in sought.now text.now }
{
    for first in 0..text.len() {
        if begins_whole(&text[first..], sought) {
            return true;
        }
    }
    begins_whole(&[], sought)
}

/// Makes a step of a rank, and tells whether these words stand in its own side by side.
fn step_with_words<C: ShardCore>(
    scene: Scene<'_>,
    machine: &mut Machine<C>,
    rank: u32,
    words: &[u8],
) -> Result<bool, OutOfMemory>
    requires scene { SceneFits C.batches scene }
    requires there { rank < length machine.old.calls }
    requires few { steps_made machine.old.steps < 2 ^ 32 - 1 }
    ensures shown { IfOk result (λ shown. shown ≡ shows_words scene.entry.place.now words.now (running C.says machine.old) rank) }
    ensures stepped { IfOk result (λ _. running C.says machine.new ≡ stepped (running C.says machine.old) rank) }
{
    let mut sought = Vec::from_slice(scene.alloc, b" ")?;
    sought.extend_from_slice(words)?;
    let mut told = Vec::new(scene.alloc);
    let _ = put_step(&mut told, scene.place, scene.naming, machine, rank)?;
    Ok(stands_in(told.as_slice(), sought.as_slice()))
}

/// Makes a step of a rank, and tells whether a call of it is done by that.
fn step_with_done<C: ShardCore>(
    scene: Scene<'_>,
    machine: &mut Machine<C>,
    rank: u32,
) -> Result<bool, OutOfMemory>
    requires there { rank < length machine.old.calls }
    requires few { steps_made machine.old.steps < 2 ^ 32 - 1 }
    ensures shown { IfOk result (λ shown. shown ≡ does_call (running C.says machine.old) rank) }
    ensures stepped { IfOk result (λ _. running C.says machine.new ≡ stepped (running C.says machine.old) rank) }
{
    let before = machine.done_of(scene.alloc, rank)?;
    let _ = machine.step(rank)?;
    let behind = machine.done_of(scene.alloc, rank)?;
    Ok(behind != before)
}

/// Whether a rank has no open call, and none left.
pub fn is_over<C: ShardCore>(machine: &Machine<C>, rank: u32) -> bool
    requires { rank < length machine.now.calls }
    ensures { result ≡ is_over (running C.says machine.now) rank }
{
    !machine.is_open(rank) && machine.opened(rank) >= machine.given(rank)
}

/// Makes a step of a rank, and tells whether it shows what is looked for.
pub fn step_looking<C: ShardCore>(
    scene: Scene<'_>,
    machine: &mut Machine<C>,
    rank: u32,
    sought: Sought<'_>,
) -> Result<bool, OutOfMemory>
    requires scene { SceneFits C.batches scene }
    requires there { rank < length machine.old.calls }
    requires few { steps_made machine.old.steps < 2 ^ 32 - 1 }
    ensures shown { IfOk result (λ shown. shown ≡ sees scene.entry.place.now sought.entry (running C.says machine.old) rank) }
    ensures stepped { IfOk result (λ _. running C.says machine.new ≡ stepped (running C.says machine.old) rank) }
{
    match sought {
        Sought::Shown(Sight::Words(words)) => {
            step_with_words(scene, machine, rank, words.as_slice())
        }
        Sought::Shown(Sight::Done) => step_with_done(scene, machine, rank),
        Sought::Shown(Sight::Out) => {
            let _ = machine.step(rank)?;
            Ok(!machine.is_open(rank))
        }
        Sought::Over => {
            let _ = machine.step(rank)?;
            Ok(is_over(machine, rank))
        }
    }
}

/// Makes so many steps of a rank.
pub fn make_steps<C: ShardCore>(
    machine: &mut Machine<C>,
    rank: u32,
    count: u32,
) -> Result<(), OutOfMemory>
    requires there { rank < length machine.old.calls }
    requires few { steps_made machine.old.steps + count < 2 ^ 32 }
    ensures run { IfOk result (λ _. running C.says machine.new ≡ run_of (running C.says machine.old) (replicate count rank)) }
{
    for _ in 0..count {
        let _ = machine.step(rank)?;
    }
    Ok(())
}

/// Makes steps of a rank up to and with the first that shows what is looked for, and at most so many. How many were made before that one.
pub fn steps_before<C: ShardCore>(
    scene: Scene<'_>,
    machine: &mut Machine<C>,
    rank: u32,
    sought: Sought<'_>,
    most: u32,
) -> Result<u32, Halt>
    requires scene { SceneFits C.batches scene }
    requires there { rank < length machine.old.calls }
    requires few { steps_made machine.old.steps + most < 2 ^ 32 }
    ensures few { IfOk result (λ made. made < most) }
    ensures first { IfOk result (λ made. IsFirstSeen C.says scene.entry sought.entry machine.old rank made) }
    ensures run { IfOk result (λ made. running C.says machine.new ≡ run_of (running C.says machine.old) (replicate (made + 1) rank)) }
    ensures never { result ≡ Err Halt.Never → (n : ℕ) → IsFirstSeen C.says scene.entry sought.entry machine.old rank n → most ≤ n }
{
    for made in 0..most {
        if step_looking(scene, machine, rank, sought)? {
            return Ok(made);
        }
    }
    Err(Halt::Never)
}
