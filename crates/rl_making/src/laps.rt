//! Laps: the ranks of a machine take turns, one step each, again and again.
ghost use Rattle.std.specs.Prelude.{◌≡◌, true, ◌≤◌, ◌<◌, length, IfOk};
ghost use Rattle.rl_machine.specs.Running.{running};
ghost use Rattle.rl_replay.specs.Rested.{AllRested};
ghost use Rattle.rl_making.specs.Laps.{has_work as has_work_at, any_has_work as any_has_work_at, may_step as may_step_at};
ghost use Rattle.rl_making.specs.Laps.{goes_on as goes_on_at, turns, all_laps};

use rl_core::{Resting, ShardCore};
use rl_machine::Machine;
use rl_replay::{LastRest, no_rests, take_steps};
use std::alloc::{AllocError as OutOfMemory, Global};

/// Whether a rank has an open call, or one left.
#[tactic(auto, using(crate::proofs::LapLaws::or_false, crate::proofs::LapLaws::or_true))]
fn has_work<C: ShardCore>(machine: &Machine<C>, rank: u32) -> bool
    requires { rank < length machine.now.calls }
    ensures { result ≡ has_work_at (running C.says machine.now) rank }
{
    machine.opened(rank) < machine.given(rank) || machine.is_open(rank)
}

/// Whether one of the first ranks has an open call, or one left.
fn any_has_work<C: ShardCore>(machine: &Machine<C>, ranks: u32) -> bool
    requires { ranks ≤ length machine.now.calls }
    ensures { result ≡ any_has_work_at (running C.says machine.now) ranks }
{
    for rank in 0..ranks {
        if has_work(machine, rank) {
            return true;
        }
    }
    false
}

/// Whether a step may be made, of at most so many.
fn may_step<C: ShardCore>(machine: &Machine<C>, most: u32) -> bool
    ensures { result ≡ may_step_at most (running C.says machine.now) }
{
    machine.steps().made() < u64::from(most)
}

/// Whether another lap is made, of all ranks and at most so many steps.
fn goes_on<C: ShardCore>(machine: &Machine<C>, ranks: u32, most: u32) -> bool
    requires { ranks ≡ length machine.now.calls }
    ensures { result ≡ goes_on_at most (running C.says machine.now) }
{
    any_has_work(machine, ranks) && may_step(machine, most)
}

/// A turn of each of the first ranks: one step, while fewer steps than the most were made. `rests` is what was noted of resting ranks.
fn take_turns<C: Resting>(
    machine: &mut Machine<C>,
    rests: &mut Vec<LastRest<C::Sight>>,
    ranks: u32,
    most: u32,
) -> Result<(), OutOfMemory>
    requires there { ranks ≤ length machine.old.calls }
    requires many { length rests.old.items ≡ length machine.old.calls }
    requires rested { AllRested C.with_sight (running C.says machine.old) rests.old.items }
    ensures turns { IfOk result (λ _. running C.says machine.new ≡ turns most (running C.says machine.old) ranks) }
    ensures many { length rests.new.items ≡ length rests.old.items }
    ensures rested { IfOk result (λ _. AllRested C.with_sight (running C.says machine.new) rests.new.items) }
{
    // Counted down here, which is faster than adding up the machine's five counters before each step.
    let mut left = u64::from(most).saturating_sub(machine.steps().made());
    for rank in 0..ranks {
        if left > 0 {
            take_steps(machine, rests, rank, 1)?;
            left -= 1;
        }
    }
    Ok(())
}

/// Lap after lap of all ranks: before each it ends where every rank has no open call and none left, and before each step
/// where so many steps were made. Refused only for want of memory.
pub fn make_laps<C: Resting>(
    alloc: Global,
    machine: &mut Machine<C>,
    ranks: u32,
    most: u32,
) -> Result<(), OutOfMemory>
    requires { ranks ≡ length machine.old.calls }
    ensures { IfOk result (λ _. running C.says machine.new ≡ all_laps most (running C.says machine.old)) }
{
    let mut rests = no_rests(alloc, machine)?;
    for _ in 0..most {
        if !goes_on(machine, ranks, most) {
            return Ok(());
        }
        take_turns(machine, &mut rests, ranks, most)?;
    }
    Ok(())
}
