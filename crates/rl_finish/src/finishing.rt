//! A machine makes the steps that are left to the end of all its calls.

ghost use Rattle.std.specs.Prelude.{◌≡◌, ◌↔◌, ◌+◌, ◌-◌, ◌<◌, ◌≤◌, ◌^◌, true, false, length, IfOk, OnOk, OnErr};
ghost use Rattle.std.specs.List.{AllByRecursion};
ghost use Rattle.rl_step.specs.Answers.{steps_made};
ghost use Rattle.rl_ops.specs.Schedule.{TurnFits};
ghost use Rattle.rl_machine.specs.MachineEnding.{AllDone};
ghost use Rattle.rl_machine.specs.Run.{run_of, ranks_of_turns, steps_in};
ghost use Rattle.rl_machine.specs.Running.{running, cores_of};
ghost use Rattle.rl_finish.specs.WayOn.{IsWayOn, LeadsOn, IsEnough, AreWhole, HaveOneMore};

use rl_core::ShardGuiding;
use rl_machine::Machine;
use rl_ops::{Turn, Turns};
use std::alloc::{AllocError as OutOfMemory, Global};

/// The steps that a machine has made towards the end of all its calls.
#[derive(Drop)]
pub struct WayOn {
    /// The steps, in their order: a turn for all that one rank makes one after the other.
    pub turns: Turns,
    /// Whether all calls of all ranks are done.
    pub ended: bool,
}

/// One step more of a rank, in the last turn where that is the rank's, and else in one of its own.
fn add_step(turns: &mut Vec<Turn>, rank: u8) -> Result<(), OutOfMemory>
    requires whole { AreWhole turns.old.items }
    requires few { steps_in turns.old.items < 2 ^ 32 - 1 }
    ensures { OnOk result (HaveOneMore turns.old.items rank turns.new.items) }
{
    if let Some(turn) = turns.last_mut() {
        if let Turn::Steps { rank: last, count } = *turn {
            if last == rank {
                *turn = Turn::Steps {
                    rank,
                    count: count + 1,
                };
                return Ok(());
            }
        }
    }
    turns.push(Turn::Steps { rank, count: 1 })?;
    Ok(())
}

/// Makes the steps that are left to the end of all calls of all ranks: each time one of the rank that goes next (`Machine::who`). It makes
/// `most` steps at most, and stops before where all calls are done.
///
/// The machine has 256 ranks at most, so that turns can name them, and `most` is so small that fewer than 2^32 steps are made in all. Refused
/// only for want of memory; the machine has then made some of these steps, and nothing else.
pub fn finish<C: ShardGuiding>(
    machine: &mut Machine<C>,
    alloc: Global,
    most: u32,
) -> Result<WayOn, OutOfMemory>
    requires few { steps_made machine.old.steps + most < 2 ^ 32 }
    requires ranks { length machine.old.calls ≤ 2 ^ 8 }
    ensures cores { cores_of machine.new ≡ cores_of machine.old }
    ensures calls { machine.new.calls ≡ machine.old.calls }
    ensures run { IfOk result (λ on. running C.says machine.new ≡ run_of (running C.says machine.old) (ranks_of_turns on.turns)) }
    ensures way { IfOk result (λ on. IsWayOn C.urgent (cores_of machine.old) (running C.says machine.old) (ranks_of_turns on.turns)) }
    ensures there { IfOk result (λ on. AllByRecursion (TurnFits (length machine.old.calls)) on.turns) }
    ensures whole { IfOk result (λ on. AreWhole on.turns) }
    ensures steps { IfOk result (λ on. steps_made machine.new.steps ≡ steps_made machine.old.steps + steps_in on.turns) }
    ensures few { IfOk result (λ on. steps_in on.turns ≤ most) }
    ensures ended { IfOk result (λ on. (on.ended ≡ true) ↔ AllDone (running C.says machine.new)) }
    ensures all { IfOk result (λ on. on.ended ≡ false → steps_in on.turns ≡ most) }
    ensures enough { IfOk result (λ on. IsEnough C.left C.most (cores_of machine.old) (running C.says machine.old) most → on.ended ≡ true) }
    ensures part { OnErr result (LeadsOn C.urgent (cores_of machine.old) (running C.says machine.old) (running C.says machine.new)) }
{
    let mut turns = Vec::new(alloc);
    for _ in 0..most {
        let Some(rank) = machine.who() else {
            let turns = Turns::from_vec(turns);
            return Ok(WayOn { turns, ended: true });
        };
        machine.step(rank)?;
        add_step(&mut turns, rank as u8)?;
    }
    let ended = machine.who().is_none();
    let turns = Turns::from_vec(turns);
    Ok(WayOn { turns, ended })
}
