//! The first steps of a schedule.

ghost use Rattle.std.specs.Prelude.{◌≡◌, ℕ, ◌≤◌, ◌<◌, ◌^◌, sum_by, take, IfOk};
ghost use Rattle.rl_ops.specs.Schedule.{rank_of, steps_of};
ghost use Rattle.rl_machine.specs.Run.{turn_ranks, ranks_of_turns, steps_in};
ghost use Rattle.rl_shown.specs.State.{AreTurnsOf};

use rl_ops::Turn;
use std::alloc::{AllocError as OutOfMemory, Global};

/// How many steps these turns make.
pub fn total_steps(turns: &[Turn]) -> u32
    requires { sum_by steps_of turns.now < 2 ^ 32 }
    ensures { result ≡ sum_by steps_of turns.now }
{
    turns.iter().map(|turn| turn.steps()).sum()
}

/// A turn of at most so many steps.
fn shortened(turn: Turn, most: u32) -> Turn
    ensures ranks { turn_ranks result ≡ take most (turn_ranks turn) }
    ensures rank { rank_of result ≡ rank_of turn }
    ensures few { steps_of result ≤ most }
{
    match turn {
        Turn::Steps { rank, count } => Turn::Steps {
            rank,
            count: count.min(most),
        },
        Turn::Stop { rank } => Turn::Stop { rank },
    }
}

/// The turns of the first so many steps, or of all where there are no more. Refused only for want of memory.
pub fn front_of(alloc: Global, turns: &[Turn], steps: u32) -> Result<Vec<Turn>, OutOfMemory>
    ensures front { IfOk result (λ front. ranks_of_turns front.items ≡ take steps (ranks_of_turns turns.now)) }
    ensures there { (ranks : ℕ) → AreTurnsOf ranks turns.now → IfOk result (λ front. AreTurnsOf ranks front.items) }
    ensures few { IfOk result (λ front. steps_in front.items ≤ steps) }
{
    let mut front = Vec::with_capacity(alloc, turns.len())?;
    let mut left = steps;
    for turn in turns {
        front.push(shortened(*turn, left))?;
        left = left.saturating_sub(turn.steps());
    }
    Ok(front)
}
