//! The count of many answers at once.

ghost use Rattle.std.specs.Prelude.{◌≡◌, ◌+◌, ◌<◌, ◌^◌};
ghost use Rattle.rl_step.specs.Answers.{steps_made};
ghost use Rattle.rl_machine.specs.Rest.{counted_more};

use rl_step::{Stepped, Steps};

/// Counts so many more answers of one kind. Fewer than 2^32 steps are counted then.
#[inline(always)]
pub fn count_more(steps: &mut Steps, answer: Stepped, more: u32)
    requires few { steps_made steps.old + more < 2 ^ 32 }
    ensures { steps.new ≡ counted_more answer more steps.old }
{
    match answer {
        Stepped::Moved => steps.moved += more,
        Stepped::Waiting { .. } => steps.waiting += more,
        Stepped::Lost { .. } => steps.lost += more,
        Stepped::Busy { .. } => steps.busy += more,
        Stepped::Finished => steps.finished += more,
    }
}
