//! How a step ended, in short.

ghost use Rattle.rl_machine.specs.Told.{told_by};
ghost use Rattle.std.specs.Prelude.{◌≡◌};

use rl_step::Stepped;

/// How a step ended. It is short, since it is handed on with each step.
#[derive(Clone, Copy, PartialEq, Eq, Debug)]
pub struct StepEnd {
    /// The shard where its rank stands after it.
    pub place: u32,
    /// What its answer tells of the rank.
    pub told: StepOutcome,
}

/// What the answer of a step tells of its rank.
#[derive(Clone, Copy, PartialEq, Eq, Debug)]
pub enum StepOutcome {
    /// It got on: Moved or Lost.
    GotOn,
    /// It is about to take the card of this node, which was held: Busy.
    HeldOff { node: u32 },
    /// It waits on: Waiting.
    Waits,
    /// It has no call open and none left: Finished.
    Finished,
}

/// What an answer tells.
pub fn what_is_told(answer: Stepped) -> StepOutcome
    ensures { result ≡ told_by answer }
{
    match answer {
        Stepped::Moved | Stepped::Lost { .. } => StepOutcome::GotOn,
        Stepped::Busy { node, .. } => StepOutcome::HeldOff { node },
        Stepped::Waiting { .. } => StepOutcome::Waits,
        Stepped::Finished => StepOutcome::Finished,
    }
}
