//! Counts of what happened: a queue's tally, and the answers of a run's steps.

ghost use Rattle.std.specs.Prelude.{◌≡◌, ◌-◌, ◌<◌, ◌^◌};
ghost use Rattle.rl_step.specs.Answers.{no_steps, counted, steps_made};

use crate::events::Stepped;

/// How often a queue was settled, and how often it was passed from one member to the next.
#[derive(Clone, Copy, PartialEq, Eq, Debug)]
pub struct Tally {
    pub settled: u64,
    pub passed: u64,
}

/// How often each of the five answers came.
#[derive(Clone, Copy, PartialEq, Eq, Debug)]
pub struct Steps {
    pub moved: u32,
    pub waiting: u32,
    pub lost: u32,
    pub busy: u32,
    pub finished: u32,
}

impl Steps {
    /// The counts before the first step.
    pub fn none() -> Steps
        ensures { result ≡ no_steps }
    {
        Steps {
            moved: 0,
            waiting: 0,
            lost: 0,
            busy: 0,
            finished: 0,
        }
    }

    /// Counts one more answer. Fewer than 2^32 - 1 steps were counted so far.
    #[inline(always)]
    pub fn count(&mut self, stepped: Stepped)
        requires { steps_made self.old < 2 ^ 32 - 1 }
        ensures { self.new ≡ counted stepped self.old }
    {
        match stepped {
            Stepped::Moved => self.moved += 1,
            Stepped::Waiting { .. } => self.waiting += 1,
            Stepped::Lost { .. } => self.lost += 1,
            Stepped::Busy { .. } => self.busy += 1,
            Stepped::Finished => self.finished += 1,
        }
    }

    /// How many steps were counted.
    pub fn made(self) -> u64
        ensures { result ≡ steps_made self }
    {
        u64::from(self.moved)
            + u64::from(self.waiting)
            + u64::from(self.lost)
            + u64::from(self.busy)
            + u64::from(self.finished)
    }
}
