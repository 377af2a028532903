//! Calls that are to fail, by their number.
ghost use Rattle.std.specs.Prelude.{◌≡◌, ◌<◌, ◌-◌, ◌⊎◌, ◌↔◌, ◌^◌, Contains, IsErr, IsTrue, OnOk, OnErr, false};
ghost use Rattle.rl_io.specs.Script.{FailsNext, Counts};

use crate::outside::Failed;
use std::marker::Model;

/// Counts calls from 0 on, and lets those fail whose numbers were given.
#[derive(Drop)]
pub struct Failing {
    numbers: Vec<u32>,
    calls: u64,
    faults: u64,
}

impl Model for Failing {
    ghost use Rattle.std.specs.Prelude.{◌≤◌};
    ghost use Rattle.rl_io.specs.Script.{TheFailing};

    ghost Value = { TheFailing };

    ghost view = { λ f. record { numbers = f.numbers.items; calls = f.calls; faults = f.faults } };

    ghost invariant = { λ f. f.faults ≤ f.calls };
}

impl Failing {
    /// Before the first call.
    pub fn new(numbers: Vec<u32>) -> Failing
        ensures { result ≡ record { numbers = numbers.items; calls = 0; faults = 0 } }
    {
        Failing {
            numbers,
            calls: 0,
            faults: 0,
        }
    }

    /// One more call, which fails where its number is in the list, or what it needs isn't there. A count
    /// of 2^64 - 1 faults can't rise: then the call doesn't fail.
    pub fn call(&mut self, there: bool) -> Result<(), Failed>
        ensures quiet { OnOk result (self.new.faults ≡ self.old.faults) }
        ensures risen { OnErr result (self.old.faults < self.new.faults) }
        ensures fails { self.old.calls < 2 ^ 64 - 1 → FailsNext self.old ⊎ (there ≡ false) → IsErr result }
        ensures cause { IsErr result → FailsNext self.old ⊎ (there ≡ false) }
        ensures counts { Counts self.old self.new }
    {
        let number = self.calls;
        self.calls = number.saturating_add(1);
        if there && !lists(&self.numbers, number) {
            return Ok(());
        }
        if self.faults < self.calls {
            self.faults += 1;
            return Err(Failed);
        }
        Ok(())
    }
}

fn lists(numbers: &[u32], number: u64) -> bool
    ensures { IsTrue result ↔ Contains numbers.now number }
{
    numbers.iter().any(|k| u64::from(*k) == number)
}
