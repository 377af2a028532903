//! How far a drawing has come.

ghost use Rattle.std.specs.Prelude.{◌≡◌, ◌+◌, ◌-◌, ◌∷◌, ◌++◌, [], IfOk, OnOk};

use rl_core::ShardCore;
use rl_machine::Machine;
use rl_ops::{Turn, Turns};
use std::alloc::{AllocError as OutOfMemory, AllocFailed};

/// Why a line draws nothing.
#[derive(Clone, Copy, PartialEq, Eq, Debug)]
pub enum Halt {
    /// It comes to no end with the steps that are left.
    Never,
    /// Want of memory.
    Memory,
}

impl From<OutOfMemory> for Halt {
    ghost use Rattle.std.specs.Prelude.{◌≡◌};
    ghost use Rattle.rl_drawing.specs.declared.stage.Halt.TheVariants.{Memory};

    ghost from_gives = { λ _ halt. halt ≡ Memory };

    fn from(_want: OutOfMemory) -> Halt {
        Halt::Memory
    }
}

impl<T: Drop> From<AllocFailed<T>> for Halt {
    ghost use Rattle.std.specs.Prelude.{◌≡◌};
    ghost use Rattle.rl_drawing.specs.declared.stage.Halt.TheVariants.{Memory};

    ghost from_gives = { λ _ halt. halt ≡ Memory };

    fn from(_want: AllocFailed<T>) -> Halt {
        Halt::Memory
    }
}

/// What is drawn so far: the turns, the machine after their steps, and how many steps there may still be.
#[derive(Drop)]
pub struct Stage<C: ShardCore> {
    pub machine: Machine<C>,
    pub turns: Turns,
    pub left: u32,
}
