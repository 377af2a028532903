//! Which rank steps when.
ghost use Rattle.std.specs.Prelude.{◌≡◌, [], ◌∷◌, ◌++◌, OnOk, OnErr};
ghost use Rattle.rl_ops.specs.Schedule.{steps_of};

use crate::appending::append;
use std::alloc::{AllocError as OutOfMemory, Global};
use std::marker::Model;

/// The most steps of all turns together.
pub const MOST_STEPS: u32 = 2_000_000;

/// One turn of a schedule.
#[derive(Clone, Copy, Debug, PartialEq, Eq)]
pub enum Turn {
    /// So many steps of a rank, one after the other.
    Steps { rank: u8, count: u32 },
    /// The rank makes no step from here on: no later turn names it.
    Stop { rank: u8 },
}

// A schedule may have as many turns as steps, and reading one is mostly writing them down: a turn is a single word.
const _: () = prove!(size_of::<Turn>() == 8);

impl Turn {
    /// How many steps the turn makes.
    pub fn steps(&self) -> u32
        ensures { result ≡ steps_of self.now }
    {
        match *self {
            Turn::Steps { count, .. } => count,
            Turn::Stop { .. } => 0,
        }
    }
}

/// Turns in their order. Contracts see a list.
#[derive(Drop)]
pub struct Turns {
    list: Vec<Turn>,
}

impl Model for Turns {
    ghost use Rattle.std.specs.Prelude.{List};
    ghost use Rattle.rl_ops.specs.declared.schedule.Turn.{Turn};

    ghost Value = { List Turn };

    ghost view = { λ t. t.list.items };
}

impl Turns {
    /// No turn.
    pub fn new(alloc: Global) -> Turns
        ensures { result ≡ [] }
    {
        Turns {
            list: Vec::new(alloc),
        }
    }

    /// These turns. It takes no memory.
    pub fn from_vec(list: Vec<Turn>) -> Turns
        ensures { result ≡ list.items }
    {
        Turns { list }
    }

    /// Gives the turns back.
    pub fn into_vec(self) -> Vec<Turn>
        ensures { result.items ≡ self }
    {
        self.list
    }

    /// The turns in their order.
    pub fn as_slice(&self) -> &[Turn]
        ensures { result.now ≡ self.now }
    {
        self.list.as_slice()
    }

    /// One more turn, after those that are there.
    #[inline(always)]
    pub fn push(&mut self, turn: Turn) -> Result<(), OutOfMemory>
        ensures ok { OnOk result (self.new ≡ self.old ++ turn ∷ []) }
        ensures err { OnErr result (self.new ≡ self.old) }
    {
        append(&mut self.list, turn)
    }
}

/// The turns of all ranks in their order.
#[derive(Drop)]
pub struct Schedule {
    pub turns: Turns,
}
