//! The lock of a placement and its settings.
ghost use Rattle.std.specs.Prelude.{◌≡◌, ◌++◌, ◌∷◌, [], OnOk, OnErr};

use rl_word::LockName;
use std::alloc::{AllocError as OutOfMemory, Global};
use std::marker::Model;

/// A budget for each level of the tree: first that of the elements named by one number, last that of the nodes.
#[derive(Drop)]
pub struct Budgets {
    list: Vec<u32>,
}

impl Model for Budgets {
    ghost use Rattle.std.specs.Prelude.{ℕ, List};

    ghost Value = { List ℕ };

    ghost view = { λ b. b.list.items };
}

impl Budgets {
    /// No budget yet.
    pub fn new(alloc: Global) -> Budgets
        ensures { result ≡ [] }
    {
        Budgets {
            list: Vec::new(alloc),
        }
    }

    /// One budget more, after the others. After want of memory the budgets are as before.
    pub fn push(&mut self, budget: u32) -> Result<(), OutOfMemory>
        ensures ok { OnOk result (self.new ≡ self.old ++ budget ∷ []) }
        ensures err { OnErr result (self.new ≡ self.old) }
    {
        self.list.push(budget)?;
        Ok(())
    }

    /// The budgets in order.
    pub fn as_slice(&self) -> &[u32]
        ensures { result.now ≡ self.now }
    {
        self.list.as_slice()
    }

    /// The budgets as a vector. Takes no memory.
    pub fn into_vec(self) -> Vec<u32>
        ensures { result.items ≡ self }
    {
        self.list
    }
}

/// Takes no memory.
impl From<Vec<u32>> for Budgets {
    ghost from_gives = { λ list budgets. budgets ≡ list.items };

    fn from(list: Vec<u32>) -> Budgets {
        Budgets { list }
    }
}

/// The lock that guards each shard, with its settings. Budgets and `writers` are 0 to [`MOST_BUDGET`], `readers` 1 to
/// [`MOST_BUDGET`], `group` 1 to [`MOST_RANKS`].
///
/// [`MOST_BUDGET`]: crate::MOST_BUDGET
/// [`MOST_RANKS`]: crate::MOST_RANKS
#[derive(Drop)]
pub enum Lock {
    /// A spin lock: one word that a rank takes by compare-and-swap.
    Spin,
    /// D-MCS: one queue of all ranks (Schmid, Besta, Hoefler, HPDC 2016).
    Dmcs,
    /// ALock: a queue of the ranks of the shard's home and one of the others, with a Peterson lock between them (Baran,
    /// Nelson-Slivon, Tseng, Palmieri, SPAA 2024). A cohort hands the lock on as often as its budget says.
    Alock {
        local: u32,
        remote: u32,
    },
    /// RMA-MCS: a tree of queues (Schmid, Besta, Hoefler, HPDC 2016), with a budget for each level.
    Mcs {
        budgets: Budgets,
    },
    /// RMA-RW: RMA-MCS for writers, with counters of readers. `writers` is the budget of the root, `readers` how many
    /// readers enter on one counter before a writer is let in, and `group` how many ranks share a counter.
    Rw {
        budgets: Budgets,
        writers: u32,
        readers: u32,
        group: u32,
    },
    /// Optimistic readers: a get alone takes no lock, and reads between two looks at a version, as under a sequence lock; all else is done
    /// under ALock, with its budgets.
    Seq {
        local: u32,
        remote: u32,
    },
    /// Flat combining: each rank posts its call, and whoever holds ALock does all calls that it finds posted (after Hendler, Incze, Shavit,
    /// Tzafrir, SPAA 2010), with ALock's budgets. It does no batches.
    Combine {
        local: u32,
        remote: u32,
    },
}

impl Lock {
    ghost use Rattle.rl_place.specs.LockWords.{name_of};

    /// The name of the lock, without its settings.
    pub fn name(&self) -> LockName
        ensures { result ≡ name_of self.now }
    {
        match self {
            Lock::Spin => LockName::Spin,
            Lock::Dmcs => LockName::Dmcs,
            Lock::Alock { .. } => LockName::Alock,
            Lock::Mcs { .. } => LockName::Mcs,
            Lock::Rw { .. } => LockName::Rw,
            Lock::Seq { .. } => LockName::Seq,
            Lock::Combine { .. } => LockName::Combine,
        }
    }
}
