//! The locks by name, and what a lock's name decides.

ghost use Rattle.std.specs.Prelude.{◌≡◌};
ghost use Rattle.rl_word.specs.LockFacts.{plain_facts, facts_of, has_cohorts};

/// The name of a lock.
#[derive(Clone, Copy, PartialEq, Eq, Debug)]
pub enum LockName {
    /// A spin lock.
    Spin,
    /// D-MCS: one queue of all ranks.
    Dmcs,
    /// ALock: a queue of the ranks at home and one of the others.
    Alock,
    /// RMA-MCS: a tree of queues.
    Mcs,
    /// RMA-RW: a tree of queues for writers, and counters of readers.
    Rw,
    /// Optimistic readers: writers under ALock, and a get alone takes no lock.
    Seq,
    /// Flat combining: ranks post their calls, and who holds ALock does them.
    Combine,
}

/// Which queues a lock has.
#[derive(Clone, Copy, PartialEq, Eq, Debug)]
pub enum QueueKind {
    /// None.
    NoQueue,
    /// One of all ranks, without a budget.
    OneForAll,
    /// Two: of the ranks at home, the local cohort, and of the others, the remote one. Each has a budget.
    TwoCohorts,
    /// One for each element of the tree.
    Elements {
        /// Whether the root's has a budget, which is that of the writers.
        root_has_budget: bool,
    },
}

/// What a lock's name decides.
#[derive(Clone, Copy, PartialEq, Eq, Debug)]
pub struct LockFacts {
    /// The lock on which it stands, which is asked for; itself, where it stands on none.
    pub under: LockName,
    /// Whether readers hold it beside each other.
    pub shares: bool,
    /// Whether a get alone is no tenure of a queue.
    pub spares: bool,
    /// Whether a block may be a batch.
    pub batches: bool,
    /// Its queues.
    pub queues: QueueKind,
}

impl QueueKind {
    /// Whether the ranks are in two cohorts.
    pub fn has_cohorts(self) -> bool
        ensures { result ≡ has_cohorts self }
    {
        matches!(self, QueueKind::TwoCohorts)
    }
}

impl LockName {
    // What is decided of a lock that stands on none, under which readers are writers.
    fn plain_facts(self, queues: QueueKind) -> LockFacts
        ensures { result ≡ plain_facts self queues }
    {
        LockFacts {
            under: self,
            shares: false,
            spares: false,
            batches: true,
            queues,
        }
    }

    /// What the name decides.
    pub fn facts(self) -> LockFacts
        ensures { result ≡ facts_of self }
    {
        match self {
            LockName::Spin => LockName::Spin.plain_facts(QueueKind::NoQueue),
            LockName::Dmcs => LockName::Dmcs.plain_facts(QueueKind::OneForAll),
            LockName::Alock => LockName::Alock.plain_facts(QueueKind::TwoCohorts),
            LockName::Mcs => LockName::Mcs.plain_facts(QueueKind::Elements {
                root_has_budget: false,
            }),
            LockName::Rw => LockFacts {
                under: LockName::Rw,
                shares: true,
                spares: true,
                batches: true,
                queues: QueueKind::Elements {
                    root_has_budget: true,
                },
            },
            LockName::Seq => LockFacts {
                under: LockName::Alock,
                shares: false,
                spares: true,
                batches: true,
                queues: QueueKind::TwoCohorts,
            },
            LockName::Combine => LockFacts {
                under: LockName::Alock,
                shares: false,
                spares: false,
                batches: false,
                queues: QueueKind::TwoCohorts,
            },
        }
    }
}
