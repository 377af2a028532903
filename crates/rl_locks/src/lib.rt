//! The cores of a table's shards: each lock with the way in which it does blocks; and the choice of one for a placement.
//!
//! - Five do each block under their lock: spin, D-MCS, ALock, RMA-MCS and RMA-RW.
//! - Two stand on ALock and work in ways of their own: with optimistic readers a get alone takes no lock, and in flat combining whoever
//!   has the lock does the calls that all ranks have posted.
//! - A *kind* is such a core as it is defined (`specs/Kinds`).
//! - A *task* ([`CoreTask`]) is what is done with the core of a placement's lock, whichever it is; [`over_lock`] chooses the core.
//! - A core is *promising* ([`Promising`]) by what its way of doing blocks promises beyond every core: to read under the lock, to read without it
//!   and look twice, or to do each posted call once.
//!
//! Promise: each is a shard's core (`ShardCore` of `rl_core`), so machines of all of them keep what a machine promises; and a task is done with
//! the core that the placement's lock has by its kind, whose settings suit it (`settings_suit`). What optimistic readers and flat combining
//! promise holds of machines at every moment and of shared shards between any two table steps ([`readers_of_machine`],
//! [`combiners_of_machine`] and theirs of shards). So does it of ranks that read under their lock, also where readers share it: what they
//! have found still stands ([`holders_of_machine`], [`holders_of_shard`]). Over each lock seats, and the ranks of a machine, keep its two
//! domains apart ([`alock_domains`], [`alock_domains_of_machine`] and those of the others). Few words of the volume are loaded for a call
//! alone under its lock ([`few_loads`], [`holders_of_machine`]), in each try of a get under optimistic readers ([`readers_of_machine`]), and
//! for each posted call by the rank that does it ([`combiners_of_machine`]). All seven have no dead end: from every state of a machine, whatever
//! schedule led to it, some steps lead to the end of all calls ([`spin_no_dead_end`] and the others).
//! Not said here: that a rank ever gets the lock, whatever the schedule; how many words are loaded for a batch, or beside optimistic readers under the lock.
#![tactic(auto)]

mod choice;
mod combiners;
mod domains;
mod endings;
mod holders;
mod loads;
mod machine_domains;
mod readers;
mod settings;
mod ways;

pub use choice::{CoreTask, over_lock};
pub use combiners::{combiners_of_machine, combiners_of_shard, posts_at_home};
pub use domains::{alock_domains, dmcs_domains, mcs_domains, rw_domains, spin_domains};
pub use endings::{
    alock_no_dead_end, combine_no_dead_end, dmcs_no_dead_end, mcs_no_dead_end, rw_no_dead_end,
    seq_no_dead_end, spin_no_dead_end,
};
pub use holders::{holders_of_machine, holders_of_shard};
pub use loads::few_loads;
pub use machine_domains::{
    alock_domains_of_machine, dmcs_domains_of_machine, mcs_domains_of_machine,
    rw_domains_of_machine, spin_domains_of_machine,
};
pub use readers::{readers_of_machine, readers_of_shard};
use rl_alock::Alock;
use rl_combine::CombineWork;
use rl_machine::Machine;
use rl_mcs::Mcs;
use rl_queue::Dmcs;
use rl_rank::Whole;
use rl_rw::Rw;
use rl_seq::SeqWork;
use rl_shard::{Seat, Shard};
use rl_spin::Spin;
use rl_work::LockedWork;
pub use settings::settings_suit;
pub use ways::{Promising, ways_of_machine};

/// Each block under a spin lock.
pub type SpinCore = Whole<Spin, LockedWork>;

/// Each block under D-MCS.
pub type DmcsCore = Whole<Dmcs, LockedWork>;

/// Each block under ALock.
pub type AlockCore = Whole<Alock, LockedWork>;

/// Each block under RMA-MCS.
pub type McsCore = Whole<Mcs, LockedWork>;

/// Each block under RMA-RW.
pub type RwCore = Whole<Rw, LockedWork>;

/// Optimistic readers: a get alone without a lock, and any other block under ALock.
pub type SeqCore = Whole<Alock, SeqWork>;

/// Flat combining: the posted calls of all ranks by whoever has ALock, each by itself.
pub type CombineCore = Whole<Alock, CombineWork>;

/// All shards of a table with optimistic readers, stepped one rank after the other.
pub type SeqMachine = Machine<SeqCore>;

/// A shard with optimistic readers, which threads share.
pub type SeqShard = Shard<SeqCore>;

/// A rank's seat at such a shard.
pub type SeqSeat = Seat<SeqCore>;

/// All shards of a table under flat combining, stepped one rank after the other.
pub type CombineMachine = Machine<CombineCore>;

/// A shard under flat combining, which threads share.
pub type CombineShard = Shard<CombineCore>;

/// A rank's seat at such a shard.
pub type CombineSeat = Seat<CombineCore>;
