//! What a rank asks for, how far it is with that, and what a machine is that does it on one shard, whatever lock the shard has.
//!
//! - A *block* is a call alone or the calls of a batch: what a rank asks for in one go, on one shard (`specs/Asks`).
//! - A *desk* is what a rank has at one shard: its entries there, and the block that it has opened (`specs/Desks`).
//! - A rank is *good* at its desks where its entries are its first calls, each once, in its order, and it is in a block at one shard
//!   at most (`specs/RankGood`).
//! - A *shard's core* ([`ShardCore`]) is a rank's machine on one shard that does blocks: its table of plain functions
//!   (`specs/ShardTables`) and its laws (`specs/ShardLaws`). It is the wall: what stands above it knows of lock and work no more.
//! - A core may do two things more: its views hold all entries of their ranks ([`TellsAll`]); or it sees beforehand that a rank waits
//!   ([`Resting`]): that its next atom changes nothing (`specs/Idle`), or that it goes in a *round* of two loads (`specs/Rounds`), while the
//!   words that are named have the values that they had.
//! - And a core may have no dead end ([`ShardEnding`]): while a block is open, some rank's next atom leaves less to do.
//!   A core that is [`ShardGuiding`] says which rank's.
//!
//! Promise, for every core that keeps the laws of one: how its states come under its rule and stay there, and what is known of them then
//! ([`core_laws`]), of any state that it calls good, however that state was come to. And a rank stays good where it begins, where it opens
//! its next block, and where any desk of its own turns, by whichever rank's atom (`specs/laws/RankLaws`).
//! Not said here: how a lock is had, and how the work of a block is done.
#![tactic(auto)]

mod blocks;
mod ending;
mod guiding;
mod laws;
mod opening;
mod resting;
mod round;
mod shard_core;

pub use blocks::{block_from, block_shard};
pub use ending::ShardEnding;
pub use guiding::ShardGuiding;
pub use laws::core_laws;
pub use opening::{first_views, first_words, lock_base};
pub use resting::Resting;
pub use round::{Leg, Round};
pub use shard_core::{ShardCore, TellsAll};
