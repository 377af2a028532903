//! What a way of working is: how a rank does its blocks on one shard, in the words beside the lock's; and the way of the five locks.
//!
//! - A **block** is a call alone, or the 2 to 8 updates of a batch, which are done all or none.
//! - A **way of working** ([`Work`]) says in which mode a block asks for the lock, if it does; which atom a rank makes where the lock
//!   plans none; and what follows it ([`Follow`]): the block goes on, now the lock is asked for, or the block is over. It may have words
//!   of its own behind the lock's. A rank's **side** is what it knows of its work.
//! - [`LockedWork`] does each block under its lock, with the side [`LockedSide`]: the count is loaded; the volume is read for one call
//!   after the other, until each is decided; updates then write their entries to the journal, make their writes to the volume, and store
//!   the count. A **stage** ([`Stage`]) is where a rank stands in it.
//!
//! Promise: `LockedWork` keeps the laws of a way of working (`specs/Ways`), whatever the lock is that gives a writer alone and readers for
//! gets alone. Beneath it is a rule of words and sides (`specs/WorkGood`) that each atom keeps ([`work_laws`]): under it the journal's words
//! are read back as the journal, journal and transcripts are legal, the history is in order, and no rank runs out of room. The code
//! does what the definitions say, and takes no memory after the start. It has no dead end ([`WorkEnding`]): each of its atoms leaves less
//! to do.
//! Not said here: where the count, the volume and the journal lie, and what a transcript is (`rl_site`); how a rank comes to hold
//! the lock.
#![tactic(auto)]

mod ending;
mod follow;
mod laws;
mod locked;
mod stage;
mod way;
mod work;

pub use ending::WorkEnding;
pub use follow::{Follow, WorkStep};
pub use laws::work_laws;
pub use locked::LockedWork;
pub use stage::Stage;
pub use way::{KeepsOwn, Work};
pub use work::{LockedSide, write_atom};
