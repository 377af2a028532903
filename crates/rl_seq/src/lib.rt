//! Optimistic readers: blocks under a sequence lock, as a way of working over whatever lock the writers hold.
//!
//! - The **version** is the work's one word, behind the lock's. It goes up by two with each block of updates, and is odd from before
//!   the block's first store to behind its last one.
//! - A **get alone** takes no lock. It loads the version until that is even, then the count, then the words of the volume that it
//!   needs, and the version again: where it is the same the get is done; else it has lost, and begins anew. What it loads from one
//!   look at the version to the next is a **try**.
//! - Any **other block** is done inside the lock, as `rl_work` does it. One of updates loads the version once all its calls are decided,
//!   stores the next odd number, makes its stores, and stores the next even number as its last atom. Its entries have joined one atom
//!   before that, with the store of the count. A hold leaves the version alone.
//! - A **stage** ([`SeqStage`]) is where a rank stands between the versions; its **side** ([`SeqSide`]) is that, and its side of the work
//!   inside the lock.
//!
//! Promise: [`SeqWork`] keeps the laws of a way of working (`specs/Ways` of `rl_work`), and each rank keeps its own entries; a get is no
//! tenure of the lock. Further ([`seq_laws`]): the version is odd exactly while a writer is between its two stores to it, and never falls.
//! While it is still the even one that a get has found, nobody writes, and the count and each word that the get has loaded are those
//! that it found: so a get that finds it again replies what the table at that count says. A get makes no atoms but loads, waits exactly
//! where the version is odd, loses exactly where the second version is another than the first, and loads few words in each try. The code
//! does what the definitions say, and takes no memory after the start. It has no dead end over a lock that has none (`WorkEnding`).
//! Not said here: how a writer comes to hold the lock, and that a get is ever done, whatever the schedule.
#![tactic(auto)]

mod ending;
mod laws;
mod side;
mod stage;
mod way;

pub use laws::seq_laws;
pub use side::SeqSide;
pub use stage::SeqStage;
pub use way::SeqWork;
