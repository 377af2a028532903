//! Where a shard's count, journal and table lie among its words, which words it begins with, and what a rank keeps of its calls: the same
//! for every way of working.
//!
//! - A **site** ([`Site`]) is one shard's place in its window: word 0, the **count** of its updates, the volume, the journal, and the
//!   lock's words behind them.
//! - The **opening words** ([`opening_word`]) are those before the first block.
//! - A **transcript** ([`Transcript`]) is the entries of one rank on the shard, in the order in which they were done.
//!
//! Promise: the code names the places and the opening words that the definitions name (`specs/Site`, `specs/Opens`), and a transcript keeps
//! the entries that it was given, in order, without taking memory after the start. `specs/Opens` also says which blocks a rank may open, and
//! which entries are its own.
//! Not said here: how a block is done, and what the lock's words are.
#![tactic(auto)]

mod site;
mod transcript;

pub use site::{COUNT_WORD, ENTRY_WORDS, Site, VOLUME_BASE, journal_base, opening_word};
pub use transcript::Transcript;
