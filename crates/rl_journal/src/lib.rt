//! The journal of a shard and the history that it and the ranks' transcripts make.
//!
//! - A **block** is a call alone, or a batch: calls that are done next to each other, all or none.
//! - The **journal** is the list of a shard's updates, in the order in which they were done. It splits into blocks, and is
//!   written down in six words an entry ([`journal_value`], [`journal_entry`]). How they spell what was asked and answered serves
//!   elsewhere, too ([`update_kind`], [`reply_code`] and those beside them).
//! - A **transcript** is the list of one rank's entries on the shard, gets and holds among them.
//! - The **history** has all entries in the order in which one thread can have made the calls.
//!
//! Promise: `specs/` says when a journal and transcripts are legal (`Legal`), when a rank's entries are its calls in order
//! (`Ranks`), and what the history is (`History`). Where they are legal the history is what one thread gets from the empty
//! table ([`history_laws`]); of a batch all is done or nothing ([`block_laws`]). What is written as an entry's words is read back as that entry ([`journal_laws`]).
//! Not said here: that any machine keeps its journal legal, and where its words lie.
#![tactic(auto)]

mod journal;
mod laws;

pub use journal::{
    call_key, first_number, journal_entry, journal_value, reply_code, reply_of, reply_value,
    second_number, update_kind, update_of,
};
pub use laws::{block_laws, history_laws, journal_laws};
