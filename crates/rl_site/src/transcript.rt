//! The entries of one rank on a shard.
ghost use Rattle.std.specs.Prelude.{◌≡◌, ◌<◌, ◌≤◌, ◌+◌, ◌++◌, ◌∷◌, [], length, IfOk};

use rl_model::Entry;
use std::alloc::{AllocError as OutOfMemory, Global};
use std::marker::Model;

/// A rank's entries on a shard, in the order in which they were done.
///
/// It is made once, with room for so many entries, and takes no memory after that.
#[derive(Drop)]
pub struct Transcript {
    items: Vec<Entry>,
    room: u32,
}

impl Model for Transcript {
    ghost use Rattle.std.specs.Prelude.{◌≤◌, length, vec_capacity};
    ghost use Rattle.rl_site.specs.Transcript.{TheTranscript};

    ghost Value = { TheTranscript };

    ghost view = { λ t. record { items = t.items.items; room = t.room } };

    ghost invariant = { λ t. (length t.items.items ≤ t.room) × (t.room ≤ vec_capacity t.items) };
}

impl Transcript {
    /// No entries yet, and room for so many.
    ///
    /// # Errors
    ///
    /// Want of memory.
    pub fn new(alloc: Global, room: u32) -> Result<Transcript, OutOfMemory>
        ensures nothing { IfOk result (λ t. t.items ≡ []) }
        ensures room { IfOk result (λ t. t.room ≡ room) }
    {
        Ok(Transcript {
            items: Vec::with_capacity(alloc, room as usize)?,
            room,
        })
    }

    /// One entry more.
    fn add(&mut self, entry: Entry)
        requires { length self.old.items < self.old.room }
        ensures items { self.new.items ≡ self.old.items ++ entry ∷ [] }
        ensures room { self.new.room ≡ self.old.room }
    {
        self.items.push_reserved(entry);
    }

    /// The entries of a block more, for which there is room.
    pub fn add_all(&mut self, entries: &[Entry])
        requires { length self.old.items + length entries.now ≤ self.old.room }
        ensures items { self.new.items ≡ self.old.items ++ entries.now }
        ensures room { self.new.room ≡ self.old.room }
    {
        for entry in entries {
            self.add(*entry);
        }
    }

    /// The entries.
    pub fn as_slice(&self) -> &[Entry]
        ensures { result.now ≡ self.now.items }
    {
        self.items.as_slice()
    }

    /// The entries, without their room.
    pub fn into_entries(self) -> Vec<Entry>
        ensures { result.items ≡ self.items }
    {
        self.items
    }
}
