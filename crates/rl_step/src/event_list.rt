//! A list of the events of one atom.

ghost use Rattle.std.specs.Prelude.{◌≡◌, ◌+◌, ◌<◌, ◌≤◌, ◌==◌, ◌++◌, ◌∷◌, [], length};

use crate::events::Event;
use std::marker::Model;

/// At most 8 events, which lie in the value itself. Places behind the last event hold events of former lists; nobody reads them.
#[derive(Drop)]
pub struct Events {
    cells: [Event; 8],
    len: usize,
}

impl Model for Events {
    ghost use Rattle.std.specs.Prelude.{◌≡◌, ◌≤◌, length, take};
    ghost use Rattle.rl_step.specs.EventList.{EventList};

    ghost Value = { EventList };

    ghost view = { λ e. record { items = take e.len e.cells } };

    ghost invariant = { λ e. (e.len ≤ 8) × (length e.cells ≡ 8) };
}

impl Events {
    /// An empty list.
    #[inline(always)]
    pub fn new() -> Events
        ensures { result.items ≡ [] }
    {
        Events {
            cells: [Event::Announce { cohort: 0 }; 8],
            len: 0,
        }
    }

    /// Appends an event. There must be room.
    #[inline(always)]
    pub fn push(&mut self, event: Event)
        requires { length self.old.items < 8 }
        ensures items { self.new.items ≡ self.old.items ++ event ∷ [] }
        ensures len { length self.new.items ≡ length self.old.items + 1 }
    {
        let len = self.len;
        self.cells[len] = event;
        self.len = len + 1;
    }

    /// Empties the list. It writes no event.
    #[inline(always)]
    pub fn clear(&mut self)
        ensures { self.new.items ≡ [] }
    {
        self.len = 0;
    }

    /// How many events there are.
    #[inline(always)]
    pub fn len(&self) -> usize
        ensures value { result ≡ length self.now.items }
        ensures fits { result ≤ 8 }
    {
        self.len
    }

    /// Whether there is none.
    #[inline(always)]
    pub fn is_empty(&self) -> bool
        ensures { result ≡ (length self.now.items == 0) }
    {
        self.len == 0
    }

    /// The events, in order.
    #[inline(always)]
    pub fn as_slice(&self) -> &[Event]
        ensures value { result.now ≡ self.now.items }
        ensures fits { length result.now ≤ 8 }
    {
        &self.cells[..self.len]
    }
}
