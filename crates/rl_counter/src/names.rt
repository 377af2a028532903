//! The words of the counters of a lock.

use std::marker::Model;

/// The words of all counters, the word that tells whether a writer is about, and the bound of readers.
#[derive(Drop)]
pub struct CounterNames {
    /// The arrive word of each counter: who has come, and 2^32 more while a writer's mark is on it.
    pub arrive: Vec<u32>,
    /// The depart word of each counter: who has gone since it was taken out.
    pub depart: Vec<u32>,
    /// The tail of the root's queue: 0 while no writer is in it.
    pub root_tail: u32,
    /// How many readers may come to a counter before one is refused, 1 to 1000.
    pub readers: u32,
}

impl Model for CounterNames {
    ghost use Rattle.rl_counter.specs.Counter.{TheCounters as TheNamedCounters};

    ghost Value = { TheNamedCounters };

    ghost view = { λ a. record { arrive = a.arrive.items; depart = a.depart.items; root_tail = a.root_tail; readers = a.readers } };
}
