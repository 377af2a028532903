//! A rank's own tallies of the queues.

ghost use Rattle.std.specs.Prelude.{◌≡◌, length, replicate, slice_set, IfOk};
ghost use Rattle.rl_shard.specs.Tallies.{raised, no_tally, tally_at, settled_once, passed_once, noted, all_noted};

use rl_step::{Event, Tally};
use std::alloc::{AllocError as OutOfMemory, Global};
use std::marker::Model;

/// The tally of a queue that was never settled or passed.
pub const NOTHING: Tally = Tally {
    settled: 0,
    passed: 0,
};

/// How often the acts of one rank settled and passed each queue of the lock, by the queues' numbers.
///
/// It is made once, and takes no memory after that. A count that is full, at 2^64 - 1, stands still.
#[derive(Drop)]
pub struct Tallies {
    tallies: Vec<Tally>,
}

impl Model for Tallies {
    ghost use Rattle.std.specs.Prelude.{List};
    ghost use Rattle.rl_step.specs.declared.tallies.Tally.{Tally as TheTally};

    ghost Value = { List TheTally };

    ghost view = { λ t. t.tallies.items };
}

/// One more, where there is a number for it.
fn more(count: u64) -> u64
    ensures { result ≡ raised count }
{
    count.saturating_add(1)
}

impl Tallies {
    /// Nothing was counted yet, for so many queues.
    ///
    /// # Errors
    ///
    /// Want of memory.
    pub fn none(alloc: Global, queues: usize) -> Result<Tallies, OutOfMemory>
        ensures { IfOk result (λ t. t ≡ replicate queues no_tally) }
    {
        Ok(Tallies {
            tallies: vec![in alloc; NOTHING; queues]?,
        })
    }

    /// Counts what happened with one atom.
    #[inline(always)]
    pub fn count(&mut self, events: &[Event])
        ensures { self.new ≡ all_noted events.now self.old }
    {
        for event in events {
            self.note(*event);
        }
    }

    /// Counts one event.
    fn note(&mut self, event: Event)
        ensures { self.new ≡ noted event self.old }
    {
        match event {
            Event::Settle { queue, .. } => self.settle(queue as usize),
            Event::Pass { queue, .. } => self.pass(queue as usize),
            _ => {}
        }
    }

    /// Counts a settlement of the queue, if it is there.
    fn settle(&mut self, queue: usize)
        ensures { self.new ≡ slice_set self.old queue (settled_once (tally_at queue self.old)) }
    {
        if queue < self.tallies.len() {
            let tally = self.tallies[queue];
            self.tallies[queue] = Tally {
                settled: more(tally.settled),
                passed: tally.passed,
            };
        }
    }

    /// Counts a pass of the queue, if it is there.
    fn pass(&mut self, queue: usize)
        ensures { self.new ≡ slice_set self.old queue (passed_once (tally_at queue self.old)) }
    {
        if queue < self.tallies.len() {
            let tally = self.tallies[queue];
            self.tallies[queue] = Tally {
                settled: tally.settled,
                passed: more(tally.passed),
            };
        }
    }

    /// How many queues there are.
    pub fn len(&self) -> usize
        ensures { result ≡ length self.now }
    {
        self.tallies.len()
    }

    /// The tally of a queue; one that isn't there was never settled or passed.
    pub fn tally(&self, queue: usize) -> Tally
        ensures { result ≡ tally_at queue self.now }
    {
        if queue < self.tallies.len() {
            self.tallies[queue]
        } else {
            NOTHING
        }
    }
}
