//! The rules of locks, event by event.
ghost use Rattle.std.specs.Prelude.{◌≡◌, ◌<◌, ◌^◌, [], ℕ, length, get_or, slice_get, slice_set, Option, Some, true, false, IfOk};
ghost use Rattle.std.specs.Bool.{OnTrue, OnFalse};
ghost use Rattle.rl_step.specs.declared.events.Event.{Event};
ghost use Rattle.rl_check.specs.Finding.{of_event};
ghost use Rattle.rl_check.specs.Shards.{event_tests};
ghost use Rattle.rl_check.specs.Tests.{IsFirstOf};
ghost use Rattle.rl_check.specs.QueuesOf.{queues_all, AreBudgetsOf};
ghost use Rattle.rl_check.specs.Watching.{IsThere, Sees, StepsOn, budget_in};

use crate::queues::Queues;
use rl_step::Event;
use std::alloc::{AllocError as OutOfMemory, Global};

// Who holds the lock after some events, and how often each queue may still be passed. So far the rules were kept.
#[derive(Drop)]
struct Watch {
    // The one writer that is inside.
    writer: Option<u32>,
    // Whether each rank is inside as a reader.
    reads: Vec<bool>,
    // The budget of each queue.
    budgets: Vec<Option<u32>>,
    // How many passes may come before the next settlement, of each queue that has a budget.
    room: Vec<u32>,
}

// The budgets of the queues.
fn budgets_of(
    alloc: Global,
    queues: &Queues<'_>,
    count: usize,
) -> Result<Vec<Option<u32>>, OutOfMemory>
    ensures each { IfOk result (λ budgets. length budgets.items ≡ count) }
    ensures budgets { IfOk result (λ budgets. AreBudgetsOf queues.now budgets.items) }
{
    let mut budgets = Vec::with_capacity(alloc, count)?;
    for queue in 0..count {
        budgets.push(queues.budget(queue))?;
    }
    Ok(budgets)
}

// Whether one of these holds.
fn any_true(tests: &[bool]) -> bool
    ensures some { OnTrue result ((k : ℕ) × (get_or tests.now k false ≡ true)) }
    ensures none { OnFalse result ((k : ℕ) → get_or tests.now k false ≡ false) }
{
    for test in tests {
        if *test {
            return true;
        }
    }
    false
}

// Notes whether a rank reads, if it is there.
fn note(reads: &mut Vec<bool>, rank: u32, value: bool)
    ensures { reads.new.items ≡ slice_set reads.old.items rank value }
{
    if (rank as usize) < reads.len() {
        reads[rank as usize] = value;
    }
}

// Notes how often a queue may be passed, if it is there.
fn allow(room: &mut Vec<u32>, queue: u32, value: u32)
    ensures { room.new.items ≡ slice_set room.old.items queue value }
{
    if (queue as usize) < room.len() {
        room[queue as usize] = value;
    }
}

impl Watch {
    // Before any event.
    fn new(
        alloc: Global,
        queues: &Queues<'_>,
        ranks: usize,
        count: usize,
    ) -> Result<Watch, OutOfMemory>
        requires { count ≡ length (queues_all queues.now) }
        ensures { IfOk result (Sees (queues_all queues.now) ranks []) }
    {
        Ok(Watch {
            writer: None,
            reads: vec![in alloc; false; ranks]?,
            budgets: budgets_of(alloc, queues, count)?,
            room: vec![in alloc; 0; count]?,
        })
    }

    // A writer enters; whether no other holder is inside.
    fn enter_writer(&mut self, rank: u32) -> bool
        ensures { StepsOn self.old self.new (Event.EnterW rank) result }
    {
        if any_true(self.reads.as_slice()) {
            return false;
        }
        match self.writer {
            Some(other) => other == rank,
            None => {
                self.writer = Some(rank);
                true
            }
        }
    }

    // A reader enters; whether no writer is inside.
    fn enter_reader(&mut self, rank: u32) -> bool
        ensures { StepsOn self.old self.new (Event.EnterR rank) result }
    {
        match self.writer {
            Some(_) => false,
            None => {
                note(&mut self.reads, rank, true);
                true
            }
        }
    }

    fn leave_writer(&mut self, rank: u32)
        ensures { StepsOn self.old self.new (Event.LeaveW rank) true }
    {
        let Some(writer) = self.writer else {
            return;
        };
        if writer == rank {
            self.writer = None;
        }
    }

    fn leave_reader(&mut self, rank: u32)
        ensures { StepsOn self.old self.new (Event.LeaveR rank) true }
    {
        note(&mut self.reads, rank, false);
    }

    // The budget of a queue.
    fn budget(&self, queue: u32) -> Option<u32>
        ensures { result ≡ budget_in self.now.budgets.items queue }
    {
        match self.budgets.get(queue as usize) {
            Some(budget) => *budget,
            None => None,
        }
    }

    // How often a queue may still be passed.
    fn room_of(&self, queue: u32) -> u32
        ensures { result ≡ get_or self.now.room.items queue 0 }
    {
        match self.room.get(queue as usize) {
            Some(room) => *room,
            None => 0,
        }
    }

    fn settle(&mut self, queue: u32, member: u32)
        ensures { StepsOn self.old self.new (Event.Settle queue member) true }
    {
        if let Some(budget) = self.budget(queue) {
            allow(&mut self.room, queue, budget);
        }
    }

    // A queue is passed; whether that was still allowed.
    fn pass(&mut self, queue: u32, member: u32) -> bool
        ensures { StepsOn self.old self.new (Event.Pass queue member) result }
    {
        if self.budget(queue).is_none() {
            return true;
        }
        let room = self.room_of(queue);
        if room == 0 {
            return false;
        }
        allow(&mut self.room, queue, room - 1);
        true
    }

    // Goes on with an event; whether the rules hold with it.
    fn see(&mut self, event: Event) -> bool
        ensures { StepsOn self.old self.new event result }
    {
        match event {
            Event::Pass { queue, member } => self.pass(queue, member),
            Event::Settle { queue, member } => {
                self.settle(queue, member);
                true
            }
            Event::EnterW { rank } => self.enter_writer(rank),
            Event::EnterR { rank } => self.enter_reader(rank),
            Event::LeaveW { rank } => {
                self.leave_writer(rank);
                true
            }
            Event::LeaveR { rank } => {
                self.leave_reader(rank);
                true
            }
            Event::Join { .. } => true,
            Event::Announce { .. } => true,
            Event::Touch { .. } => true,
        }
    }
}

/// The number of the first event with which the events so far break the rules of locks: with it a writer is beside another
/// holder, or a queue with a budget was passed more often than that since it was settled.
///
/// # Errors
///
/// Want of memory. It is told too where the number has no place in 32 bits.
pub fn first_break(
    alloc: Global,
    queues: &Queues<'_>,
    ranks: usize,
    count: usize,
    events: &[(u32, Event)],
) -> Result<Option<u32>, OutOfMemory>
    requires each { count ≡ length (queues_all queues.now) }
    requires there { (i : ℕ) (e : ℕ × Event) → slice_get events.now i ≡ Some e → IsThere ranks e.1 }
    ensures { IfOk result (λ found. IsFirstOf (event_tests (queues_all queues.now) events.now) (of_event found)) }
{
    let mut watch = Watch::new(alloc, queues, ranks, count)?;
    for place in 0..events.len() {
        if !watch.see(events[place].1) {
            let Ok(number) = u32::try_from(place) else {
                return Err(OutOfMemory);
            };
            return Ok(Some(number));
        }
    }
    Ok(None)
}
