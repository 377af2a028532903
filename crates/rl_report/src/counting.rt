//! Tallies of queues.
ghost use Rattle.std.specs.Prelude.{◌≡◌, ◌↔◌, ◌+◌, ◌<◌, length, take, IsTrue, IfOk};
ghost use Rattle.rl_step.specs.Queues.{IsWithinBudget};
ghost use Rattle.rl_report.specs.Tallies.{tallies_from, counts_for};
ghost use Rattle.rl_step.specs.Traces.{events_of};

use rl_step::{Event, Tally};
use std::alloc::{AllocError as OutOfMemory, Global};

/// Whether a queue kept its budget: it was passed at most so often for each settlement. Any two numbers of a tally are
/// compared rightly, since it is computed in 128 bits.
pub fn within(tally: Tally, budget: u32) -> bool
    ensures { IsTrue result ↔ IsWithinBudget tally budget }
{
    u128::from(tally.passed) <= u128::from(budget) * u128::from(tally.settled)
}

// The queue that an event counts for, and what it counts.
fn counts_for(event: Event) -> Option<(u32, Tally)>
    ensures { result ≡ counts_for event }
{
    let (queue, settled, passed) = match event {
        Event::Settle { queue, .. } => (queue, 1, 0),
        Event::Pass { queue, .. } => (queue, 0, 1),
        Event::Join { .. }
        | Event::Announce { .. }
        | Event::Touch { .. }
        | Event::EnterW { .. }
        | Event::EnterR { .. }
        | Event::LeaveW { .. }
        | Event::LeaveR { .. } => return None,
    };
    Some((queue, Tally { settled, passed }))
}

// Counts the event at a place, after those before it. One of a queue that isn't there counts nothing.
fn count_event(tallies: &mut [Tally], events: &[(u32, Event)], place: usize)
    requires there { place < length events.now }
    requires counted { tallies.old ≡ tallies_from 0 (length tallies.old) (events_of (take place events.now)) }
    ensures counted { tallies.new ≡ tallies_from 0 (length tallies.old) (events_of (take (place + 1) events.now)) }
{
    let (_, event) = events[place];
    let Some((queue, more)) = counts_for(event) else {
        return;
    };
    if (queue as usize) < tallies.len() {
        let tally = tallies[queue as usize];
        tallies[queue as usize] = Tally {
            settled: tally.settled + more.settled,
            passed: tally.passed + more.passed,
        };
    }
}

/// The tally of each of so many queues: how often the events settle it and how often they pass it.
pub fn tallies(
    alloc: Global,
    queues: u32,
    events: &[(u32, Event)],
) -> Result<Vec<Tally>, OutOfMemory>
    ensures { IfOk result (λ tallies. tallies.items ≡ tallies_from 0 queues (events_of events.now)) }
{
    let none = Tally {
        settled: 0,
        passed: 0,
    };
    let mut tallies = vec![in alloc; none; queues as usize]?;
    for place in 0..events.len() {
        count_event(tallies.as_mut_slice(), events, place);
    }
    Ok(tallies)
}
