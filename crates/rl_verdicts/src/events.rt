//! Why the events up to one of them break the rules of locks.

use crate::places::behind_queues;
use crate::reasons::Reason;
use rl_check::Queues;
use rl_report::Report;
use rl_step::Event;

/// As many ranks as there may be.
const MOST_RANKS: usize = 32;

/// The event with which each rank came in that is still inside.
type Inside = [Option<usize>; MOST_RANKS];

/// Notes with which event a rank came in, or that it is out.
fn note(inside: &mut Inside, rank: u32, event: Option<usize>) {
    if (rank as usize) < MOST_RANKS {
        inside[rank as usize] = event;
    }
}

/// Who is inside after the events before a place: writers, or readers.
fn inside_before(events: &[(u32, Event)], at: usize, writers: bool) -> Inside {
    let mut inside = [None; MOST_RANKS];
    for place in 0..at.min(events.len()) {
        match (events[place].1, writers) {
            (Event::EnterW { rank }, true) | (Event::EnterR { rank }, false) => {
                note(&mut inside, rank, Some(place));
            }
            (Event::LeaveW { rank }, true) | (Event::LeaveR { rank }, false) => {
                note(&mut inside, rank, None);
            }
            _ => {}
        }
    }
    inside
}

/// A rank that is inside, with the event with which it came in.
fn someone(inside: &Inside) -> Option<(u32, usize)> {
    for rank in 0..MOST_RANKS {
        if let Some(event) = inside[rank] {
            return Some((rank as u32, event));
        }
    }
    None
}

/// Who is inside that may not be beside a rank that enters: before a writer everybody, before a reader a writer.
fn holder(events: &[(u32, Event)], at: usize, writes: bool) -> Option<(u32, usize)> {
    match someone(&inside_before(events, at, true)) {
        Some(writer) => Some(writer),
        None if writes => someone(&inside_before(events, at, false)),
        None => None,
    }
}

/// How often a queue was passed before a place since it was settled.
fn passes_before(events: &[(u32, Event)], at: usize, queue: u32) -> u32 {
    let mut passes = 0u32;
    for place in 0..at.min(events.len()) {
        match events[place].1 {
            Event::Settle { queue: settled, .. } if settled == queue => passes = 0,
            Event::Pass { queue: passed, .. } if passed == queue => {
                passes = passes.saturating_add(1);
            }
            _ => {}
        }
    }
    passes
}

/// Why a rank may not enter.
fn beside(
    report: &Report,
    shard: usize,
    events: &[(u32, Event)],
    at: usize,
    rank: u32,
    writes: bool,
) -> Reason {
    match holder(events, at, writes) {
        Some((other, event)) => Reason::Beside(rank, other, behind_queues(report, shard, event)),
        None => Reason::Unknown,
    }
}

/// Why the events up to the one at a place break the rules of locks.
pub fn reason_of_event(
    queues: &Queues<'_>,
    report: &Report,
    shard: usize,
    events: &[(u32, Event)],
    at: usize,
) -> Reason {
    let Some((_, event)) = events.get(at) else {
        return Reason::Unknown;
    };
    match *event {
        Event::EnterW { rank } => beside(report, shard, events, at, rank, true),
        Event::EnterR { rank } => beside(report, shard, events, at, rank, false),
        Event::Pass { queue, .. } => {
            let passes = passes_before(events, at, queue).saturating_add(1);
            let budget = queues.budget(queue as usize).unwrap_or(0);
            Reason::Passed(passes, budget)
        }
        _ => Reason::Unknown,
    }
}

/// The queue that is passed too often, if the event at a place passes one.
pub fn queue_of_event(events: &[(u32, Event)], at: usize) -> Option<u32> {
    match events.get(at) {
        Some((_, Event::Pass { queue, .. })) => Some(*queue),
        _ => None,
    }
}
