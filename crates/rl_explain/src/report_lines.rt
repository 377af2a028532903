//! The lines of a report, one after the other.

use crate::kinds::{Known, LineKind, Standing};
use crate::table::{number_in, small_in};
use rl_text::Line;

/// How many queues the lock has.
fn queues_of(known: &Known<'_>) -> usize {
    match known.naming {
        Some(naming) => naming.queues.len(),
        None => 0,
    }
}

/// Behind the last queue of a shard.
fn at_events(here: Standing<'_>) -> Standing<'_> {
    let known = Known {
        least: 0,
        ..here.known
    };
    let kind = if here.known.replay {
        LineKind::Event
    } else {
        LineKind::Pair
    };
    Standing { kind, known }
}

/// Before the queue of this number, if there is one.
fn at_queue(here: Standing<'_>, next: u32) -> Standing<'_> {
    if (next as usize) < queues_of(&here.known) {
        here.reaching(LineKind::Queue, next)
    } else {
        at_events(here)
    }
}

/// Where so many entries are still to come.
fn at_entry(here: Standing<'_>, left: u32) -> Standing<'_> {
    let known = Known { left, ..here.known };
    let kind = LineKind::Entry;
    let here = Standing { kind, known };
    if left == 0 { at_queue(here, 0) } else { here }
}

/// Before the part of this shard, if there is one, and else before the ranks.
fn at_shard(here: Standing<'_>, part: u32) -> Standing<'_> {
    let known = Known { part, ..here.known };
    let here = Standing { known, ..here };
    if part < here.known.shards {
        here.reaching(LineKind::Shard, part)
    } else {
        here.reaching(LineKind::Done, 0)
    }
}

/// Behind the line of a rank.
fn after_done(here: Standing<'_>) -> Standing<'_> {
    let next = here.known.next.saturating_add(1);
    if next < here.known.ranks {
        return here.reaching(LineKind::Done, next);
    }
    if here.known.replay {
        here.with(LineKind::Steps)
    } else {
        here.with(LineKind::End)
    }
}

/// Behind the first line or the second one.
fn after_head<'a>(here: Standing<'a>, line: Line<'_>) -> Standing<'a> {
    match here.kind {
        LineKind::ReportHead => {
            let known = Known {
                second: number_in(line, 2) == 2,
                ..here.known
            };
            let kind = LineKind::Mode;
            Standing { kind, known }
        }
        _ => {
            let known = Known {
                replay: line.begins(b"replay"),
                ..here.known
            };
            let kind = LineKind::Sizes;
            Standing { kind, known }
        }
    }
}

/// Behind an event or a pair.
fn after_event<'a>(here: Standing<'a>, line: Line<'_>) -> Standing<'a> {
    let known = Known {
        least: number_in(line, 2),
        ..here.known
    };
    Standing { known, ..here }
}

/// Behind a line of a report that is right.
pub fn after_report_line<'a>(here: Standing<'a>, line: Line<'_>) -> Standing<'a> {
    let known = Known {
        more: false,
        ..here.known
    };
    let here = Standing { known, ..here };
    match here.kind {
        LineKind::ReportHead | LineKind::Mode => after_head(here, line),
        LineKind::Sizes => at_shard(here, 0),
        LineKind::Shard => at_entry(here, small_in(line, 6)),
        LineKind::Entry => at_entry(here, here.known.left.saturating_sub(1)),
        LineKind::Queue => at_queue(here, here.known.next.saturating_add(1)),
        LineKind::Pair | LineKind::Event => after_event(here, line),
        LineKind::Done => after_done(here),
        LineKind::Steps => here.with(LineKind::End),
        _ => here,
    }
}

/// Behind the last event or pair of a shard.
fn behind_events(here: Standing<'_>) -> Standing<'_> {
    let known = Known {
        more: true,
        ..here.known
    };
    at_shard(
        Standing { known, ..here },
        here.known.part.saturating_add(1),
    )
}

/// The kind of this line of a report, where an event or a pair may stand.
pub fn report_kind<'a>(here: Standing<'a>, line: Line<'_>) -> Standing<'a> {
    match here.kind {
        LineKind::Event if !line.begins(b"event") => behind_events(here),
        LineKind::Pair if !line.begins(b"pair") => behind_events(here),
        _ => here,
    }
}
