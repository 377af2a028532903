//! The lines of a placement, one after the other.

use crate::kinds::{Known, LineKind, Standing};
use crate::table::small_in;
use rl_place::lock_named;
use rl_text::Line;
use rl_word::{LockName, QueueKind};

/// Behind the line of the lock: the first line of its settings.
fn after_lock<'a>(here: Standing<'a>, line: Line<'_>) -> Standing<'a> {
    let Some(lock) = lock_named(line.word(2).unwrap_or(&[])) else {
        return here;
    };
    let known = Known { lock, ..here.known };
    let kind = match lock.facts().queues {
        QueueKind::NoQueue | QueueKind::OneForAll => LineKind::Shards,
        QueueKind::TwoCohorts => LineKind::Cohorts,
        QueueKind::Elements { .. } => LineKind::Budgets,
    };
    Standing { kind, known }
}

/// Behind the line of the budgets of levels.
fn after_budgets(here: Standing<'_>) -> Standing<'_> {
    match here.known.lock {
        LockName::Rw => here.with(LineKind::Writers),
        _ => here.with(LineKind::Shards),
    }
}

/// Behind the line of a home.
fn after_home(here: Standing<'_>) -> Standing<'_> {
    let next = here.known.next.saturating_add(1);
    if next < here.known.shards {
        here.reaching(LineKind::Home, next)
    } else {
        here.with(LineKind::End)
    }
}

/// Behind a line of a placement that is right.
pub fn after_place_line<'a>(here: Standing<'a>, line: Line<'_>) -> Standing<'a> {
    match here.kind {
        LineKind::PlaceHead => here.with(LineKind::Levels),
        LineKind::Levels => {
            let levels = small_in(line, 2);
            let known = Known {
                levels,
                ..here.known
            };
            let kind = LineKind::Lock;
            Standing { kind, known }
        }
        LineKind::Lock => after_lock(here, line),
        LineKind::Cohorts | LineKind::Group => here.with(LineKind::Shards),
        LineKind::Budgets => after_budgets(here),
        LineKind::Writers => here.with(LineKind::Readers),
        LineKind::Readers => here.with(LineKind::Group),
        LineKind::Shards => {
            let shards = small_in(line, 2);
            let known = Known {
                shards,
                ..here.known
            };
            let kind = LineKind::Buckets;
            Standing { kind, known }
        }
        LineKind::Buckets => here.with(LineKind::Overflow),
        LineKind::Overflow => here.counting(LineKind::FirstRank),
        LineKind::FirstRank | LineKind::Rank => {
            here.reaching(LineKind::Rank, here.known.next.saturating_add(1))
        }
        LineKind::Home => after_home(here),
        _ => here,
    }
}
