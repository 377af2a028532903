//! The lines of a schedule, one after the other.

use crate::kinds::{Known, LineKind, Standing};
use crate::table::small_in;
use rl_ops::MOST_STEPS;
use rl_text::Line;

/// Behind a line of a schedule that is right.
pub fn after_schedule_line<'a>(here: Standing<'a>, line: Line<'_>) -> Standing<'a> {
    let left = match here.kind {
        LineKind::ScheduleHead => MOST_STEPS,
        LineKind::Turn => here.known.left.saturating_sub(small_in(line, 2)),
        _ => here.known.left,
    };
    let known = Known { left, ..here.known };
    let kind = LineKind::Turn;
    Standing { kind, known }
}

/// The kind of this line of a schedule, where it isn't the first.
pub fn schedule_kind<'a>(here: Standing<'a>, line: Line<'_>) -> Standing<'a> {
    if line.begins(b"stop") {
        here.with(LineKind::Stop)
    } else {
        here
    }
}
