//! The kind of a line, by the lines before it.
ghost use Rattle.std.specs.Prelude.{◌<◌, ◌≤◌, length};

use crate::calls_lines::after_calls_line;
use crate::kinds::{LineKind, Standing};
use crate::place_lines::after_place_line;
use crate::report_lines::{after_report_line, report_kind};
use crate::schedule_lines::{after_schedule_line, schedule_kind};
use rl_text::{Line, Lines, TEXT_LIMIT};

/// Of which kind this line is, where it may be of several.
fn kind_of<'a>(here: Standing<'a>, line: Line<'_>) -> Standing<'a> {
    match here.kind {
        LineKind::Rank if line.begins(b"home") => here.counting(LineKind::Home),
        LineKind::Turn => schedule_kind(here, line),
        LineKind::Event | LineKind::Pair => report_kind(here, line),
        _ => here,
    }
}

/// Behind a line that is right.
fn after<'a>(here: Standing<'a>, line: Line<'_>) -> Standing<'a> {
    match here.kind {
        LineKind::CallsHead | LineKind::Call | LineKind::Part => after_calls_line(here, line),
        LineKind::ScheduleHead | LineKind::Turn | LineKind::Stop => {
            after_schedule_line(here, line)
        }
        LineKind::ReportHead
        | LineKind::Mode
        | LineKind::Sizes
        | LineKind::Shard
        | LineKind::Entry
        | LineKind::Queue
        | LineKind::Pair
        | LineKind::Event
        | LineKind::Done
        | LineKind::Steps => after_report_line(here, line),
        _ => after_place_line(here, line),
    }
}

/// What stands at line `number` of a text whose lines before it are right, where the first is of this kind.
pub fn standing_at<'a>(start: Standing<'a>, text: &[u8], number: u32) -> Standing<'a>
    requires { length text.now < TEXT_LIMIT }
{
    let mut here = start;
    let mut lines = Lines::new(text);
    for _ in 1..number {
        let Some(line) = lines.next_line() else {
            return here;
        };
        here = after(kind_of(here, line), line);
    }
    match lines.next_line() {
        Some(line) => kind_of(here, line),
        None => here,
    }
}
