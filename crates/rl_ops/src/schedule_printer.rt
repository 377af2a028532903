//! Printing a schedule file.
ghost use Rattle.std.specs.Prelude.{◌≡◌, ◌++◌, map, IfOk, OnOk};
ghost use Rattle.rl_text.specs.Spelling.{line_text, text_of};
ghost use Rattle.rl_ops.specs.Schedule.{turn_words, schedule_spelling};
ghost use Rattle.rl_ops.specs.ScheduleReading.{IsReadAsSchedule};

use crate::schedule::{Schedule, Turn};
use rl_text::put_number;
use std::alloc::{AllocError as OutOfMemory, Global};

fn put_turn(out: &mut Vec<u8>, turn: Turn) -> Result<(), OutOfMemory>
    ensures { OnOk result (out.new.items ≡ out.old.items ++ line_text (turn_words turn)) }
{
    match turn {
        Turn::Steps { rank, count } => {
            put_number(out, u64::from(rank))?;
            out.push(b' ')?;
            put_number(out, u64::from(count))?;
        }
        Turn::Stop { rank } => {
            out.extend_from_slice(b"stop ")?;
            put_number(out, u64::from(rank))?;
        }
    }
    out.push(b'\n')?;
    Ok(())
}

fn put_turns(out: &mut Vec<u8>, turns: &[Turn]) -> Result<(), OutOfMemory>
    ensures { OnOk result (out.new.items ≡ out.old.items ++ text_of (map turn_words turns.now)) }
{
    for turn in turns {
        put_turn(out, *turn)?;
    }
    Ok(())
}

fn printed(alloc: Global, schedule: &Schedule) -> Result<Vec<u8>, OutOfMemory>
    ensures { IfOk result (λ text. text.items ≡ schedule_spelling schedule.now) }
{
    let mut out = Vec::from_slice(alloc, b"rmalock-schedule 1\n")?;
    put_turns(&mut out, schedule.turns.as_slice())?;
    out.extend_from_slice(b"end\n")?;
    Ok(out)
}

/// Prints the one spelling of a schedule.
///
/// It is read back as the schedule, for all numbers of ranks that the schedule fits.
pub fn schedule_text(alloc: Global, schedule: &Schedule) -> Result<Vec<u8>, OutOfMemory>
    ensures text { IfOk result (λ text. text.items ≡ schedule_spelling schedule.now) }
    ensures again { IfOk result (λ text. IsReadAsSchedule text.items schedule.now) }
{
    printed(alloc, schedule)
}
