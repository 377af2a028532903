//! The line on standard error that says why a schedule that is right isn't made complete.
ghost use Rattle.std.specs.Prelude.{◌<◌, length};

use rl_completed::first_stop;
use rl_explain::{Explained, Kept, KeptText, Wanted, found_at, place_in};
use rl_ops::{Schedule, read_schedule};
use rl_text::TEXT_LIMIT;
use std::alloc::Global;
use std::io::Eprint;

/// What is wanted in place of a stop.
const NO_STOP: Wanted<'static> = Wanted::Text(
    "a turn of steps, since what a stopped rank has it keeps: there may be no way on",
);

/// The schedule that a kept text spells, if it does.
fn schedule_in(alloc: Global, ranks: u8, text: &KeptText) -> Option<Schedule> {
    let bytes = text.bytes.as_slice();
    if bytes.len() >= TEXT_LIMIT as usize {
        return None;
    }
    read_schedule(alloc, ranks, bytes).ok()
}

/// The first stop of a kept text, which stands in this line, and what is wanted in its place.
fn stop_at(text: &KeptText, line: u64) -> Option<Explained<'_>> {
    let bytes = text.bytes.as_slice();
    let line = u32::try_from(line).ok()?;
    if line == 0 || bytes.len() >= TEXT_LIMIT as usize {
        return None;
    }
    Some(Explained {
        name: text.name.as_str(),
        line,
        word: 1,
        found: found_at(bytes, line, 1),
        wanted: NO_STOP,
    })
}

/// Says why a schedule, that of this text, isn't made complete.
fn say_why_not<R: Eprint>(rt: &R, program: &str, text: &KeptText, schedule: &Schedule) {
    // If standard error takes nothing, the first line is all that is left.
    let _ = match first_stop(schedule.turns.as_slice()) {
        Some(line) => match stop_at(text, line) {
            Some(explained) => eprintln!(rt; "{program}: {explained}"),
            None => Ok(()),
        },
        None => {
            let name = text.name.as_str();
            eprintln!(rt;
                "{program}: {name:?}: found more with its way on, wanted at most 2000000 steps and 16777216 bytes"
            )
        }
    };
}

/// Says on standard error, in one line, why the schedule that was read last isn't made complete. Of a file that is refused for itself it says
/// nothing, and nothing where memory is short.
pub fn say_uncompleted<R: Eprint>(rt: &R, alloc: Global, program: &str, kept: &Kept) {
    let [place, _, text] = kept.texts() else {
        return;
    };
    let Some(place) = place_in(alloc, place) else {
        return;
    };
    if let Some(schedule) = schedule_in(alloc, place.paths.len() as u8, text) {
        say_why_not(rt, program, text, &schedule);
    }
}
