//! Printing a report.
ghost use Rattle.std.specs.Prelude.{◌≡◌, ℕ, ◌++◌, ◌∷◌, [], codes, decimal, map, length, slice_get, Ok, IfOk, OnErr, OnOk};
ghost use Rattle.rl_text.specs.Spelling.{line_text, text_of};
ghost use Rattle.rl_place.specs.Places.{IsProper};
ghost use Rattle.rl_report.specs.Naming.{naming_of, queue_word, member_word, cohort_word};
ghost use Rattle.rl_report.specs.Reports.{ReportFits};
ghost use Rattle.rl_report.specs.Spelling.{queue_words, queue_line, queue_lines, pair_words, in_queue_words, event_words, event_line, event_lines, is_printed, shard_words, shard_lines, shards_lines, rank_done_words, rank_done_lines, last_steps_words, steps_words, steps_lines, mode_word, sizes_words, report_body_lines, report_spelling};
ghost use Rattle.rl_report.specs.Reading.{report_at};
ghost use Rattle.rl_report.specs.Printing.{spaced};

use crate::entry_printer::put_entries;
use crate::naming::{Naming, QueueName};
use crate::putting::{put_first, put_named, put_value, put_word};
use crate::report::{Done, Report, ShardReport};
use rl_place::Place;
use rl_step::{Event, Steps, Tally};
use std::alloc::{AllocError as OutOfMemory, Global};

// `queue NAME settled X passed Y`.
fn put_queue(out: &mut Vec<u8>, queue: &QueueName, tally: Tally) -> Result<(), OutOfMemory>
    ensures { OnOk result (out.new.items ≡ out.old.items ++ line_text (queue_words queue.now tally)) }
{
    out.extend_from_slice(b"queue")?;
    put_word(out, queue.word.as_slice())?;
    put_named(out, b"settled", tally.settled)?;
    put_named(out, b"passed", tally.passed)?;
    out.push(b'\n')?;
    Ok(())
}

// The line of a queue, where it has a tally.
fn put_queue_at(
    out: &mut Vec<u8>,
    queue: &QueueName,
    tallies: &[Tally],
    number: usize,
) -> Result<(), OutOfMemory>
    ensures { OnOk result (out.new.items ≡ out.old.items ++ text_of (queue_line queue.now (slice_get tallies.now number))) }
{
    match tallies.get(number) {
        Some(tally) => put_queue(out, queue, *tally),
        None => Ok(()),
    }
}

fn put_queues(out: &mut Vec<u8>, queues: &[QueueName], tallies: &[Tally]) -> Result<(), OutOfMemory>
    ensures { OnOk result (out.new.items ≡ out.old.items ++ text_of (queue_lines queues.now tallies.now)) }
{
    for (number, queue) in queues.iter().enumerate() {
        put_queue_at(out, queue, tallies, number)?;
    }
    Ok(())
}

// `pair K V`.
fn put_pair(out: &mut Vec<u8>, key: u64, value: u64) -> Result<(), OutOfMemory>
    ensures { OnOk result (out.new.items ≡ out.old.items ++ line_text (pair_words (key, value))) }
{
    put_first(out, b"pair", key)?;
    put_value(out, value)?;
    out.push(b'\n')?;
    Ok(())
}

fn put_pairs(out: &mut Vec<u8>, pairs: &[(u64, u64)]) -> Result<(), OutOfMemory>
    ensures { OnOk result (out.new.items ≡ out.old.items ++ text_of (map pair_words pairs.now)) }
{
    for (key, value) in pairs {
        put_pair(out, *key, *value)?;
    }
    Ok(())
}

// A queue's name; nothing of one that isn't there.
fn put_queue_name(out: &mut Vec<u8>, naming: &Naming, queue: u32) -> Result<(), OutOfMemory>
    ensures { OnOk result (out.new.items ≡ out.old.items ++ 32 ∷ queue_word naming.now queue) }
{
    match naming.queues.get(queue as usize) {
        Some(queue) => put_word(out, queue.word.as_slice()),
        None => put_word(out, b""),
    }
}

// A member of a queue: a rank's number or a queue's name.
fn put_member(
    out: &mut Vec<u8>,
    naming: &Naming,
    queue: u32,
    member: u32,
) -> Result<(), OutOfMemory>
    ensures { OnOk result (out.new.items ≡ out.old.items ++ 32 ∷ member_word naming.now queue member) }
{
    match naming.queues.get(queue as usize) {
        Some(queue) => {
            if queue.of_ranks {
                put_value(out, u64::from(member))
            } else {
                put_queue_name(out, naming, member)
            }
        }
        None => put_word(out, b""),
    }
}

// What happened in a queue, and to which member.
fn put_in_queue(
    out: &mut Vec<u8>,
    naming: &Naming,
    name: &[u8],
    queue: u32,
    member: u32,
) -> Result<(), OutOfMemory>
    ensures { OnOk result (out.new.items ≡ out.old.items ++ spaced (in_queue_words naming.now name.now queue member)) }
{
    put_word(out, name)?;
    put_queue_name(out, naming, queue)?;
    put_member(out, naming, queue, member)
}

fn put_announce(out: &mut Vec<u8>, cohort: u32) -> Result<(), OutOfMemory>
    ensures { OnOk result (out.new.items ≡ out.old.items ++ spaced (codes "announce" ∷ cohort_word cohort ∷ [])) }
{
    put_word(out, b"announce")?;
    if cohort == 1 {
        put_word(out, b"local")
    } else {
        put_word(out, b"remote")
    }
}

/// Appends what happened, in words, each after a space; nothing of a touch. After want of memory a part of them may stand there.
pub fn put_event(out: &mut Vec<u8>, naming: &Naming, event: Event) -> Result<(), OutOfMemory>
    ensures { OnOk result (out.new.items ≡ out.old.items ++ spaced (event_words naming.now event)) }
{
    match event {
        Event::Join { queue, member } => put_in_queue(out, naming, b"join", queue, member),
        Event::Announce { cohort } => put_announce(out, cohort),
        Event::Pass { queue, member } => put_in_queue(out, naming, b"pass", queue, member),
        Event::Settle { queue, member } => put_in_queue(out, naming, b"settle", queue, member),
        Event::Touch { .. } => Ok(()),
        Event::EnterW { rank } => put_named(out, b"enter-w", u64::from(rank)),
        Event::EnterR { rank } => put_named(out, b"enter-r", u64::from(rank)),
        Event::LeaveW { rank } => put_named(out, b"leave-w", u64::from(rank)),
        Event::LeaveR { rank } => put_named(out, b"leave-r", u64::from(rank)),
    }
}

/// Whether a report tells of an event: it tells of all but touches.
pub fn is_printed(event: Event) -> bool
    ensures { result ≡ is_printed event }
{
    !matches!(event, Event::Touch { .. })
}

// `event STEP EVENT`.
fn put_event_line(
    out: &mut Vec<u8>,
    naming: &Naming,
    step: u32,
    event: Event,
) -> Result<(), OutOfMemory>
    ensures { OnOk result (out.new.items ≡ out.old.items ++ line_text (event_line naming.now (step, event))) }
{
    put_first(out, b"event", u64::from(step))?;
    put_event(out, naming, event)?;
    out.push(b'\n')?;
    Ok(())
}

// The lines of what happened, but for touches.
fn put_events(
    out: &mut Vec<u8>,
    naming: &Naming,
    events: &[(u32, Event)],
) -> Result<(), OutOfMemory>
    ensures { OnOk result (out.new.items ≡ out.old.items ++ text_of (event_lines naming.now events.now)) }
{
    for (step, event) in events {
        if is_printed(*event) {
            put_event_line(out, naming, *step, *event)?;
        }
    }
    Ok(())
}

// `shard I updates U entries N`.
fn put_shard_line(out: &mut Vec<u8>, number: u64, shard: &ShardReport) -> Result<(), OutOfMemory>
    ensures { OnOk result (out.new.items ≡ out.old.items ++ line_text (shard_words number shard.now)) }
{
    put_first(out, b"shard", number)?;
    put_named(out, b"updates", u64::from(shard.updates))?;
    put_named(out, b"entries", shard.entries.len() as u64)?;
    out.push(b'\n')?;
    Ok(())
}

fn put_shard(
    out: &mut Vec<u8>,
    naming: &Naming,
    number: u64,
    shard: &ShardReport,
) -> Result<(), OutOfMemory>
    ensures { OnOk result (out.new.items ≡ out.old.items ++ text_of (shard_lines naming.now number shard.now)) }
{
    put_shard_line(out, number, shard)?;
    put_entries(out, shard.entries.as_slice())?;
    put_queues(out, naming.queues.as_slice(), shard.queues.as_slice())?;
    put_pairs(out, shard.pairs.as_slice())?;
    put_events(out, naming, shard.events.as_slice())
}

fn put_shards(out: &mut Vec<u8>, naming: &Naming, shards: &[ShardReport]) -> Result<(), OutOfMemory>
    ensures { OnOk result (out.new.items ≡ out.old.items ++ text_of (shards_lines naming.now 0 shards.now)) }
{
    for (number, shard) in shards.iter().enumerate() {
        put_shard(out, naming, number as u64, shard)?;
    }
    Ok(())
}

// `rank K done D of C`.
fn put_rank(out: &mut Vec<u8>, rank: u64, done: Done) -> Result<(), OutOfMemory>
    ensures { OnOk result (out.new.items ≡ out.old.items ++ line_text (rank_done_words rank done)) }
{
    put_first(out, b"rank", rank)?;
    put_named(out, b"done", u64::from(done.done))?;
    put_named(out, b"of", u64::from(done.given))?;
    out.push(b'\n')?;
    Ok(())
}

fn put_ranks(out: &mut Vec<u8>, ranks: &[Done]) -> Result<(), OutOfMemory>
    ensures { OnOk result (out.new.items ≡ out.old.items ++ text_of (rank_done_lines 0 ranks.now)) }
{
    for (rank, done) in ranks.iter().enumerate() {
        put_rank(out, rank as u64, *done)?;
    }
    Ok(())
}

// `lost L busy Z finished F`.
fn put_last_steps(out: &mut Vec<u8>, steps: Steps) -> Result<(), OutOfMemory>
    ensures { OnOk result (out.new.items ≡ out.old.items ++ spaced (last_steps_words steps)) }
{
    put_named(out, b"lost", u64::from(steps.lost))?;
    put_named(out, b"busy", u64::from(steps.busy))?;
    put_named(out, b"finished", u64::from(steps.finished))
}

// `steps T moved M waiting W lost L busy Z finished F`.
fn put_steps(out: &mut Vec<u8>, steps: Steps) -> Result<(), OutOfMemory>
    ensures { OnOk result (out.new.items ≡ out.old.items ++ line_text (steps_words steps)) }
{
    put_first(out, b"steps", steps.made())?;
    put_named(out, b"moved", u64::from(steps.moved))?;
    put_named(out, b"waiting", u64::from(steps.waiting))?;
    put_last_steps(out, steps)?;
    out.push(b'\n')?;
    Ok(())
}

// The last lines. After want of memory a part of them may stand there.
fn put_last(out: &mut Vec<u8>, steps: Option<Steps>) -> Result<(), OutOfMemory>
    ensures { OnOk result (out.new.items ≡ out.old.items ++ text_of (steps_lines steps ++ (codes "end" ∷ []) ∷ [])) }
{
    if let Some(steps) = steps {
        put_steps(out, steps)?;
    }
    out.extend_from_slice(b"end\n")
}

/// The last lines: the steps of a replay, and `end`. After want of memory the text is as before.
pub fn put_end(out: &mut Vec<u8>, steps: Option<Steps>) -> Result<(), OutOfMemory>
    ensures puts { OnOk result (out.new.items ≡ out.old.items ++ text_of (steps_lines steps ++ (codes "end" ∷ []) ∷ [])) }
    ensures err { OnErr result (out.new.items ≡ out.old.items) }
{
    let mut last = Vec::new(*out.allocator());
    put_last(&mut last, steps)?;
    out.extend_from_slice(last.as_slice())
}

// `replay LOCK` or `run LOCK`.
fn put_mode(out: &mut Vec<u8>, naming: &Naming, steps: Option<Steps>) -> Result<(), OutOfMemory>
    ensures { OnOk result (out.new.items ≡ out.old.items ++ line_text (mode_word steps ∷ naming.now.lock ∷ [])) }
{
    match steps {
        Some(_) => out.extend_from_slice(b"replay")?,
        None => out.extend_from_slice(b"run")?,
    }
    put_word(out, naming.lock.as_bytes())?;
    out.push(b'\n')?;
    Ok(())
}

// `ranks R shards S`.
fn put_sizes(out: &mut Vec<u8>, naming: &Naming) -> Result<(), OutOfMemory>
    ensures { OnOk result (out.new.items ≡ out.old.items ++ line_text (sizes_words naming.now)) }
{
    put_first(out, b"ranks", u64::from(naming.ranks))?;
    put_named(out, b"shards", u64::from(naming.shards))?;
    out.push(b'\n')?;
    Ok(())
}

// The lines after the first.
fn put_body(out: &mut Vec<u8>, naming: &Naming, report: &Report) -> Result<(), OutOfMemory>
    ensures { OnOk result (out.new.items ≡ out.old.items ++ text_of (report_body_lines naming.now report.now)) }
{
    put_mode(out, naming, report.steps)?;
    put_sizes(out, naming)?;
    put_shards(out, naming, report.shards.as_slice())?;
    put_ranks(out, report.done.as_slice())?;
    put_end(out, report.steps)
}

fn printed(alloc: Global, place: &Place, report: &Report) -> Result<Vec<u8>, OutOfMemory>
    requires { IsProper place.now }
    ensures { IfOk result (λ text. text.items ≡ report_spelling (naming_of place.now) report.now) }
{
    let naming = Naming::of(alloc, place)?;
    let mut out = Vec::from_slice(alloc, b"rmalock-report 2\n")?;
    put_body(&mut out, &naming, report)?;
    Ok(out)
}

/// The text of a report of a placement, in the second version. Touches aren't printed.
///
/// [`read_report`](crate::read_report) reads it back as the same report, where that keeps the limits of `ReportFits`.
pub fn report_text(alloc: Global, place: &Place, report: &Report) -> Result<Vec<u8>, OutOfMemory>
    requires { IsProper place.now }
    ensures text { IfOk result (λ text. text.items ≡ report_spelling (naming_of place.now) report.now) }
    ensures again { ReportFits (naming_of place.now) report.now →
        IfOk result (λ text. report_at (naming_of place.now) text.items ≡ Ok report.now) }
{
    printed(alloc, place, report)
}
