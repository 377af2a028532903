//! Reading a schedule file.
ghost use Rattle.std.specs.Prelude.{◌≡◌, ◌≤◌, ◌<◌, ◌+◌, [], true, length, Ok, IfOk, IfSome, OnOk};
ghost use Rattle.std.specs.Option.{MatchOption};
ghost use Rattle.rl_text.specs.Rows.{row_of};
ghost use Rattle.rl_text.specs.Reading.{Gives};
ghost use Rattle.rl_ops.specs.Schedule.{steps_of, SpellsSchedule};
ghost use Rattle.rl_ops.specs.ScheduleReading.{is_stopped, steps_at, stop_at, turn_after, no_turn, after_turn, turns_at, schedule_at};
ghost use Rattle.rl_ops.specs.NextTurn.{IsNextTurn};

use crate::schedule::{MOST_STEPS, Schedule, Turn, Turns};
use rl_text::{Line, Lines, Refusal, TEXT_LIMIT, TextErr, Why};
use std::alloc::{AllocError as OutOfMemory, Global};
use std::marker::Model;

// The steps of the turns that were read, and the ranks that they stopped.
#[derive(Drop)]
struct SoFar {
    steps: u32,
    stopped: Vec<u8>,
}

impl Model for SoFar {
    ghost use Rattle.std.specs.Prelude.{◌≤◌};
    ghost use Rattle.rl_ops.specs.declared.schedule.TheConstants.{MOST_STEPS};
    ghost use Rattle.rl_ops.specs.ScheduleReading.{Turned};

    ghost Value = { Turned };

    ghost view = { λ s. record { steps = s.steps; stopped = s.stopped.items } };

    ghost invariant = { λ s. s.steps ≤ MOST_STEPS };
}

impl SoFar {
    fn new(alloc: Global) -> SoFar
        ensures { result ≡ no_turn }
    {
        SoFar {
            steps: 0,
            stopped: Vec::new(alloc),
        }
    }

    fn is_stopped(&self, rank: u8) -> bool
        ensures stopped { result ≡ is_stopped self.now.stopped rank }
        ensures within { self.now.steps ≤ MOST_STEPS }
    {
        self.stopped.iter().any(|other| *other == rank)
    }

    // Whether no rank is stopped.
    fn all_go_on(&self) -> bool
        ensures { result ≡ true → self.now.stopped ≡ [] }
    {
        self.stopped.is_empty()
    }

    // How many steps there may still be.
    fn steps_left(&self) -> u32
        ensures { self.now.steps + result ≡ MOST_STEPS }
    {
        MOST_STEPS - self.steps
    }

    #[inline(always)]
    fn add(&mut self, turn: Turn) -> Result<(), OutOfMemory>
        requires { self.old.steps + steps_of turn ≤ MOST_STEPS }
        ensures { OnOk result (self.new ≡ after_turn self.old turn) }
    {
        match turn {
            Turn::Steps { count, .. } => self.steps += count,
            Turn::Stop { rank } => self.stopped.push(rank)?,
        }
        Ok(())
    }
}

// RANK COUNT, of a rank that isn't stopped
#[tactic(auto, unfolding(crate::specs::ScheduleReading::steps_at))]
fn steps_of(line: &Line<'_>, ranks: u8, so_far: &SoFar) -> Result<Turn, Refusal>
    ensures value { result ≡ steps_at ranks so_far.now (row_of line.now) }
    ensures few { IfOk result (λ turn. so_far.now.steps + steps_of turn ≤ MOST_STEPS) }
{
    let mut words = line.words();
    let rank = words.below(u64::from(ranks))? as u8;
    if so_far.is_stopped(rank) {
        return Err(words.refusal(Why::Order));
    }
    let count = words.below(u64::from(so_far.steps_left() + 1))? as u32;
    words.no_more()?;
    Ok(Turn::Steps { rank, count })
}

// stop RANK, of a rank that isn't stopped
#[tactic(auto, unfolding(crate::specs::ScheduleReading::stop_at))]
fn stop_of(line: &Line<'_>, ranks: u8, so_far: &SoFar) -> Result<Turn, Refusal>
    ensures value { result ≡ stop_at ranks so_far.now (row_of line.now) }
    ensures few { IfOk result (λ turn. so_far.now.steps + steps_of turn ≤ MOST_STEPS) }
{
    let mut words = line.words_from(2);
    let rank = words.below(u64::from(ranks))? as u8;
    if so_far.is_stopped(rank) {
        return Err(words.refusal(Why::Repeat));
    }
    words.no_more()?;
    Ok(Turn::Stop { rank })
}

// A turn after those that were read.
#[tactic(auto, unfolding(crate::specs::ScheduleReading::turn_after))]
fn turn_of(line: &Line<'_>, ranks: u8, so_far: &SoFar) -> Result<Turn, Refusal>
    ensures value { result ≡ turn_after ranks so_far.now (row_of line.now) }
    ensures few { IfOk result (λ turn. so_far.now.steps + steps_of turn ≤ MOST_STEPS) }
{
    if line.begins(b"stop") {
        stop_of(line, ranks, so_far)
    } else {
        steps_of(line, ranks, so_far)
    }
}

// Takes the next line where it is a turn of two short numbers and no rank is stopped: most lines are. `None` takes nothing.
#[inline(always)]
fn short_turn(lines: &mut Lines<'_>, ranks: u8, so_far: &SoFar) -> Option<Turn>
    ensures { MatchOption result (lines.new ≡ lines.old) (IsNextTurn ranks so_far.now lines.old lines.new) }
{
    if !so_far.all_go_on() {
        return None;
    }
    let (rank, count) = lines.short_pair(u32::from(ranks), so_far.steps_left() + 1)?;
    Some(Turn::Steps {
        rank: rank as u8,
        count,
    })
}

// Turns up to the line `end`.
fn turns_of(alloc: Global, lines: &mut Lines<'_>, ranks: u8) -> Result<Turns, TextErr>
    ensures { Gives result (turns_at ranks no_turn lines.old.read lines.old.rows) }
{
    let mut turns = Turns::new(alloc);
    let mut so_far = SoFar::new(alloc);
    loop {
        if let Some(turn) = short_turn(lines, ranks, &so_far) {
            turns.push(turn)?;
            so_far.add(turn)?;
            continue;
        }
        let line = lines.next_whole()?;
        if line.begins(b"end") {
            lines.end(&line)?;
            return Ok(turns);
        }
        let turn = turn_of(&line, ranks, &so_far)?;
        turns.push(turn)?;
        so_far.add(turn)?;
    }
}

#[tactic(auto, unfolding(crate::specs::ScheduleReading::schedule_at))]
fn schedule_of(alloc: Global, ranks: u8, bytes: &[u8]) -> Result<Schedule, TextErr>
    requires { length bytes.now < TEXT_LIMIT }
    ensures { Gives result (schedule_at ranks bytes.now) }
{
    let mut lines = Lines::new(bytes);
    let first = lines.next_whole()?;
    first.header(b"rmalock-schedule")?;
    let turns = turns_of(alloc, &mut lines, ranks)?;
    Ok(Schedule { turns })
}

/// Reads a schedule of so many ranks.
///
/// A schedule file has the first line `rmalock-schedule 1`, a line for each turn, and the line `end`. A turn is
/// `RANK COUNT`, so many steps of a rank, or `stop RANK`, after which no line names that rank: a further turn of it is
/// Order at word 1, and a second stop Repeat at word 2. All counts together are at most 2,000,000: the line with which
/// they pass it is Range at word 2.
///
/// The text has fewer than [`TEXT_LIMIT`] bytes. Refused with the first fault exactly where the text spells no schedule.
pub fn read_schedule(alloc: Global, ranks: u8, bytes: &[u8]) -> Result<Schedule, TextErr>
    requires { length bytes.now < TEXT_LIMIT }
    // What is read is spelled so, and keeps the limits.
    ensures found { IfOk result (λ schedule. SpellsSchedule ranks schedule bytes.now) }
    // What is spelled so is read, unless memory runs out.
    ensures only { (schedule : Schedule) → SpellsSchedule ranks schedule bytes.now → Gives result (Ok schedule) }
    // Which fault it is: the first one.
    ensures exact { Gives result (schedule_at ranks bytes.now) }
{
    schedule_of(alloc, ranks, bytes)
}
