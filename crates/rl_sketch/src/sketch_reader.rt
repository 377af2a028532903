//! Reading a sketch file.

ghost use Rattle.std.specs.Prelude.{◌≡◌, ◌<◌, ◌≤◌, ◌++◌, [], length, Ok, IfOk, OnOk};
ghost use Rattle.rl_text.specs.Reading.{Gives};
ghost use Rattle.rl_sketch.specs.Sketch.{stopped_after, SketchFits, SpellsSketch};
ghost use Rattle.rl_sketch.specs.SketchReading.{lines_at, sketch_at};

use crate::line_reader::line_of;
use crate::ranks_reader::going;
use crate::sketch::{Ranks, Sketch, SketchLine};
use crate::texts::SketchLines;
use rl_text::{Lines, TEXT_LIMIT, TextErr};
use std::alloc::{AllocError as OutOfMemory, Global};

/// Adds the ranks that a line stops to those that were stopped before it, where so many ranks are there. The error is want of memory.
pub fn add_stopped(
    alloc: Global,
    ranks: u8,
    stopped: &mut Vec<u8>,
    line: &SketchLine,
) -> Result<(), OutOfMemory>
    ensures { OnOk result (stopped.new.items ≡ stopped_after ranks stopped.old.items line.now) }
{
    match line {
        SketchLine::Note(_) | SketchLine::Goes { .. } => Ok(()),
        SketchLine::Stops(Ranks::All) => {
            let all = going(alloc, ranks, stopped.as_slice())?;
            stopped.extend_from_slice(all.as_slice())
        }
        SketchLine::Stops(Ranks::These(list)) => stopped.extend_from_slice(list.as_slice()),
    }
}

/// Lines up to the line `end`.
fn lines_of(alloc: Global, lines: &mut Lines<'_>, ranks: u8) -> Result<SketchLines, TextErr>
    ensures { Gives result (lines_at ranks [] lines.old.read lines.old.rows) }
{
    let mut taken = SketchLines::new(alloc);
    let mut stopped = Vec::new(alloc);
    'read: loop {
        let line = lines.next_whole()?;
        if line.begins(b"end") {
            lines.end(&line)?;
            return Ok(taken);
        }
        let read = line_of(alloc, &line, ranks, stopped.as_slice())?;
        add_stopped(alloc, ranks, &mut stopped, &read)?;
        taken.push(read)?;
    }
}

#[tactic(auto, unfolding(crate::specs::SketchReading::sketch_at))]
fn sketch_of(alloc: Global, ranks: u8, bytes: &[u8]) -> Result<Sketch, TextErr>
    requires { length bytes.now < TEXT_LIMIT }
    ensures { Gives result (sketch_at ranks bytes.now) }
{
    let mut lines = Lines::new(bytes);
    let first = lines.next_whole()?;
    first.header(b"rmalock-sketch")?;
    let lines = lines_of(alloc, &mut lines, ranks)?;
    Ok(Sketch { lines })
}

/// Reads a sketch of so many ranks, which are numbered from 0 on.
///
/// A sketch file has the first line `rmalock-sketch 1`, then its lines, and the line `end`. An empty line, or one that begins with `#`, is a note. Of the
/// others, `stop RANKS` stops ranks, and `RANKS COURSE` has them go on.
///
/// - RANKS is `all`, or the numbers of ranks. One that isn't there is Range at its word. One that was stopped is Order, or in a further stop Repeat, and so is
///   `all` where none is left. One that stands twice in a line is Repeat.
/// - COURSE is `COUNT`, `until SIGHT`, `before SIGHT`, `in turn COUNT`, `in turn until SIGHT` or `at random SEED COUNT`. A word in its place that is none of
///   these is no count, so it is Number. In a line of numbers alone the last is the count.
/// - COUNT is 0 to 2,000,000, else Range. SEED is any number below 2^64.
/// - SIGHT is `done`, `out`, or words to the line's end. The first of those begins an atom, an answer or an event of a step, else it is Word.
///
/// A word that is wanted and isn't there is Missing, and one too many is Extra.
///
/// The text has fewer than [`TEXT_LIMIT`] bytes. Refused with the first fault exactly where the text spells no sketch.
pub fn read_sketch(alloc: Global, ranks: u8, bytes: &[u8]) -> Result<Sketch, TextErr>
    requires { length bytes.now < TEXT_LIMIT }
    // What is read is spelled so, and keeps the limits.
    ensures found { IfOk result (λ sketch. SpellsSketch ranks sketch bytes.now) }
    // What is spelled so is read, unless memory runs out.
    ensures only { (sketch : Sketch) → SpellsSketch ranks sketch bytes.now → Gives result (Ok sketch) }
    // Which fault it is: the first one.
    ensures exact { Gives result (sketch_at ranks bytes.now) }
{
    sketch_of(alloc, ranks, bytes)
}
