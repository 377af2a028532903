//! The line on standard error that says which line of a sketch never comes to its end, and what its rank waits for.
//!
//! The sketch is drawn once more, with a line for each rank of the lines that go up to what is shown: so the drawing tells which rank it was. Then the
//! lines before that one are drawn, and some steps of the rank behind them; the last of those are told as in the list of steps.
ghost use Rattle.std.specs.Prelude.{◌≡◌, ◌≤◌, ◌<◌, length, IfSome, IfOk};
ghost use Rattle.rl_inputs.specs.Fitting.{IsProper, name_of, does_batches, OpsFit, SuitsLock, ScheduleFits};
ghost use Rattle.rl_sketch.specs.Sketch.{SketchFits};

use rl_drawing::{Drawn, drawn};
use rl_explain::KeptText;
use rl_ops::{Ops, Schedule, read_ops};
use rl_place::Place;
use rl_shown::{listing_text, total_steps};
use rl_sketch::{Course, Ranks, Sketch, SketchLine, read_sketch};
use rl_text::{Line, Lines, TEXT_LIMIT, cut, put_number};
use rl_viewer::Window;
use std::alloc::{AllocError as OutOfMemory, Global};
use std::fmt;
use std::io::Eprint;

/// So many steps of a rank are made to see what it waits for.
const STEPS_ALONE: &[u8] = b" 2000\nend\n";

/// So many of them are told, the last ones.
const STEPS_TOLD: u32 = 2;

/// Where a line of the sketch that is drawn comes from.
#[derive(Clone, Copy)]
struct Origin {
    /// The number of the line in the file.
    line: u32,
    /// The one rank that it is about, where it goes up to what is shown.
    rank: Option<u8>,
    /// How many bytes stand before it.
    before: usize,
}

/// A sketch whose lines that go up to what is shown are of one rank each, and where each of its lines comes from.
#[derive(Drop)]
struct Apart {
    text: Vec<u8>,
    origins: Vec<Origin>,
}

impl Apart {
    /// Notes where the line comes from that is added next.
    fn begin(&mut self, line: u32, rank: Option<u8>) -> Result<(), OutOfMemory> {
        let before = self.text.len();
        self.origins.push(Origin { line, rank, before })?;
        Ok(())
    }

    /// Adds the bytes of a line, and its newline.
    fn finish(&mut self, text: &[u8]) -> Result<(), OutOfMemory> {
        self.text.extend_from_slice(text)?;
        self.text.push(b'\n')?;
        Ok(())
    }

    /// Adds a line, or one for each of its ranks.
    fn add(&mut self, line: Line<'_>, read: &SketchLine) -> Result<(), OutOfMemory> {
        let Some(ranks) = ranks_apart(read) else {
            self.begin(line.number, None)?;
            return self.finish(line.text);
        };
        let course = behind(line.text, ranks.len());
        for rank in ranks {
            self.begin(line.number, Some(*rank))?;
            put_number(&mut self.text, u64::from(*rank))?;
            self.text.push(b' ')?;
            self.finish(course)?;
        }
        Ok(())
    }
}

/// The ranks of a line that go up to what is shown, one after the other.
fn ranks_apart(line: &SketchLine) -> Option<&[u8]> {
    match line {
        SketchLine::Goes {
            ranks: Ranks::These(list),
            course: Course::Until { .. } | Course::Before { .. },
        } => Some(list.as_slice()),
        _ => None,
    }
}

/// What stands behind the first so many words of a text.
fn behind(text: &[u8], words: usize) -> &[u8] {
    let mut rest = text;
    for _ in 0..words {
        match cut(rest, b' ') {
            Some((_, after)) => rest = after,
            None => return rest,
        }
    }
    rest
}

/// The sketch of this text, with its ranks apart.
fn take_apart(alloc: Global, bytes: &[u8], sketch: &Sketch) -> Result<Apart, OutOfMemory>
    requires { length bytes.now < TEXT_LIMIT }
{
    let mut made = Apart {
        text: Vec::from_slice(alloc, b"rmalock-sketch 1\n")?,
        origins: Vec::new(alloc),
    };
    let mut lines = Lines::new(bytes);
    let _ = lines.next_line();
    for read in sketch.lines.as_slice() {
        let Some(line) = lines.next_line() else {
            break;
        };
        made.add(line, read)?;
    }
    made.text.extend_from_slice(b"end\n")?;
    Ok(made)
}

/// The sketch that a text spells, if it does.
fn sketch_in(alloc: Global, place: &Place, bytes: &[u8]) -> Option<Sketch>
    requires { IsProper place.now }
    ensures { IfSome result (SketchFits (length place.now.paths)) }
{
    if bytes.len() >= TEXT_LIMIT as usize {
        return None;
    }
    read_sketch(alloc, place.paths.len() as u8, bytes).ok()
}

/// Whether a placement's lock does batches.
fn does_batches(place: &Place) -> bool
    ensures { result ≡ does_batches (name_of place.now.lock) }
{
    place.lock.name().facts().batches
}

/// The calls that a kept text spells, if the placement's lock can do them.
fn calls_in(alloc: Global, place: &Place, text: &KeptText) -> Option<Ops>
    requires { IsProper place.now }
    ensures fits { IfSome result (λ ops. OpsFit (length place.now.paths) place.now.geom.shards ops) }
    ensures suits { IfSome result (λ ops. SuitsLock place.now ops) }
{
    let bytes = text.bytes.as_slice();
    if bytes.len() >= TEXT_LIMIT as usize {
        return None;
    }
    let ranks = place.paths.len() as u32;
    let ops = read_ops(alloc, ranks, place.geom.shards, bytes).ok()?;
    if !does_batches(place) && ops.has_batch() {
        return None;
    }
    Some(ops)
}

/// Where the first line comes from that never comes to its end, if there is one.
fn unended(alloc: Global, place: &Place, ops: &Ops, apart: &Apart) -> Option<Origin>
    requires proper { IsProper place.now }
    requires calls { OpsFit (length place.now.paths) place.now.geom.shards ops.now }
    requires suits { SuitsLock place.now ops.now }
{
    let sketch = sketch_in(alloc, place, apart.text.as_slice())?;
    match drawn(alloc, place, ops, &sketch).ok()? {
        Drawn::Whole(_) => None,
        Drawn::Never { line } => {
            let at = usize::try_from(line.checked_sub(2)?).ok()?;
            apart.origins.as_slice().get(at).copied()
        }
    }
}

/// The schedule of the lines before one of a rank, and of steps of that rank alone behind them.
fn schedule_alone(
    alloc: Global,
    place: &Place,
    ops: &Ops,
    front: &[u8],
    rank: u8,
) -> Option<Schedule>
    requires proper { IsProper place.now }
    requires calls { OpsFit (length place.now.paths) place.now.geom.shards ops.now }
    requires suits { SuitsLock place.now ops.now }
    ensures { IfSome result (ScheduleFits (length place.now.paths)) }
{
    let mut text = Vec::from_slice(alloc, front).ok()?;
    put_number(&mut text, u64::from(rank)).ok()?;
    text.extend_from_slice(STEPS_ALONE).ok()?;
    let sketch = sketch_in(alloc, place, text.as_slice())?;
    match drawn(alloc, place, ops, &sketch).ok()? {
        Drawn::Whole(schedule) => Some(schedule),
        Drawn::Never { .. } => None,
    }
}

/// The list of the last steps of a rank, where it makes some behind the lines before its own.
fn last_steps(
    alloc: Global,
    place: &Place,
    ops: Ops,
    apart: &Apart,
    origin: Origin,
) -> Option<Vec<u8>>
    requires proper { IsProper place.now }
    requires calls { OpsFit (length place.now.paths) place.now.geom.shards ops }
    requires suits { SuitsLock place.now ops }
{
    let front = apart.text.as_slice().get(..origin.before)?;
    let schedule = schedule_alone(alloc, place, &ops, front, origin.rank?)?;
    let to = total_steps(schedule.turns.as_slice());
    let from = to.saturating_sub(STEPS_TOLD);
    listing_text(alloc, place, ops, &schedule, Window { from, to }).ok()
}

/// The steps of a list on one line, without their numbers; those that are told alike once.
#[derive(Clone, Copy)]
struct Steps<'a>(&'a [u8]);

/// Writes what a line of a list tells.
fn write_told<W: fmt::Write>(f: &mut fmt::Formatter<W>, told: &[u8]) -> fmt::Result {
    f.write_str("; ")?;
    for byte in told {
        f.write_char(char::from(*byte))?;
    }
    Ok(())
}

impl fmt::Display for Steps<'_> {
    fn fmt<W: fmt::Write>(&self, f: &mut fmt::Formatter<W>) -> fmt::Result {
        if self.0.len() >= TEXT_LIMIT as usize {
            return Ok(());
        }
        let mut lines = Lines::new(self.0);
        let mut last: &[u8] = &[];
        for _ in 0..STEPS_TOLD + 2 {
            let Some(line) = lines.next_line() else {
                return Ok(());
            };
            let told = behind(line.text, 1);
            if line.word(2) == Some(b"rank") && told != last {
                write_told(f, told)?;
                last = told;
            }
        }
        Ok(())
    }
}

/// Says which line never comes to its end, where one of this sketch does, and the last steps of the rank that it is about.
fn say_line<R: Eprint>(
    rt: &R,
    alloc: Global,
    program: &str,
    place: &Place,
    ops: Ops,
    text: &KeptText,
    apart: &Apart,
)
    requires proper { IsProper place.now }
    requires calls { OpsFit (length place.now.paths) place.now.geom.shards ops }
    requires suits { SuitsLock place.now ops }
{
    let Some(origin) = unended(alloc, place, &ops, apart) else {
        return;
    };
    let name = text.name.as_str();
    let line = origin.line;
    // If standard error takes nothing, the first line is all that is left.
    let _ = match last_steps(alloc, place, ops, apart, origin) {
        Some(list) => {
            let steps = Steps(list.as_slice());
            eprintln!(rt;
                "{program}: {name:?}, line {line}: its ranks don't come to its end with at most 2000000 steps in all{steps}"
            )
        }
        None => {
            eprintln!(rt;
                "{program}: {name:?}, line {line}: its ranks don't come to its end with at most 2000000 steps in all"
            )
        }
    };
}

/// Says on standard error, in one line, which line of a sketch never comes to its end, and what the rank does that it is about. It says nothing where there
/// is no such line, or memory is short.
pub fn say_unended<R: Eprint>(
    rt: &R,
    alloc: Global,
    program: &str,
    place: &Place,
    calls: &KeptText,
    text: &KeptText,
)
    requires { IsProper place.now }
{
    let bytes = text.bytes.as_slice();
    if bytes.len() >= TEXT_LIMIT as usize {
        return;
    }
    let (Some(ops), Some(sketch)) = (
        calls_in(alloc, place, calls),
        sketch_in(alloc, place, bytes),
    ) else {
        return;
    };
    if let Ok(apart) = take_apart(alloc, bytes, &sketch) {
        say_line(rt, alloc, program, place, ops, text, &apart);
    }
}
