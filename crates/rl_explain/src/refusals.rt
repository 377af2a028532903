//! Why a text is refused: its first fault, with what was found there and what was wanted.
ghost use Rattle.std.specs.Prelude.{◌≡◌, ◌≤◌, ◌<◌, length, IfSome, None};
ghost use Rattle.rl_place.specs.Places.{IsProper};
ghost use Rattle.rl_explain.specs.Finding.{word_in};
ghost use Rattle.rl_explain.specs.Found.{found_word};

use crate::finding::line_in;
use crate::found::Found;
use crate::keeping::KeptText;
use crate::kinds::{Known, LineKind, Standing};
use crate::table::wanted_at;
use crate::walking::standing_at;
use crate::wanted::Wanted;
use rl_ops::{read_ops, read_schedule};
use rl_place::{Place, read_place};
use rl_report::{Naming, read_report};
use rl_text::{Line, Lines, Refusal, TEXT_LIMIT, TextErr};
use std::alloc::Global;
use std::fmt;

/// The place of a fault, what was found there and what was wanted. Word 0 is the whole line, and line 0 the whole file.
#[derive(Clone, Copy)]
pub struct Explained<'a> {
    pub name: &'a str,
    pub line: u32,
    pub word: u32,
    pub found: Found<'a>,
    pub wanted: Wanted<'a>,
}

/// A placement or a calls file has at most this many bytes.
const MOST_WORDS: u32 = 4_194_304;

/// A schedule or a report has at most this many bytes.
const MOST_TURNS: u32 = 16_777_216;

/// What stands at a place of a text, both counted from 1: the word, where there is one. Word 0 is the whole line.
pub fn found_at(text: &[u8], line: u32, word: u32) -> Found<'_>
    requires line { 1 ≤ line }
    requires few { length text.now < TEXT_LIMIT }
    ensures word { 1 ≤ word → found_word result ≡ word_in text.now line word }
    ensures whole { word ≡ 0 → found_word result ≡ None }
{
    let Some(line) = line_in(text, line) else {
        return Found::FileEnd;
    };
    if word == 0 {
        return Found::WholeLine(line);
    }
    match line.word(word) {
        Some(word) => Found::Word(word, line),
        None => Found::LineEnd,
    }
}

/// A refusal of a text whose first line is of this kind, in words.
fn explanation<'a>(
    start: Standing<'a>,
    text: &'a KeptText,
    refusal: Refusal,
) -> Option<Explained<'a>> {
    let bytes = text.bytes.as_slice();
    let Refusal { line, word, why } = refusal;
    if line == 0 || bytes.len() >= TEXT_LIMIT as usize {
        return None;
    }
    let here = standing_at(start, bytes, line);
    let found = found_at(bytes, line, word);
    let wanted = wanted_at(here.kind, line_in(bytes, line), word, why, &here.known);
    Some(Explained {
        name: text.name.as_str(),
        line,
        word,
        found,
        wanted,
    })
}

/// A text that is longer than a file of its kind may be.
fn too_long(text: &KeptText, most: u32) -> Option<Explained<'_>>
    ensures { result ≡ None → length text.now.bytes.items ≤ most }
{
    if text.bytes.len() <= most as usize {
        return None;
    }
    Some(Explained {
        name: text.name.as_str(),
        line: 0,
        word: 0,
        found: Found::TooMany,
        wanted: Wanted::Bytes(most),
    })
}

/// Why a text whose first line is of this kind was refused; nothing where it was read, or memory was short.
fn of_reading<'a, T: Drop>(
    start: Standing<'a>,
    text: &'a KeptText,
    read: Result<T, TextErr>,
) -> Option<Explained<'a>> {
    match read {
        Err(TextErr::Refused(refusal)) => explanation(start, text, refusal),
        _ => None,
    }
}

/// The placement that a kept text spells, if it does.
pub fn place_in(alloc: Global, text: &KeptText) -> Option<Place>
    ensures { IfSome result (λ place. IsProper place) }
{
    let bytes = text.bytes.as_slice();
    if bytes.len() >= TEXT_LIMIT as usize {
        return None;
    }
    read_place(alloc, bytes).ok()
}

/// Why a kept text is no placement; nothing where it is one, or memory is short.
pub fn explain_place(alloc: Global, text: &KeptText) -> Option<Explained<'_>> {
    if let Some(long) = too_long(text, MOST_WORDS) {
        return Some(long);
    }
    let start = Standing {
        kind: LineKind::PlaceHead,
        known: Known::nothing(),
    };
    of_reading(start, text, read_place(alloc, text.bytes.as_slice()))
}

/// The first line of a calls file that begins a batch.
fn first_batch(bytes: &[u8]) -> Option<Line<'_>>
    requires { length bytes.now < TEXT_LIMIT }
{
    let mut lines = Lines::new(bytes);
    for _ in 0..bytes.len() {
        let line = lines.next_line()?;
        if line.word(2) == Some(b"batch") {
            return Some(line);
        }
    }
    None
}

/// The batch of a calls file whose placement's lock does none.
fn batch_found(text: &KeptText) -> Option<Explained<'_>>
    requires { length text.now.bytes.items < TEXT_LIMIT }
{
    let line = first_batch(text.bytes.as_slice())?;
    Some(Explained {
        name: text.name.as_str(),
        line: line.number,
        word: 2,
        found: Found::Word(b"batch", line),
        wanted: Wanted::Text("calls alone, since the lock combine does no batches"),
    })
}

/// Why a kept text isn't the calls of a placement's ranks; nothing where memory is short.
pub fn explain_calls<'a>(
    alloc: Global,
    place: &Place,
    text: &'a KeptText,
) -> Option<Explained<'a>> {
    if let Some(long) = too_long(text, MOST_WORDS) {
        return Some(long);
    }
    let known = Known::of(place);
    let start = Standing {
        kind: LineKind::CallsHead,
        known,
    };
    match read_ops(alloc, known.ranks, known.shards, text.bytes.as_slice()) {
        Err(TextErr::Refused(refusal)) => explanation(start, text, refusal),
        Err(TextErr::Memory) => None,
        Ok(_) => batch_found(text),
    }
}

/// Why a kept text is no schedule of a placement's ranks; nothing where it is one, or memory is short.
pub fn explain_schedule<'a>(
    alloc: Global,
    place: &Place,
    text: &'a KeptText,
) -> Option<Explained<'a>>
    requires { IsProper place.now }
{
    if let Some(long) = too_long(text, MOST_TURNS) {
        return Some(long);
    }
    let start = Standing {
        kind: LineKind::ScheduleHead,
        known: Known::of(place),
    };
    let read = read_schedule(alloc, place.paths.len() as u8, text.bytes.as_slice());
    of_reading(start, text, read)
}

/// Why a kept text is no report of a placement, whose names are these; nothing where it is one, or memory is short.
pub fn explain_report<'a>(
    alloc: Global,
    place: &Place,
    naming: &'a Naming,
    text: &'a KeptText,
) -> Option<Explained<'a>>
    requires { IsProper place.now }
{
    if let Some(long) = too_long(text, MOST_TURNS) {
        return Some(long);
    }
    let known = Known {
        naming: Some(naming),
        ..Known::of(place)
    };
    let start = Standing {
        kind: LineKind::ReportHead,
        known,
    };
    of_reading(
        start,
        text,
        read_report(alloc, place, text.bytes.as_slice()),
    )
}

/// Writes a place of a file: its line and its word, or nothing for the whole.
fn write_place<W: fmt::Write>(f: &mut fmt::Formatter<W>, line: u32, word: u32) -> fmt::Result {
    match (line, word) {
        (0, _) => Ok(()),
        (_, 0) => write!(f, ", line {line}"),
        _ => write!(f, ", line {line}, word {word}"),
    }
}

impl fmt::Display for Explained<'_> {
    fn fmt<W: fmt::Write>(&self, f: &mut fmt::Formatter<W>) -> fmt::Result {
        let name = self.name;
        let found = self.found;
        let wanted = self.wanted;
        write!(f, "{name:?}")?;
        write_place(f, self.line, self.word)?;
        write!(f, ": found {found}, wanted {wanted}")
    }
}
