//! The line on standard error that says why a sketch is refused.
ghost use Rattle.std.specs.Prelude.{◌≡◌, ◌≤◌, ◌<◌, length};

use crate::reading::MOST_SKETCH;
use crate::unended::say_unended;
use rl_explain::{Explained, Found, Kept, KeptText, Wanted, found_at, line_in, place_in};
use rl_ops::MOST_STEPS;
use rl_sketch::read_sketch;
use rl_text::{Line, Refusal, TEXT_LIMIT, TextErr, Why};
use std::alloc::Global;
use std::io::Eprint;

/// What a word of a sketch is for, by the words before it.
#[derive(Clone, Copy, PartialEq, Eq, Debug)]
enum Part {
    /// The head of the sketch: its name, and its version.
    Head,
    /// The first word of a line.
    First,
    /// A rank that is stopped.
    Stopped,
    /// What the ranks do, or a further rank.
    Course,
    /// `turn`, behind `in`.
    Turn,
    /// How many laps, or up to what.
    Laps,
    /// `random`, behind `at`.
    Random,
    /// Where the generator begins.
    Seed,
    /// How many steps.
    Count,
    /// What a step has to show.
    Sight,
}

/// What a word that isn't the first is for, in a line whose ranks go on.
fn part_behind(line: Line<'_>, word: u32) -> Part
    requires { 2 ≤ word }
{
    match line.word(word - 1) {
        Some(b"until" | b"before") => Part::Sight,
        Some(b"in") => Part::Turn,
        Some(b"turn") => Part::Laps,
        Some(b"at") => Part::Random,
        Some(b"random") => Part::Seed,
        _ if word > 2 && line.word(word - 2) == Some(b"random") => Part::Count,
        _ => Part::Course,
    }
}

/// What a word of a line is for.
fn part_of(line: Line<'_>, word: u32) -> Part {
    if line.number == 1 {
        Part::Head
    } else if word <= 1 {
        Part::First
    } else if line.begins(b"stop") {
        Part::Stopped
    } else {
        part_behind(line, word)
    }
}

/// What is wanted in place of a word of another form.
fn form_wanted(part: Part, word: u32, ranks: u32) -> Wanted<'static> {
    match part {
        Part::Head if word <= 1 => Wanted::Form("rmalock-sketch 1"),
        Part::Head => Wanted::Word("1"),
        Part::First => Wanted::Text(
            "ranks or \"all\", as in \"RANKS COUNT\" or \"RANKS until SIGHT\", or \"stop RANKS\", \"end\", or \"#\" and a note",
        ),
        Part::Stopped => Wanted::RankOr(ranks, " or \"all\""),
        Part::Course => Wanted::Text(
            "a count of steps, \"until SIGHT\", \"before SIGHT\", \"in turn COUNT\", \"in turn until SIGHT\" or \"at random SEED COUNT\"",
        ),
        Part::Turn => Wanted::Word("turn"),
        Part::Laps => Wanted::Text("a count of laps, or \"until SIGHT\""),
        Part::Random => Wanted::Word("random"),
        Part::Seed => Wanted::Between(0, u64::MAX),
        Part::Count => Wanted::Between(0, u64::from(MOST_STEPS)),
        Part::Sight => Wanted::Text(
            "\"done\", \"out\", or what begins an atom, an answer or an event in the list of steps, as \"waiting\" or \"enter-w\"",
        ),
    }
}

/// What is wanted in place of a number that is out of its range.
fn range_wanted(line: Line<'_>, part: Part, word: u32, ranks: u32) -> Wanted<'static> {
    let is_last = line.word(word.saturating_add(1).max(1)).is_none();
    match part {
        Part::Laps | Part::Count => Wanted::Between(0, u64::from(MOST_STEPS)),
        Part::Course if is_last => Wanted::Between(0, u64::from(MOST_STEPS)),
        Part::First => Wanted::RankOr(ranks, " or \"all\""),
        _ => Wanted::RankOr(ranks, ""),
    }
}

/// What is wanted at a word of a line, by the cause for which it is refused.
fn word_wanted(line: Line<'_>, word: u32, why: Why, ranks: u32) -> Wanted<'static> {
    let part = part_of(line, word);
    match why {
        Why::Extra => Wanted::Text("the end of the line"),
        Why::Range => range_wanted(line, part, word, ranks),
        Why::Repeat if part == Part::Stopped => {
            Wanted::Text("a rank that goes on, and once: no line before stopped it")
        }
        Why::Repeat => Wanted::Text("each rank of the line once"),
        Why::Order => Wanted::Text("a rank that goes on: no line before stopped it"),
        _ => form_wanted(part, word, ranks),
    }
}

/// What is wanted at a place of a sketch, by the cause for which it is refused.
fn wanted_at(
    line: Option<Line<'_>>,
    number: u32,
    word: u32,
    why: Why,
    ranks: u32,
) -> Wanted<'static> {
    match (line, word) {
        (None, _) if number <= 1 => Wanted::Form("rmalock-sketch 1"),
        (None, _) => Wanted::Text("the line \"end\", with which a sketch ends"),
        (Some(_), 0) if why == Why::Extra => Wanted::Text("nothing behind the line \"end\""),
        (Some(_), 0) => Wanted::Text("a newline at the end of each line"),
        (Some(line), _) => word_wanted(line, word, why, ranks),
    }
}

/// The first fault of a sketch, in words.
fn explanation(text: &KeptText, refusal: Refusal, ranks: u32) -> Option<Explained<'_>> {
    let bytes = text.bytes.as_slice();
    let Refusal { line, word, why } = refusal;
    if line == 0 || bytes.len() >= TEXT_LIMIT as usize {
        return None;
    }
    Some(Explained {
        name: text.name.as_str(),
        line,
        word,
        found: found_at(bytes, line, word),
        wanted: wanted_at(line_in(bytes, line), line, word, why, ranks),
    })
}

/// A sketch that is longer than one may be.
fn too_long(text: &KeptText) -> Explained<'_> {
    Explained {
        name: text.name.as_str(),
        line: 0,
        word: 0,
        found: Found::TooMany,
        wanted: Wanted::Bytes(MOST_SKETCH),
    }
}

/// Why a kept text is no sketch of so many ranks; nothing where it is one, or memory is short.
fn explain_sketch(alloc: Global, ranks: u8, text: &KeptText) -> Option<Explained<'_>> {
    let bytes = text.bytes.as_slice();
    if bytes.len() > MOST_SKETCH as usize {
        return Some(too_long(text));
    }
    match read_sketch(alloc, ranks, bytes) {
        Err(TextErr::Refused(refusal)) => explanation(text, refusal, u32::from(ranks)),
        _ => None,
    }
}

/// Says on standard error, in one line, why the sketch that was read last is refused: its place, what was found there and what was wanted, or which
/// line never comes to its end. It says nothing where a file before it is refused, or memory is short.
pub fn say_sketch<R: Eprint>(rt: &R, alloc: Global, program: &str, kept: &Kept) {
    let [place, calls, text] = kept.texts() else {
        return;
    };
    let Some(place) = place_in(alloc, place) else {
        return;
    };
    match explain_sketch(alloc, place.paths.len() as u8, text) {
        // If standard error takes nothing, the first line is all that is left.
        Some(explained) => {
            let _ = eprintln!(rt; "{program}: {explained}");
        }
        None => say_unended(rt, alloc, program, &place, calls, text),
    }
}
