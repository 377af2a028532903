//! Reading a sight.

ghost use Rattle.std.specs.Prelude.{◌≡◌, ◌-◌, ◌<◌, ◌≤◌, drop, length, Ok};
ghost use Rattle.std.specs.List.{join_with_byte};
ghost use Rattle.rl_text.specs.Cut.{pieces};
ghost use Rattle.rl_text.specs.Rows.{row_of};
ghost use Rattle.rl_text.specs.Reading.{Gives, needed_at};
ghost use Rattle.rl_sketch.specs.Sketch.{atom_words, answer_words, queue_words, inside_words, is_one_of, is_opening};
ghost use Rattle.rl_sketch.specs.SketchReading.{opening_at, step_words_at, sight_at};

use crate::sketch::Sight;
use crate::texts::LineText;
use rl_text::{Line, LineWords, Refusal, TEXT_LIMIT, TextErr, Why, cut};
use std::alloc::Global;

/// Whether a word begins an atom.
fn begins_atom(word: &[u8]) -> bool
    ensures { result ≡ is_one_of atom_words word.now }
{
    match word {
        b"load" | b"store" | b"local-cas" | b"take" | b"leave" => true,
        b"card-load" | b"card-store" => true,
        _ => false,
    }
}

/// Whether a word begins an answer.
fn begins_answer(word: &[u8]) -> bool
    ensures { result ≡ is_one_of answer_words word.now }
{
    matches!(
        word,
        b"moved" | b"waiting" | b"lost" | b"busy" | b"finished"
    )
}

/// Whether a word begins an event of a queue.
fn begins_queue_event(word: &[u8]) -> bool
    ensures { result ≡ is_one_of queue_words word.now }
{
    matches!(word, b"join" | b"announce" | b"pass" | b"settle")
}

/// Whether a word begins an event of who is inside.
fn begins_inside_event(word: &[u8]) -> bool
    ensures { result ≡ is_one_of inside_words word.now }
{
    matches!(word, b"enter-w" | b"enter-r" | b"leave-w" | b"leave-r")
}

/// Whether a word begins an atom, an answer or an event of a step.
fn is_opening(word: &[u8]) -> bool
    ensures { result ≡ is_opening word.now }
{
    begins_atom(word)
        || begins_answer(word)
        || begins_queue_event(word)
        || begins_inside_event(word)
}

/// What stands behind the first so many words of a text, which has more of them.
fn behind_words(text: &[u8], count: u32) -> &[u8]
    requires { count < length (pieces 32 text.now) }
    ensures { result.now ≡ join_with_byte 32 (drop count (pieces 32 text.now)) }
{
    let mut rest = text;
    for _ in 0..count {
        match cut(rest, b' ') {
            Some((_, after)) => rest = after,
            None => return rest,
        }
    }
    rest
}

/// Word n begins an atom, an answer or an event of a step.
#[tactic(auto, unfolding(crate::specs::SketchReading::opening_at))]
fn opening(line: &Line<'_>, n: u32, word: &[u8]) -> Result<(), Refusal>
    ensures { result ≡ opening_at (row_of line.now) n word.now }
{
    if is_opening(word) {
        Ok(())
    } else {
        Err(line.refusal(n, Why::Word))
    }
}

/// The words of a step, from word n on to the line's end.
#[tactic(auto, unfolding(crate::specs::SketchReading::step_words_at, rl_text::specs::Rows::words))]
fn step_words(alloc: Global, line: &Line<'_>, n: u32, word: &[u8]) -> Result<Sight, TextErr>
    requires from { 1 ≤ n }
    requires there { needed_at (row_of line.now) n ≡ Ok word.now }
    ensures { Gives result (step_words_at (row_of line.now) n word.now) }
{
    opening(line, n, word)?;
    let text = Vec::from_slice(alloc, behind_words(line.text, n - 1))?;
    Ok(Sight::Words(LineText::from_vec(text)))
}

/// A sight, from the next word to the line's end.
#[tactic(auto, unfolding(crate::specs::SketchReading::sight_at))]
pub fn sight_of(alloc: Global, line: &Line<'_>, words: &mut LineWords<'_>) -> Result<Sight, TextErr>
    requires row { words.old.row ≡ row_of line.now }
    requires there { (1 ≤ words.old.next) × (words.old.next < TEXT_LIMIT) }
    ensures { Gives result (sight_at (row_of line.now) words.old.next) }
{
    let n = words.next_number();
    match words.needed()? {
        b"done" => {
            words.no_more()?;
            Ok(Sight::Done)
        }
        b"out" => {
            words.no_more()?;
            Ok(Sight::Out)
        }
        word => step_words(alloc, line, n, word),
    }
}
