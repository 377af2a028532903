//! Printing a sketch file.

ghost use Rattle.std.specs.Prelude.{◌≡◌, ◌∷◌, ◌++◌, codes, decimal, map, flat_map, IfOk, OnOk};
ghost use Rattle.std.specs.List.{join_with_byte};
ghost use Rattle.rl_text.specs.Spelling.{line_text, text_of};
ghost use Rattle.rl_sketch.specs.Sketch.{ranks_words, sight_words, course_words, line_words, sketch_spelling};
ghost use Rattle.rl_sketch.specs.SketchReading.{IsReadAsSketch};

use crate::sketch::{Course, Ranks, Sight, Sketch, SketchLine};
use rl_text::put_number;
use std::alloc::{AllocError as OutOfMemory, Global};

/// Each of these ranks, with these bytes before it, and those behind it.
fn put_each(out: &mut Vec<u8>, list: &[u8], before: &[u8], behind: &[u8]) -> Result<(), OutOfMemory>
    ensures { OnOk result (out.new.items ≡ out.old.items ++ flat_map (λ rank. before.now ++ decimal rank ++ behind.now) list.now) }
{
    for rank in list {
        out.extend_from_slice(before)?;
        put_number(out, u64::from(*rank))?;
        out.extend_from_slice(behind)?;
    }
    Ok(())
}

/// RANKS, with a space behind each word.
fn put_ranks_before(out: &mut Vec<u8>, ranks: &Ranks) -> Result<(), OutOfMemory>
    ensures { OnOk result (out.new.items ≡ out.old.items ++ flat_map (λ word. word ++ codes " ") (ranks_words ranks.now)) }
{
    match ranks {
        Ranks::All => out.extend_from_slice(b"all ")?,
        Ranks::These(list) => put_each(out, list.as_slice(), b"", b" ")?,
    }
    Ok(())
}

/// RANKS, with a space before each word.
fn put_ranks_behind(out: &mut Vec<u8>, ranks: &Ranks) -> Result<(), OutOfMemory>
    ensures { OnOk result (out.new.items ≡ out.old.items ++ flat_map (λ word. codes " " ++ word) (ranks_words ranks.now)) }
{
    match ranks {
        Ranks::All => out.extend_from_slice(b" all")?,
        Ranks::These(list) => put_each(out, list.as_slice(), b" ", b"")?,
    }
    Ok(())
}

/// The bytes of a sight.
#[tactic(auto, using(crate::proofs::PrintLaws::text_joined))]
fn sight_bytes(sight: &Sight) -> &[u8]
    ensures { result.now ≡ join_with_byte 32 (sight_words sight.now) }
{
    match sight {
        Sight::Words(text) => text.as_slice(),
        Sight::Done => b"done",
        Sight::Out => b"out",
    }
}

/// A word, and a sight behind it.
fn put_sight(out: &mut Vec<u8>, word: &[u8], sight: &Sight) -> Result<(), OutOfMemory>
    ensures { OnOk result (out.new.items ≡ out.old.items ++ join_with_byte 32 (word.now ∷ sight_words sight.now)) }
{
    out.extend_from_slice(word)?;
    out.push(b' ')?;
    out.extend_from_slice(sight_bytes(sight))?;
    Ok(())
}

/// What the ranks of a line do.
fn put_course(out: &mut Vec<u8>, course: &Course) -> Result<(), OutOfMemory>
    ensures { OnOk result (out.new.items ≡ out.old.items ++ join_with_byte 32 (course_words course.now)) }
{
    match course {
        Course::Steps { count } => put_number(out, u64::from(*count)),
        Course::Until { sight } => put_sight(out, b"until", sight),
        Course::Before { sight } => put_sight(out, b"before", sight),
        Course::InTurn { count } => {
            out.extend_from_slice(b"in turn ")?;
            put_number(out, u64::from(*count))
        }
        Course::InTurnUntil { sight } => {
            out.extend_from_slice(b"in turn ")?;
            put_sight(out, b"until", sight)
        }
        Course::AtRandom { seed, count } => {
            out.extend_from_slice(b"at random ")?;
            put_number(out, *seed)?;
            out.push(b' ')?;
            put_number(out, u64::from(*count))
        }
    }
}

/// `RANKS COURSE`.
fn put_goes(out: &mut Vec<u8>, ranks: &Ranks, course: &Course) -> Result<(), OutOfMemory>
    ensures { OnOk result (out.new.items ≡ out.old.items ++ join_with_byte 32 (ranks_words ranks.now ++ course_words course.now)) }
{
    put_ranks_before(out, ranks)?;
    put_course(out, course)?;
    Ok(())
}

/// `stop RANKS`.
fn put_stops(out: &mut Vec<u8>, ranks: &Ranks) -> Result<(), OutOfMemory>
    ensures { OnOk result (out.new.items ≡ out.old.items ++ join_with_byte 32 (codes "stop" ∷ ranks_words ranks.now)) }
{
    out.extend_from_slice(b"stop")?;
    put_ranks_behind(out, ranks)?;
    Ok(())
}

/// The words of a line between single spaces.
#[tactic(auto, using(crate::proofs::PrintLaws::text_joined))]
fn put_words(out: &mut Vec<u8>, line: &SketchLine) -> Result<(), OutOfMemory>
    ensures { OnOk result (out.new.items ≡ out.old.items ++ join_with_byte 32 (line_words line.now)) }
{
    match line {
        SketchLine::Note(text) => out.extend_from_slice(text.as_slice())?,
        SketchLine::Goes { ranks, course } => put_goes(out, ranks, course)?,
        SketchLine::Stops(ranks) => put_stops(out, ranks)?,
    }
    Ok(())
}

fn put_lines(out: &mut Vec<u8>, lines: &[SketchLine]) -> Result<(), OutOfMemory>
    ensures { OnOk result (out.new.items ≡ out.old.items ++ text_of (map line_words lines.now)) }
{
    for line in lines {
        put_words(out, line)?;
        out.push(b'\n')?;
    }
    Ok(())
}

fn printed(alloc: Global, sketch: &Sketch) -> Result<Vec<u8>, OutOfMemory>
    ensures { IfOk result (λ text. text.items ≡ sketch_spelling sketch.now) }
{
    let mut out = Vec::from_slice(alloc, b"rmalock-sketch 1\n")?;
    put_lines(&mut out, sketch.lines.as_slice())?;
    out.extend_from_slice(b"end\n")?;
    Ok(out)
}

/// Prints the one spelling of a sketch.
///
/// It is read back as the sketch, for all numbers of ranks that the sketch fits. The error is want of memory.
pub fn sketch_text(alloc: Global, sketch: &Sketch) -> Result<Vec<u8>, OutOfMemory>
    ensures text { IfOk result (λ text. text.items ≡ sketch_spelling sketch.now) }
    ensures again { IfOk result (λ text. IsReadAsSketch text.items sketch.now) }
{
    printed(alloc, sketch)
}
