//! Reading what the ranks of a line do.

ghost use Rattle.std.specs.Prelude.{◌≡◌, ◌≤◌, ◌<◌};
ghost use Rattle.rl_text.specs.Rows.{row_of};
ghost use Rattle.rl_text.specs.Reading.{Gives};
ghost use Rattle.rl_sketch.specs.SketchReading.{count_at, until_at, before_at, in_turn_at, at_random_at, course_at};

use crate::sight_reader::sight_of;
use crate::sketch::Course;
use rl_ops::MOST_STEPS;
use rl_text::{Line, LineWords, Refusal, TextErr, Why};
use std::alloc::Global;

/// The next word, a count of steps, and no further word.
#[tactic(auto, unfolding(crate::specs::SketchReading::count_at))]
fn count_of(words: &mut LineWords<'_>) -> Result<u32, Refusal>
    requires { words.old.next ≤ 300 }
    ensures { result ≡ count_at words.old.row words.old.next }
{
    let count = words.below(u64::from(MOST_STEPS) + 1)? as u32;
    words.no_more()?;
    Ok(count)
}

/// `turn COUNT` or `turn until SIGHT`.
#[tactic(auto, unfolding(crate::specs::SketchReading::in_turn_at))]
fn in_turn(alloc: Global, line: &Line<'_>, words: &mut LineWords<'_>) -> Result<Course, TextErr>
    requires row { words.old.row ≡ row_of line.now }
    requires there { (1 ≤ words.old.next) × (words.old.next ≤ 260) }
    ensures { Gives result (in_turn_at (row_of line.now) words.old.next) }
{
    words.fixed(b"turn", Why::Word)?;
    if words.is_next(b"until") {
        let _ = words.next_word();
        let sight = sight_of(alloc, line, words)?;
        return Ok(Course::InTurnUntil { sight });
    }
    let count = count_of(words)?;
    Ok(Course::InTurn { count })
}

/// `random SEED COUNT`.
#[tactic(auto, unfolding(crate::specs::SketchReading::at_random_at))]
fn at_random(words: &mut LineWords<'_>) -> Result<Course, Refusal>
    requires { words.old.next ≤ 260 }
    ensures { result ≡ at_random_at words.old.row words.old.next }
{
    words.fixed(b"random", Why::Word)?;
    let seed = words.number()?;
    let count = count_of(words)?;
    Ok(Course::AtRandom { seed, count })
}

/// `until SIGHT`, behind its first word.
#[tactic(auto, unfolding(crate::specs::SketchReading::until_at))]
fn until(alloc: Global, line: &Line<'_>, words: &mut LineWords<'_>) -> Result<Course, TextErr>
    requires row { words.old.row ≡ row_of line.now }
    requires there { (1 ≤ words.old.next) × (words.old.next ≤ 260) }
    ensures { Gives result (until_at (row_of line.now) words.old.next) }
{
    let sight = sight_of(alloc, line, words)?;
    Ok(Course::Until { sight })
}

/// `before SIGHT`, behind its first word.
#[tactic(auto, unfolding(crate::specs::SketchReading::before_at))]
fn before(alloc: Global, line: &Line<'_>, words: &mut LineWords<'_>) -> Result<Course, TextErr>
    requires row { words.old.row ≡ row_of line.now }
    requires there { (1 ≤ words.old.next) × (words.old.next ≤ 260) }
    ensures { Gives result (before_at (row_of line.now) words.old.next) }
{
    let sight = sight_of(alloc, line, words)?;
    Ok(Course::Before { sight })
}

/// What the ranks of a line do, from the next word to the line's end.
#[tactic(auto, unfolding(crate::specs::SketchReading::course_at))]
pub fn course_of(
    alloc: Global,
    line: &Line<'_>,
    words: &mut LineWords<'_>,
) -> Result<Course, TextErr>
    requires row { words.old.row ≡ row_of line.now }
    requires there { (1 ≤ words.old.next) × (words.old.next ≤ 256) }
    ensures { Gives result (course_at (row_of line.now) words.old.next) }
{
    if words.is_next(b"until") {
        let _ = words.next_word();
        return until(alloc, line, words);
    }
    if words.is_next(b"before") {
        let _ = words.next_word();
        return before(alloc, line, words);
    }
    if words.is_next(b"in") {
        let _ = words.next_word();
        return in_turn(alloc, line, words);
    }
    if words.is_next(b"at") {
        let _ = words.next_word();
        return Ok(at_random(words)?);
    }
    let count = count_of(words)?;
    Ok(Course::Steps { count })
}
