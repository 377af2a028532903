//! Reading a line of a sketch.

ghost use Rattle.std.specs.Prelude.{◌≡◌};
ghost use Rattle.rl_text.specs.Rows.{row_of};
ghost use Rattle.rl_text.specs.Reading.{Gives};
ghost use Rattle.rl_sketch.specs.Sketch.{is_note};
ghost use Rattle.rl_sketch.specs.SketchReading.{may_of, goes_at, stops_at, line_after};

use crate::course_reader::course_of;
use crate::ranks_reader::{Allowed, going_ranks, stopped_ranks};
use crate::sketch::SketchLine;
use crate::texts::LineText;
use rl_text::{Line, TextErr, Why};
use std::alloc::Global;

/// Whether a line is empty, or begins with `#`.
fn is_note(text: &[u8]) -> bool
    ensures { result ≡ is_note text.now }
{
    match text {
        [] => true,
        [byte, ..] => *byte == b'#',
    }
}

/// `RANKS COURSE`.
#[tactic(auto, unfolding(crate::specs::SketchReading::goes_at))]
fn goes_of(alloc: Global, line: &Line<'_>, may: Allowed<'_>) -> Result<SketchLine, TextErr>
    ensures { Gives result (goes_at (may_of may.entry) (row_of line.now)) }
{
    let mut words = line.words();
    let ranks = going_ranks(alloc, line, &mut words, may)?;
    let course = course_of(alloc, line, &mut words)?;
    Ok(SketchLine::Goes { ranks, course })
}

/// `stop RANKS`.
#[tactic(auto, unfolding(crate::specs::SketchReading::stops_at))]
fn stops_of(alloc: Global, line: &Line<'_>, may: Allowed<'_>) -> Result<SketchLine, TextErr>
    ensures { Gives result (stops_at (may_of may.entry) (row_of line.now)) }
{
    let mut words = line.words_from(2);
    let ranks = stopped_ranks(alloc, &mut words, may)?;
    Ok(SketchLine::Stops(ranks))
}

/// A line, where these ranks were stopped by those before it.
#[tactic(auto, unfolding(crate::specs::SketchReading::line_after))]
pub fn line_of(
    alloc: Global,
    line: &Line<'_>,
    ranks: u8,
    stopped: &[u8],
) -> Result<SketchLine, TextErr>
    ensures { Gives result (line_after ranks stopped.now (row_of line.now)) }
{
    if is_note(line.text) {
        let text = Vec::from_slice(alloc, line.text)?;
        return Ok(SketchLine::Note(LineText::from_vec(text)));
    }
    if line.begins(b"stop") {
        let again = Why::Repeat;
        let may = Allowed {
            ranks,
            stopped,
            again,
        };
        return stops_of(alloc, line, may);
    }
    let again = Why::Order;
    let may = Allowed {
        ranks,
        stopped,
        again,
    };
    goes_of(alloc, line, may)
}
