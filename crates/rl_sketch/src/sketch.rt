//! What a sketch says.

use crate::texts::{LineText, RankList, SketchLines};

/// Which ranks a line is about.
#[derive(Drop)]
pub enum Ranks {
    /// All that weren't stopped, one at least, in the order of their numbers.
    All,
    /// These, in this order: one at least, each once, and none that was stopped.
    These(RankList),
}

/// What a step may show.
#[derive(Drop)]
pub enum Sight {
    /// Words that stand side by side in those of the step, as a listing tells it. The first of them begins an atom, an answer or an event.
    Words(LineText),
    /// A call of the rank is done by the step.
    Done,
    /// No call of the rank is open behind the step, and it is in no card.
    Out,
}

/// What the ranks of a line do. Each count is 0 to 2,000,000.
#[derive(Drop)]
pub enum Course {
    /// Each makes so many steps, and then the next rank does.
    Steps { count: u32 },
    /// Each makes steps up to and with the first that shows the sight, and then the next rank does. But `all until done` is another thing: every rank makes
    /// steps in turn to the end of its calls.
    Until { sight: Sight },
    /// Each makes steps up to the first that would show the sight, which isn't made, and then the next rank does.
    Before { sight: Sight },
    /// So many laps: in each, a step of each rank.
    InTurn { count: u32 },
    /// Laps, in which a rank whose step has shown the sight makes no more.
    InTurnUntil { sight: Sight },
    /// So many steps, each of a rank that is drawn by chance; the seed is where the generator begins.
    AtRandom { seed: u64, count: u32 },
}

/// A line of a sketch.
#[derive(Drop)]
pub enum SketchLine {
    /// An empty line, or one that begins with `#`: it draws nothing.
    Note(LineText),
    /// Ranks go on.
    Goes { ranks: Ranks, course: Course },
    /// Ranks make no step from here on: no later line names them.
    Stops(Ranks),
}

/// The lines of a sketch, from the second of its file on and without the last.
#[derive(Drop)]
pub struct Sketch {
    pub lines: SketchLines,
}
