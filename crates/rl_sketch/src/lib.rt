//! Sketches: texts of which schedules are drawn.
//!
//! - A **sketch** ([`Sketch`]) says line by line which ranks go on, and how far: so many steps, or up to a step that shows something, which is its **sight**
//!   ([`Sight`]). No line has to say how many steps that takes.
//! - [`read_sketch`] reads one from its text, and [`sketch_text`] prints it.
//! - [`going`] and [`add_stopped`] tell which ranks a line may be about, behind lines that have stopped some.
//!
//! Promise: the reader gives a value exactly where the text spells it, and else the first fault of the text.
//! Not said here: what a line does. `rl_drawing` draws it.
#![tactic(auto)]

mod course_reader;
mod laws;
mod line_reader;
mod ranks_reader;
mod sight_reader;
mod sketch;
mod sketch_printer;
mod sketch_reader;
mod texts;

pub use laws::no_sketch_fault;
pub use ranks_reader::going;
pub use sketch::{Course, Ranks, Sight, Sketch, SketchLine};
pub use sketch_printer::sketch_text;
pub use sketch_reader::{add_stopped, read_sketch};
pub use texts::{LineText, RankList, SketchLines};
