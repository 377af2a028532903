//! The shape of the placement in a file.
ghost use Rattle.std.specs.Prelude.{IsTrue};
ghost use Rattle.rl_io.specs.Whole.{RisesWithFault};
ghost use Rattle.rl_inputs.specs.Reading.{WasRead, stopped_by_fault};
ghost use Rattle.rl_program.specs.Answer.{shown};

use rl_inputs::{Stop, read_placed};
use rl_io::Source;
use rl_place::shape_text;
use std::alloc::Global;

/// The text of the shape of the placement in a file, with any lock.
#[tactic(auto, unfolding(crate::specs::Answer::shown))]
pub fn shown<S: Source>(alloc: Global, source: &mut S, name: &str) -> Result<Vec<u8>, Stop>
    requires { IsTrue (S.may_open source.old name.now) }
    ensures shown { WasRead (S.file source.old name.now) (λ text. text.items) (shown name.now) result }
    ensures faults { RisesWithFault stopped_by_fault result (S.faults source.old) (S.faults source.new) }
{
    let place = read_placed(alloc, source, name)?;
    Ok(shape_text(alloc, &place)?)
}
