//! The files of a drawing, read one after the other.
ghost use Rattle.std.specs.Prelude.{IsTrue, IfOk, length};
ghost use Rattle.rl_io.specs.Outside.{SameFiles};
ghost use Rattle.rl_io.specs.Whole.{RisesWithFault};
ghost use Rattle.rl_inputs.specs.Fitting.{IsProper, OpsFit, SuitsLock};
ghost use Rattle.rl_inputs.specs.Reading.{WasRead, stopped_by_fault};
ghost use Rattle.rl_inputs.specs.Files.{named, MayOpenFiles};
ghost use Rattle.rl_sketch.specs.Sketch.{SketchFits};
ghost use Rattle.rmalock_schedule.specs.Answer.{sketched, WereRead};

use rl_inputs::{Files, Stop, read_called, read_placed, read_within, stopped};
use rl_io::Source;
use rl_ops::Ops;
use rl_place::Place;
use rl_sketch::{Sketch, read_sketch};
use std::alloc::Global;

/// A sketch has at most this many bytes.
pub const MOST_SKETCH: u32 = 4_194_304;

/// What the files spell: a sketch of a placement's ranks, and their calls.
#[derive(Drop)]
pub struct Sketched {
    pub place: Place,
    pub ops: Ops,
    pub sketch: Sketch,
}

/// The sketch of a file, of the placement's ranks.
#[tactic(auto, unfolding(crate::specs::Answer::sketched))]
fn read_sketched<S: Source>(
    alloc: Global,
    source: &mut S,
    name: &str,
    place: &Place,
) -> Result<Sketch, Stop>
    requires may_open { IsTrue (S.may_open source.old name.now) }
    requires proper { IsProper place.now }
    ensures read { WasRead (S.file source.old name.now) (λ sketch. sketch) (sketched name.now place.now) result }
    ensures fits { IfOk result (λ sketch. SketchFits (length place.now.paths) sketch) }
    ensures faults { RisesWithFault stopped_by_fault result (S.faults source.old) (S.faults source.new) }
    ensures same { SameFiles S.file S.may_open source.old source.new }
{
    let bytes = read_within(alloc, source, name, MOST_SKETCH)?;
    let ranks = place.paths.len() as u8;
    match read_sketch(alloc, ranks, bytes.as_slice()) {
        Ok(sketch) => Ok(sketch),
        Err(error) => Err(stopped(alloc, name, error)),
    }
}

/// Reads the placement, then the calls, then the sketch; each is parsed before the next is opened, and the first that is too long or refused ends it.
#[tactic(auto, unfolding(crate::specs::Answer::spelled))]
pub fn read_files<S: Source>(
    alloc: Global,
    source: &mut S,
    files: Files<'_>,
) -> Result<Sketched, Stop>
    requires { MayOpenFiles (S.may_open source.old) (named files) }
    ensures read { WereRead (S.file source.old) (named files.entry) result }
    ensures proper { IfOk result (λ sketched. IsProper sketched.place) }
    ensures calls { IfOk result (λ sketched. OpsFit (length sketched.place.paths) sketched.place.geom.shards sketched.ops) }
    ensures suits { IfOk result (λ sketched. SuitsLock sketched.place sketched.ops) }
    ensures sketch { IfOk result (λ sketched. SketchFits (length sketched.place.paths) sketched.sketch) }
    ensures faults { RisesWithFault stopped_by_fault result (S.faults source.old) (S.faults source.new) }
{
    let place = read_placed(alloc, source, files.place)?;
    let ops = read_called(alloc, source, files.calls, &place)?;
    let sketch = read_sketched(alloc, source, files.schedule, &place)?;
    Ok(Sketched { place, ops, sketch })
}
