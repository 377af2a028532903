//! A sketch drawn: its lines one after the other, from a machine that has made no step.

ghost use Rattle.std.specs.Prelude.{◌≡◌, ◌+◌, ◌≤◌, ◌<◌, ℕ, [], length, IfOk, OnOk};
ghost use Rattle.std.specs.List.{AllByRecursion};
ghost use Rattle.rl_inputs.specs.Fitting.{IsProper, shape_of, knobs_of, name_of, does_batches, OpsFit, SuitsLock};
ghost use Rattle.rl_locks.specs.Kinds.{lock_kind_of};
ghost use Rattle.rl_sketch.specs.Sketch.{named_ranks, RanksFit, LineFits, LinesFit, SketchFits};
ghost use Rattle.rl_drawing.specs.Drawing.{AreOfCourse, ComesTo, FitsWhole, SketchSuits, ComesFitting};
ghost use Rattle.rl_drawing.specs.Leads.{SceneFits, OnStage, Draws, DrawsLine, LinesCome, is_done, is_until_done, is_to_the_end};

use crate::anew::machine_after;
use crate::courses::{Each, go_each};
use crate::laps::{go_at_random, go_in_turn, go_laps, go_to_the_end};
use crate::looking::{Scene, Sought};
use crate::outcome::Drawn;
use crate::stage::{Halt, Stage};
use rl_core::{Resting, ShardGuiding};
use rl_locks::{CoreTask, Promising, over_lock};
use rl_ops::{MOST_STEPS, Ops, Schedule, Turns};
use rl_place::Place;
use rl_report::Naming;
use rl_sketch::{Course, Ranks, Sight, Sketch, SketchLine, add_stopped, going};
use std::alloc::{AllocError as OutOfMemory, Global};

/// The ranks that a line names, where these were stopped before it.
fn named_ranks(scene: Scene<'_>, stopped: &[u8], ranks: &Ranks) -> Result<Vec<u8>, OutOfMemory>
    requires { IsProper scene.place.now }
    ensures { IfOk result (λ list. list.items ≡ named_ranks (length scene.entry.place.now.paths) stopped.now ranks.now) }
{
    let Scene { alloc, place, .. } = scene;
    match ranks {
        Ranks::All => going(alloc, place.paths.len() as u8, stopped),
        Ranks::These(list) => Vec::from_slice(alloc, list.as_slice()),
    }
}

/// What these ranks do.
fn draw_course<C: Resting>(
    scene: Scene<'_>,
    stage: &mut Stage<C>,
    ranks: Vec<u8>,
    course: &Course,
) -> Result<(), Halt>
    requires scene { SceneFits C.batches scene }
    requires knobs { C.suits_knobs (shape_of scene.place.now) (knobs_of scene.place.now.lock) }
    requires some { 0 < length ranks.items }
    requires few { length ranks.items < 256 }
    requires there { AllByRecursion (λ k. k < length scene.place.now.paths) ranks.items }
    requires stage { OnStage C.says C.defined scene stage.old }
    ensures stage { OnOk result (OnStage C.says C.defined scene.entry stage.new) }
    ensures draws { Draws C.says (λ m. AreOfCourse scene.entry.place.now m ranks.items course.now) stage.old stage.new result }
{
    match course {
        Course::Steps { count } => go_each(scene, stage, ranks.as_slice(), Each::Steps(*count)),
        Course::Until { sight } => {
            go_each(
                scene,
                stage,
                ranks.as_slice(),
                Each::Until(Sought::Shown(sight)),
            )
        }
        Course::Before { sight } => {
            go_each(
                scene,
                stage,
                ranks.as_slice(),
                Each::Before(Sought::Shown(sight)),
            )
        }
        Course::InTurn { count } => go_laps(scene, stage, ranks.as_slice(), *count),
        Course::InTurnUntil { sight } => go_in_turn(scene, stage, ranks, Sought::Shown(sight)),
        Course::AtRandom { seed, count } => {
            go_at_random(scene, stage, ranks.as_slice(), *seed, *count)
        }
    }
}

/// Whether a sight is `done`.
fn is_done(sight: &Sight) -> bool
    ensures { result ≡ is_done sight.now }
{
    match sight {
        Sight::Done => true,
        Sight::Words(_) | Sight::Out => false,
    }
}

/// Whether ranks make steps until a call of each is done.
fn is_until_done(course: &Course) -> bool
    ensures { result ≡ is_until_done course.now }
{
    match course {
        Course::Until { sight } => is_done(sight),
        Course::Steps { .. }
        | Course::Before { .. }
        | Course::InTurn { .. }
        | Course::InTurnUntil { .. }
        | Course::AtRandom { .. } => false,
    }
}

/// Whether ranks go to the end of their calls: `all until done`.
fn is_to_the_end(ranks: &Ranks, course: &Course) -> bool
    ensures { result ≡ is_to_the_end ranks.now course.now }
{
    match ranks {
        Ranks::All => is_until_done(course),
        Ranks::These(_) => false,
    }
}

/// What ranks that go draw, where these ranks were stopped before them.
fn draw_going<C: Resting>(
    scene: Scene<'_>,
    stage: &mut Stage<C>,
    stopped: &[u8],
    ranks: &Ranks,
    course: &Course,
) -> Result<(), Halt>
    requires scene { SceneFits C.batches scene }
    requires knobs { C.suits_knobs (shape_of scene.place.now) (knobs_of scene.place.now.lock) }
    requires fits { RanksFit (length scene.place.now.paths) stopped.now ranks.now }
    requires stage { OnStage C.says C.defined scene stage.old }
    ensures stage { OnOk result (OnStage C.says C.defined scene.entry stage.new) }
    ensures draws { DrawsLine C.says scene.entry stopped.now (SketchLine.Goes ranks.now course.now) stage.old stage.new result }
{
    let named = named_ranks(scene, stopped, ranks)?;
    if is_to_the_end(ranks, course) {
        go_to_the_end(scene, stage, named.as_slice())
    } else {
        draw_course(scene, stage, named, course)
    }
}

/// What a line draws, where these ranks were stopped before it.
fn draw_line<C: Resting>(
    scene: Scene<'_>,
    stage: &mut Stage<C>,
    stopped: &[u8],
    line: &SketchLine,
) -> Result<(), Halt>
    requires scene { SceneFits C.batches scene }
    requires knobs { C.suits_knobs (shape_of scene.place.now) (knobs_of scene.place.now.lock) }
    requires fits { LineFits (length scene.place.now.paths) stopped.now line.now }
    requires stage { OnStage C.says C.defined scene stage.old }
    ensures stage { OnOk result (OnStage C.says C.defined scene.entry stage.new) }
    ensures draws { DrawsLine C.says scene.entry stopped.now line.now stage.old stage.new result }
{
    match line {
        SketchLine::Note(_) => Ok(()),
        SketchLine::Goes { ranks, course } => draw_going(scene, stage, stopped, ranks, course),
        SketchLine::Stops(ranks) => {
            let named = named_ranks(scene, stopped, ranks)?;
            go_each(scene, stage, named.as_slice(), Each::Stop)
        }
    }
}

/// What all lines draw; the number of the line that never comes to its end, if there is one.
fn draw_lines<C: Resting>(
    scene: Scene<'_>,
    stage: &mut Stage<C>,
    lines: &[SketchLine],
) -> Result<Option<u64>, OutOfMemory>
    requires scene { SceneFits C.batches scene }
    requires knobs { C.suits_knobs (shape_of scene.place.now) (knobs_of scene.place.now.lock) }
    requires fits { LinesFit (length scene.place.now.paths) [] lines.now }
    requires stage { OnStage C.says C.defined scene stage.old }
    requires fresh { stage.old.turns ≡ [] }
    ensures { IfOk result (LinesCome C.defined scene.entry.place.now scene.entry.ops.now lines.now stage.new.turns) }
{
    let Scene { alloc, place, .. } = scene;
    let ranks = place.paths.len() as u8;
    let mut stopped = Vec::new(alloc);
    let mut number = 2;
    for line in lines {
        match draw_line(scene, stage, stopped.as_slice(), line) {
            Ok(()) => {}
            Err(Halt::Never) => return Ok(Some(number)),
            Err(Halt::Memory) => return Err(OutOfMemory),
        }
        add_stopped(alloc, ranks, &mut stopped, line)?;
        number += 1;
    }
    Ok(None)
}

/// Draws a sketch with this core, which is that of the placement's lock.
pub fn draw_with<C: Resting>(
    alloc: Global,
    place: &Place,
    ops: &Ops,
    sketch: &Sketch,
) -> Result<Drawn, OutOfMemory>
    requires proper { IsProper place.now }
    requires knobs { C.suits_knobs (shape_of place.now) (knobs_of place.now.lock) }
    requires batches { C.batches ≡ does_batches (name_of place.now.lock) }
    requires calls { OpsFit (length place.now.paths) place.now.geom.shards ops.now }
    requires suits { SuitsLock place.now ops.now }
    requires sketch { SketchFits (length place.now.paths) sketch.now }
    ensures drawn { IfOk result (ComesTo C.defined place.now ops.now sketch.now) }
    ensures fits { IfOk result (FitsWhole (length place.now.paths)) }
{
    let naming = Naming::of(alloc, place)?;
    let scene = Scene {
        alloc,
        place,
        naming: &naming,
        ops,
    };
    let mut stage: Stage<C> = Stage {
        machine: machine_after(scene, &[])?,
        turns: Turns::new(alloc),
        left: MOST_STEPS,
    };
    match draw_lines(scene, &mut stage, sketch.lines.as_slice())? {
        Some(line) => Ok(Drawn::Never { line }),
        None => Ok(Drawn::Whole(Schedule { turns: stage.turns })),
    }
}

/// A sketch that is drawn with the core of whichever lock the placement has.
#[derive(Drop)]
struct DrawTask<'a> {
    alloc: Global,
    ops: &'a Ops,
    sketch: &'a Sketch,
}

impl CoreTask for DrawTask<'_> {
    type Out = Result<Drawn, OutOfMemory>;

    ghost takes = { λ r place. SketchSuits place r.ops.now r.sketch.now };

    ghost gives = { λ r place kind urgent result. IfOk result (ComesFitting kind.defined place r.ops.now r.sketch.now) };

    fn over<C: Resting + Promising + ShardGuiding>(
        self,
        place: &Place,
    ) -> Result<Drawn, OutOfMemory> {
        draw_with::<C>(self.alloc, place, self.ops, self.sketch)
    }
}

/// Draws a sketch: its schedule, whose turns are exactly those of its lines, one behind the other, or the first line that comes to no end with the 2,000,000
/// steps that a schedule may have. The calls and the sketch are of the placement's ranks, and no batch is among the calls where the lock does none. The
/// schedule is one of these ranks too. Refused only for want of memory.
pub fn drawn(alloc: Global, place: &Place, ops: &Ops, sketch: &Sketch) -> Result<Drawn, OutOfMemory>
    requires proper { IsProper place.now }
    requires calls { OpsFit (length place.now.paths) place.now.geom.shards ops.now }
    requires suits { SuitsLock place.now ops.now }
    requires sketch { SketchFits (length place.now.paths) sketch.now }
    ensures drawn { IfOk result (ComesTo (lock_kind_of place.now.lock).defined place.now ops.now sketch.now) }
    ensures fits { IfOk result (FitsWhole (length place.now.paths)) }
{
    over_lock(place, DrawTask { alloc, ops, sketch })
}
