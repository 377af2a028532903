//! Programs that show a replay, or the line that says why there is none.
ghost use Rattle.std.specs.Prelude.{◌≡◌, ◌≤◌, ℕ, List, Option, length, map, string_bytes, IfOk, IfSome};
ghost use Rattle.rl_inputs.specs.Fitting.{IsProper, OpsFit, SuitsLock, ScheduleFits};
ghost use Rattle.rl_inputs.specs.declared.replay.Replay.{Replay};
ghost use Rattle.rl_viewer.specs.declared.asking.Window.{Window};
ghost use Rattle.rl_viewer.specs.Asking.{steps_by, step_by};
ghost use Rattle.rl_viewer.specs.Answer.{AnswersShown};

use crate::asking::{Window, step_of, steps_of};
use crate::program::Program;
use rl_inputs::{Answer, Files, Replay, Stop, read_replay};
use rl_io::Source;
use std::alloc::{AllocError as OutOfMemory, Global};
use std::marker::PhantomData;

/// What shows a replay.
pub trait Viewer {
    /// Which bytes may show a replay, in a window of its steps.
    ghost shows: { Replay → Window → List ℕ → Type 0 };

    /// The bytes that show a replay, in a window of its steps. Refused only for want of memory.
    fn show(alloc: Global, replay: Replay, window: Window) -> Result<Vec<u8>, OutOfMemory>
        requires proper { IsProper replay.place }
        requires calls { OpsFit (length replay.place.paths) replay.place.geom.shards replay.ops }
        requires suits { SuitsLock replay.place replay.ops }
        requires schedule { ScheduleFits (length replay.place.paths) replay.schedule }
        requires few { window.to ≤ 2000000 }
        ensures { IfOk result (λ text. shows replay window text.items) };
}

/// Which words behind the names of the files ask for which steps.
pub trait Form {
    /// The steps that words ask for; none where they are no form.
    ghost asks: { List (List ℕ) → Option Window };

    /// The steps that words ask for. Nothing where they are no form.
    fn window_of(words: &[String]) -> Option<Window>
        ensures window { result ≡ asks (map string_bytes words.now) }
        ensures few { IfSome result (λ window. window.to ≤ 2000000) };
}

/// `PLACE CALLS SCHEDULE [FROM TO]`: all steps, or a window of them.
pub struct Steps;

impl Form for Steps {
    ghost asks = { steps_by };

    fn window_of(words: &[String]) -> Option<Window> {
        steps_of(words)
    }
}

/// `PLACE CALLS SCHEDULE STEP`: what stands before a step.
pub struct Before;

impl Form for Before {
    ghost asks = { step_by };

    fn window_of(words: &[String]) -> Option<Window> {
        step_of(words)
    }
}

/// The program of a viewer, for words of a form.
pub struct Show<V, F>(PhantomData<(V, F)>);

impl<V: Viewer, F: Form> Program for Show<V, F> {
    type Part = Window;

    ghost part_by = { F.asks };

    ghost limits = { λ window. window.to ≤ 2000000 };

    ghost answers = { AnswersShown V.shows };

    fn part_of(words: &[String]) -> Option<Window> {
        F::window_of(words)
    }

    fn answer<S: Source>(
        alloc: Global,
        source: &mut S,
        files: Files<'_>,
        window: Window,
    ) -> Result<Answer, Stop> {
        let replay = read_replay(alloc, source, files)?;
        let text = V::show(alloc, replay, window)?;
        Ok(Answer::new(0, text))
    }
}
