//! The words of the command line behind the names of the files.
ghost use Rattle.std.specs.Prelude.{◌≡◌, ◌≤◌, map, string_bytes, IfSome};
ghost use Rattle.rl_text.specs.Number.{number_of};
ghost use Rattle.rl_viewer.specs.Asking.{is_in, window_by, steps_by, moment_by, step_by, all_by};

use rl_ops::MOST_STEPS;
use rl_text::number;

/// Steps: those from `from` on and before `to`.
#[derive(Clone, Copy, PartialEq, Eq, Debug)]
pub struct Window {
    pub from: u32,
    pub to: u32,
}

impl Window {
    /// Whether a step is in the window.
    pub fn has(self, step: u32) -> bool
        ensures { result ≡ is_in self step }
    {
        self.from <= step && step < self.to
    }
}

/// All steps that a schedule may have.
const ALL_STEPS: Window = Window {
    from: 0,
    to: MOST_STEPS,
};

/// The window of two words, where they are numbers, the first below the second, and the second at most 2,000,000.
fn window_of(from: &str, to: &str) -> Option<Window>
    ensures window { result ≡ window_by (number_of from.now) (number_of to.now) }
    ensures few { IfSome result (λ window. window.to ≤ 2000000) }
{
    let from = number(from.as_bytes())?;
    let to = number(to.as_bytes())?;
    if from < to && to <= u64::from(MOST_STEPS) {
        Some(Window {
            from: from as u32,
            to: to as u32,
        })
    } else {
        None
    }
}

/// The steps that words ask for: all where there is no word, and those of a window `FROM TO`. Nothing where the words are others.
pub fn steps_of(words: &[String]) -> Option<Window>
    ensures window { result ≡ steps_by (map string_bytes words.now) }
    ensures few { IfSome result (λ window. window.to ≤ 2000000) }
{
    match words {
        [] => Some(ALL_STEPS),
        [from, to] => window_of(from.as_str(), to.as_str()),
        _ => None,
    }
}

/// The window of no steps that stands before a step, where the word is a number of at most 2,000,000.
fn moment_of(step: &str) -> Option<Window>
    ensures window { result ≡ moment_by (number_of step.now) }
    ensures few { IfSome result (λ window. window.to ≤ 2000000) }
{
    let step = number(step.as_bytes())?;
    if step <= u64::from(MOST_STEPS) {
        Some(Window {
            from: step as u32,
            to: step as u32,
        })
    } else {
        None
    }
}

/// What stands before the step that the word `STEP` asks for, as a window that begins there and has no steps. Nothing where the words are
/// others.
pub fn step_of(words: &[String]) -> Option<Window>
    ensures window { result ≡ step_by (map string_bytes words.now) }
    ensures few { IfSome result (λ window. window.to ≤ 2000000) }
{
    match words {
        [step] => moment_of(step.as_str()),
        _ => None,
    }
}

/// All that there is, which no word asks for. Nothing where there is a word.
pub fn all_of(words: &[String]) -> Option<()>
    ensures { result ≡ all_by (map string_bytes words.now) }
{
    if words.is_empty() { Some(()) } else { None }
}
