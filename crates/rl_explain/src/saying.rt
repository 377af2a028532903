//! The line on standard error that says what was found and what was wanted.
ghost use Rattle.std.specs.Prelude.{◌≡◌, IfSome};
ghost use Rattle.rl_place.specs.Places.{IsProper};

use crate::keeping::{Kept, KeptText};
use crate::refusals::{
    Explained, explain_calls, explain_place, explain_report, explain_schedule, place_in,
};
use rl_place::Place;
use rl_report::Naming;
use std::alloc::Global;
use std::io::Eprint;

/// What the third file of a program's form is.
#[derive(Clone, Copy, PartialEq, Eq, Debug)]
pub enum Third {
    Schedule,
    Report,
}

/// Writes what is explained, if something is. If standard error takes nothing, the first line is all that is left.
fn say<R: Eprint>(rt: &R, program: &str, explained: Option<Explained<'_>>) {
    if let Some(explained) = explained {
        let _ = eprintln!(rt; "{program}: {explained}");
    }
}

/// Says why a report is refused.
fn say_report<R: Eprint>(rt: &R, alloc: Global, program: &str, place: &Place, text: &KeptText)
    requires { IsProper place.now }
{
    if let Ok(naming) = Naming::of(alloc, place) {
        say(rt, program, explain_report(alloc, place, &naming, text));
    }
}

/// Says why a file behind the placement is refused.
fn say_behind<R: Eprint>(
    rt: &R,
    alloc: Global,
    program: &str,
    third: Third,
    place: &Place,
    texts: &[KeptText],
)
    requires { IsProper place.now }
{
    match (texts, third) {
        ([calls], _) => say(rt, program, explain_calls(alloc, place, calls)),
        ([_, text], Third::Schedule) => say(rt, program, explain_schedule(alloc, place, text)),
        ([_, text], Third::Report) => say_report(rt, alloc, program, place, text),
        _ => {}
    }
}

/// Says on standard error, in one line, why the file that was opened last is refused: its place, what was found there and what was wanted.
/// The files are a placement, calls and a third one. It says nothing where memory is short.
pub fn say_refusal<R: Eprint>(rt: &R, alloc: Global, program: &str, third: Third, kept: &Kept) {
    match kept.texts() {
        [place] => say(rt, program, explain_place(alloc, place)),
        [place, texts @ ..] => {
            if let Some(place) = place_in(alloc, place) {
                say_behind(rt, alloc, program, third, &place, texts);
            }
        }
        _ => {}
    }
}
