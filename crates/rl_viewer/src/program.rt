//! A program that answers to what three files spell: its words, its answers and its top call.
ghost use Rattle.std.specs.Prelude.{◌≡◌, ℕ, List, Option, Some, None, map, string_bytes, IfOk, IfSome};
ghost use Rattle.std.specs.Option.{option_map};
ghost use Rattle.rl_io.specs.Whole.{RisesWithFault};
ghost use Rattle.rl_inputs.specs.Done.{TheAnswer, IsAnswerStatus, IsDone, WasAnswered};
ghost use Rattle.rl_inputs.specs.Reading.{stopped_by_fault};
ghost use Rattle.rl_inputs.specs.Files.{Names, Texts, named, AreTextsOf, MayOpenFiles, MayOpenFilesOf};
ghost use Rattle.rl_viewer.specs.Asking.{the_asked, asked_by, names_asked};
ghost use Rattle.rl_viewer.specs.Answer.{Answers};

use rl_explain::{Kept, Third, say_refusal};
use rl_inputs::{Answer, Files, Stop, tell, tell_text};
use rl_io::{Sink, Source};
use std::alloc::Global;
use std::io::Eprint;

/// A program that answers to what three files spell: a placement, calls and a third, which is mostly a schedule.
pub trait Program {
    /// Which part of what the files spell is asked for.
    type Part: Copy;

    /// The part that the words behind the names of the files ask for; none where they are no form.
    ghost part_by: { List (List ℕ) → Option Self.Part };

    /// What holds of a part that words ask for.
    ghost limits: { Self.Part → Type 0 } = { λ _. Unit {0} };

    /// Which answers belong to what is asked for and to the texts of the files.
    ghost answers: { Names → Self.Part → Texts → TheAnswer → Type 0 };

    /// The part that the words behind the names of the files ask for. Nothing where they are no form.
    fn part_of(words: &[String]) -> Option<Self::Part>
        ensures part { result ≡ part_by (map string_bytes words.now) }
        ensures limits { IfSome result limits };

    /// The answer to what is asked for.
    fn answer<S: Source>(
        alloc: Global,
        source: &mut S,
        files: Files<'_>,
        part: Self::Part,
    ) -> Result<Answer, Stop>
        requires may_open { MayOpenFiles (S.may_open source.old) (named files) }
        requires limits { limits part }
        ensures answered { WasAnswered (AreTextsOf (Some (named files.entry))) (answers (named files.entry) part) (S.file source.old) result }
        ensures status { IfOk result (λ answer. IsAnswerStatus answer.status) }
        ensures faults { RisesWithFault stopped_by_fault result (S.faults source.old) (S.faults source.new) };

    /// Says on standard error, in one line, why the file that was opened last is refused.
    fn say_refused<R: Eprint>(rt: &R, alloc: Global, program: &str, kept: &Kept) {
        say_refusal(rt, alloc, program, Third::Schedule, kept);
    }
}

/// What the words of the command line ask for: three name the files, and those behind them the part. Nothing where they are no form.
fn asked_in<P: Program>(words: &[String]) -> Option<(Files<'_>, P::Part)>
    ensures asked { option_map the_asked result ≡ asked_by P.part_by (map string_bytes words.now) }
    ensures limits { IfSome result (λ asked. P.limits asked.1) }
{
    match words {
        [place, calls, schedule, words @ ..] => match P::part_of(words) {
            Some(part) => {
                let files = Files {
                    place: place.as_str(),
                    calls: calls.as_str(),
                    schedule: schedule.as_str(),
                };
                Some((files, part))
            }
            None => None,
        },
        _ => None,
    }
}

/// Answers what the words of the command line ask for, and gives the status: that of the program's answer, 1 after the usage line, where
/// the words are no form, 2 after the line that refuses a file, 3 where a file could not be read, 4 where a write failed, 5 for want of
/// memory. What was written belongs to the words and to the bytes of the files that they name, by what the program says (`P.answers`). A
/// sink with room for the answer tells its bytes afterwards as before.
pub fn answer_words<P: Program, S: Source, K: Sink>(
    alloc: Global,
    usage: &[u8],
    words: &[String],
    source: &mut S,
    out: &mut K,
) -> u8
    requires may_read { MayOpenFilesOf (S.may_open source.old) (names_asked (asked_by P.part_by (map string_bytes words.now))) }
    ensures done { IsDone S.file S.faults K.written K.tells_on K.faults (AreTextsOf (names_asked (asked_by P.part_by (map string_bytes words.now))))
        (Answers usage.now P.answers (asked_by P.part_by (map string_bytes words.now))) source.old source.new out.old out.new result }
    ensures unread { asked_by P.part_by (map string_bytes words.now) ≡ None → source.new ≡ source.old }
{
    let Some(asked) = asked_in::<P>(words) else {
        return tell_text(out, 1, usage);
    };
    tell(P::answer(alloc, source, asked.0, asked.1), out)
}
