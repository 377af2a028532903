//! The top call: what the program does that never waits.
ghost use Rattle.std.specs.Prelude.{◌≡◌, map, string_bytes};
ghost use Rattle.rl_inputs.specs.Done.{IsDone};
ghost use Rattle.rl_program.specs.Command.{form_of, without_runs};
ghost use Rattle.rl_program.specs.Answer.{Answers, AreTexts, MayRead, NamesNoFile};

use crate::answer::answer_alone;
use crate::command::form_of_words;
use rl_inputs::tell;
use rl_io::{Sink, Source};
use std::alloc::Global;

/// Does what the words of the command line ask for, and gives the status: 0 after a report, a summary, a shape or `legal`, 1 after the usage
/// line, where the words are no form, 2 after the line that refuses a file, 3 where a file could not be read, 4 where a write failed, 5 for want
/// of memory, 6 after the first fault of a report that isn't legal. A sink with room for the text tells its bytes afterwards as before.
pub fn offline<S: Source, K: Sink>(
    alloc: Global,
    words: &[String],
    source: &mut S,
    out: &mut K,
) -> u8
    requires may_read { MayRead (S.may_open source.old) (without_runs (form_of (map string_bytes words.now))) }
    ensures done { IsDone S.file S.faults K.written K.tells_on K.faults (AreTexts (without_runs (form_of (map string_bytes words.now))))
        (Answers (without_runs (form_of (map string_bytes words.now)))) source.old source.new out.old out.new result }
    ensures unread { NamesNoFile (without_runs (form_of (map string_bytes words.now))) → source.new ≡ source.old }
{
    tell(answer_alone(alloc, form_of_words(words), source), out)
}
