//! The program: a run by threads, a check that may have threads, and all that never waits.
ghost use Rattle.std.specs.Prelude.{◌≡◌, map, string_bytes};
ghost use Rattle.rl_inputs.specs.Done.{IsDone};
ghost use Rattle.rl_program.specs.Command.{form_of};
ghost use Rattle.rl_program.specs.Answer.{Answers, AreTexts, MayRead, NamesNoFile};

use crate::answer::answer_in_threads;
use crate::command::form_of_words;
use rl_inputs::tell;
use rl_io::{Gate, Sink, Source};
use std::alloc::Global;
use std::sync::Wait;
use std::thread::Threads;

/// Does what the words of the command line ask for, and gives the status, as [`offline`] does; but `check PLACE CALLS REPORT` may have
/// threads, and `run PLACE CALLS` it does itself.
///
/// A run makes all calls of the file, each rank in a thread of its own where one can be started, on windows that the threads share, and
/// writes a report of them: 0 after the report, 2 after the line that refuses a file, 3 where a file could not be read, 4 where a write
/// failed, 5 for want of memory. It may wait, and forever: nothing says that the threads come to their steps. The gate stands at the
/// ranks' calls and steps; the program's own is always open.
pub fn rmalock<S: Source, K: Sink, G: Gate, R: Threads + Wait + Sync>(
    rt: &R,
    alloc: Global,
    words: &[String],
    source: &mut S,
    out: &mut K,
    gate: &G,
) -> u8
    requires may_read { MayRead (S.may_open source.old) (form_of (map string_bytes words.now)) }
    ensures done { IsDone S.file S.faults K.written K.tells_on K.faults (AreTexts (form_of (map string_bytes words.now)))
        (Answers (form_of (map string_bytes words.now))) source.old source.new out.old out.new result }
    ensures unread { NamesNoFile (form_of (map string_bytes words.now)) → source.new ≡ source.old }
{
    tell(
        answer_in_threads(rt, alloc, form_of_words(words), source, gate),
        out,
    )
}
