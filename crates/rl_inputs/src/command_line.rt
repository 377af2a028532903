//! What every program of a replay takes and tells: the words of its command line, and why it has no output.
ghost use Rattle.std.specs.Prelude.{◌≢◌, ◌↔◌, ◌≤◌, None};

use rl_io::{RealFiles, RealOut};
use std::alloc::AllocError as OutOfMemory;
use std::io::{Eprint, ErrorKind};
use std::rt::{Env, Files};

/// The words after the program's name; none where one of them is no text, since such words are no form. Refused only for want
/// of memory.
pub fn words(rt: &(impl Env + AllocGlobal)) -> Result<Vec<String>, OutOfMemory> {
    let mut words = Vec::new(rt.alloc());
    match std::env::args(rt) {
        Ok(args) => {
            for word in args.skip(1) {
                words.push(word)?;
            }
        }
        Err(error) => {
            if error.kind() == ErrorKind::OutOfMemory {
                return Err(OutOfMemory);
            }
        }
    }
    Ok(words)
}

/// Why there is no output, or none that is whole, for the statuses that say so.
fn why_no_output(status: u8) -> Option<&'static str>
    ensures { (result ≢ None) ↔ ((3 ≤ status) × (status ≤ 5)) }
{
    match status {
        3 => Some("a file could not be read"),
        4 => Some("the output could not be written"),
        5 => Some("there was not enough memory"),
        _ => None,
    }
}

/// Says on standard error, in one line, why there is no output, or none that is whole: the system's reason, and the name of a file that could
/// not be read. Of other statuses it says nothing.
pub fn say_why<R: Eprint, F: Files + AllocGlobal + Drop, P: Print + Drop>(
    rt: &R,
    program: &str,
    status: u8,
    files: &RealFiles<F>,
    out: &RealOut<P>,
) {
    let Some(why) = why_no_output(status) else {
        return;
    };
    // If standard error takes nothing either, the status is all that is left.
    let _ = match (status, files.last_name(), files.reason(), out.reason()) {
        (3, Some(name), Some(reason), _) => eprintln!(rt; "{program}: {why}: {name:?}: {reason}"),
        (3, None, Some(reason), _) => eprintln!(rt; "{program}: {why}: {reason}"),
        (4, _, _, Some(reason)) => eprintln!(rt; "{program}: {why}: {reason}"),
        _ => eprintln!(rt; "{program}: {why}"),
    };
}
