//! A program over the command line, the files and the output of the machine that it runs on.
use crate::program::{Program, answer_words};
use rl_explain::KeptFiles;
use rl_inputs::{say_why, words};
use rl_io::{RealFiles, RealOut};
use std::alloc::AllocError as OutOfMemory;
use std::io::Eprint;
use std::process::ExitCode;
use std::rt::{Env, Files};

/// The status of what the command line asks for.
fn status_of<P: Program, R: Env + AllocGlobal, F: Files + AllocGlobal + Drop, O: Print + Drop>(
    rt: &R,
    usage: &[u8],
    source: &mut KeptFiles<RealFiles<F>>,
    out: &mut RealOut<O>,
) -> Result<u8, OutOfMemory> {
    let words = words(rt)?;
    Ok(answer_words::<P, KeptFiles<RealFiles<F>>, RealOut<O>>(
        rt.alloc(),
        usage,
        words.as_slice(),
        source,
        out,
    ))
}

/// Answers what the command line asks for, and gives the status: 5 is want of memory. Where there is no output, one line on standard error
/// says why; where a file is refused, what was found and what was wanted.
pub fn run<P: Program, R: Env + Files + Print + Eprint + AllocGlobal>(
    rt: &R,
    program: &str,
    usage: &[u8],
) -> ExitCode {
    let mut source = KeptFiles::new(rt.alloc(), RealFiles::new(rt));
    let mut out = RealOut::new(rt);
    let status = status_of::<P, R, &R, &R>(rt, usage, &mut source, &mut out).unwrap_or(5);
    say_why(rt, program, status, source.files(), &out);
    if status == 2 {
        P::say_refused(rt, rt.alloc(), program, source.kept());
    }
    ExitCode::from(status)
}
