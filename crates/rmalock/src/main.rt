//! The program: the command line, the files and the output of the machine that it runs on, given to `rl_program`. The rest are its tests.
#![tactic(auto)]

#[cfg(test)]
mod answers;
#[cfg(test)]
mod callers;
#[cfg(test)]
mod check_tests;
#[cfg(test)]
mod generating_tests;
#[cfg(test)]
mod library_tests;
#[cfg(test)]
mod lock_tests;
#[cfg(test)]
mod report_tests;
#[cfg(test)]
mod robust_tests;
#[cfg(test)]
mod run_tests;
#[cfg(test)]
mod schedules;
#[cfg(test)]
mod seat_tests;
#[cfg(test)]
mod signs;
#[cfg(test)]
mod trials;
#[cfg(test)]
mod way_tests;

use rl_explain::{KeptFiles, Third, say_refusal};
use rl_inputs::{say_why, words};
use rl_io::{OpenGate, RealFiles, RealOut};
use rl_program::rmalock;
use rl_verdicts::say_verdict;
use std::alloc::AllocError as OutOfMemory;
use std::process::ExitCode;
use std::rt::{Env, Files};
use std::sync::Wait;
use std::thread::Threads;

/// The status of what the command line asks for.
fn run<
    R: Threads + Wait + Sync + Env + AllocGlobal,
    F: Files + AllocGlobal + Drop,
    P: Print + Drop,
>(rt: &R, source: &mut KeptFiles<RealFiles<F>>, out: &mut RealOut<P>) -> Result<u8, OutOfMemory> {
    let words = words(rt)?;
    Ok(rmalock(rt, rt.alloc(), words.as_slice(), source, out, &OpenGate))
}

/// What the third file is that the command line names.
fn third_file(rt: &(impl Env + AllocGlobal)) -> Third {
    let Ok(words) = words(rt) else {
        return Third::Schedule;
    };
    match words.as_slice() {
        [verb, ..] if verb.as_str() == "check" => Third::Report,
        _ => Third::Schedule,
    }
}

/// Does what the command line asks for, and ends with its status: 5 is want of memory. Where there is no output, one line on
/// standard error says why; where a file is refused, what was found and what was wanted;
/// where a report isn't legal, what was told and what was due.
fn main(rt: HostRuntime) -> ExitCode {
    let mut source = KeptFiles::new(rt.alloc(), RealFiles::new(&rt));
    let mut out = RealOut::new(&rt);
    let status = run(&rt, &mut source, &mut out).unwrap_or(5);
    say_why(&rt, "rmalock", status, source.files(), &out);
    match status {
        2 => say_refusal(&rt, rt.alloc(), "rmalock", third_file(&rt), source.kept()),
        6 => say_verdict(&rt, rt.alloc(), "rmalock", source.kept()),
        _ => {}
    }
    ExitCode::from(status)
}
