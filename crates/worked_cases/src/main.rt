//! Tries worked cases: command lines with their files, and the status and the output that must come of each.
//!
//! `worked_cases FILE..` reads the cases of each file (`reading.rt`; CASES in `docs/` has the form), does what they ask for by the top call of
//! `rl_program` over the case's files in memory (`trying.rt`), and compares status and bytes (`case.rt`). It prints a line for each case
//! that differs, one for each file, and a closing one; it ends with status 1 where a case differs or no case was there.
//!
//! Proved: that it is safe and reads any file, and that a case passes exactly where status and bytes are those that must come.
#![tactic(auto)]

mod case;
mod reading;
mod trying;

use crate::reading::read_cases;
use crate::trying::{Tried, try_case};
use rl_inputs::words;
use rl_io::{RealFiles, read_file};
use std::process::ExitCode;
use std::rt::{Env, Files};
use std::sync::Wait;
use std::thread::Threads;

/// The most bytes that a file of cases may have.
const MOST_BYTES: u32 = 16_777_216;

/// How many cases passed, and how many failed.
#[derive(Clone, Copy)]
struct Tally {
    passed: u64,
    failed: u64,
}

impl Tally {
    /// One case more.
    fn with(self, has_passed: bool) -> Tally {
        Tally {
            passed: self.passed.saturating_add(u64::from(has_passed)),
            failed: self.failed.saturating_add(u64::from(!has_passed)),
        }
    }

    /// Both together.
    fn and(self, other: Tally) -> Tally {
        Tally {
            passed: self.passed.saturating_add(other.passed),
            failed: self.failed.saturating_add(other.failed),
        }
    }
}

const NONE: Tally = Tally {
    passed: 0,
    failed: 0,
};

/// Says of a case that failed what came of it.
fn say_fault(rt: &impl Print, file: &str, tried: &Tried) -> anyhow::Result<()> {
    let (name, status, place) = (&tried.name, tried.status, tried.place());
    match tried.wanted.status {
        Some(wanted) => {
            println!(rt;
                "{file}: case {name}: status {status}, wanted {wanted}; the output differs at byte {place}"
            )?
        }
        None => println!(rt; "{file}: case {name}: no status is told")?,
    }
    Ok(())
}

/// Tries all cases of a file.
fn try_file<R: Threads + Wait + Sync + Print + AllocGlobal>(
    rt: &R,
    file: &str,
    bytes: &[u8],
) -> anyhow::Result<Tally> {
    let mut tally = NONE;
    for case in read_cases(rt.alloc(), bytes)? {
        let tried = try_case(rt, case)?;
        let has_passed = tried.has_passed();
        if !has_passed {
            say_fault(rt, file, &tried)?;
        }
        tally = tally.with(has_passed);
    }
    Ok(tally)
}

/// Tries the cases of all files that the command line names.
fn try_files<R: Threads + Wait + Sync + Env + Print + AllocGlobal, F: Files + AllocGlobal + Drop>(
    rt: &R,
    source: &mut RealFiles<F>,
) -> anyhow::Result<Tally> {
    let mut all = NONE;
    for file in words(rt)? {
        let bytes = read_file(rt.alloc(), source, file.as_str(), MOST_BYTES)?;
        let tally = try_file(rt, file.as_str(), bytes.as_slice())?;
        match tally.failed {
            0 => println!(rt; "{file} {} passed", tally.passed)?,
            failed => println!(rt; "{file} {} passed, {failed} failed", tally.passed)?,
        }
        all = all.and(tally);
    }
    println!(rt; "{} passed, {} failed", all.passed, all.failed)?;
    Ok(all)
}

/// Tries them all; status 1 where one failed, where there was none, and where a file couldn't be read.
fn main(rt: HostRuntime) -> anyhow::Result<ExitCode> {
    let mut source = RealFiles::new(&rt);
    let all = try_files(&rt, &mut source)?;
    let is_good = all.failed == 0 && all.passed > 0;
    Ok(ExitCode::from(if is_good { 0 } else { 1 }))
}
