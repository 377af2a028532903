//! Reads and writes that fail, and files as long as they may be.
ghost use Rattle.std.specs.Prelude.{◌≤◌};

use crate::answers::{
    Files, HELD_ONCE, ONE_HOLD, ONE_RANK, add_file, answer_alone, look, status_alone,
    status_beside, three_files,
};
use rl_io::{FixedSink, MemFiles, MemSink, OpenGate, SureFiles};
use std::alloc::{AllocError as OutOfMemory, Global};
use std::process::Abort;
use std::sync::Wait;
use std::thread::Threads;

const REPLAY: &str = "replay p c r";

const RUN: &str = "run p c";

const RUN_ONCE: &str =
    "rmalock-report 2\nrun spin\nranks 1 shards 1\nshard 0 updates 0 entries 1\nentry 0 0 0 hold 0 = held\nrank 0 done 1 of 1\nend\n";

/// A placement of one rank, its hold, and nine steps.
fn held(alloc: Global) -> Result<Files, OutOfMemory> {
    let schedule = b"rmalock-schedule 1\n0 9\nend\n";
    three_files(alloc, ONE_RANK.as_bytes(), ONE_HOLD.as_bytes(), schedule)
}

/// These files, which give at most `piece` bytes a read, and whose call of this number fails.
fn failing(alloc: Global, piece: u32, number: u32) -> Result<MemFiles, OutOfMemory>
    requires { 1 ≤ piece }
{
    let numbers = Vec::from_slice(alloc, &[number])?;
    Ok(MemFiles::new(held(alloc)?, piece, numbers))
}

/// The status and the text of a replay over files that may fail.
fn replay_over(alloc: Global, mut source: MemFiles) -> Result<(u8, FixedSink), OutOfMemory> {
    let mut out = FixedSink::new(alloc, 4096)?;
    let status = status_alone(alloc, REPLAY, &mut source, &mut out)?;
    Ok((status, out))
}

/// The same of a run.
fn run_over<R: Threads + Wait + Sync + AllocGlobal>(
    rt: &R,
    mut source: MemFiles,
) -> Result<(u8, FixedSink), OutOfMemory> {
    let mut out = FixedSink::new(rt.alloc(), 4096)?;
    let status = status_beside(rt, RUN, &mut source, &mut out, &OpenGate)?;
    Ok((status, out))
}

/// Looks that a read fault ended what was asked for, and nothing was written.
fn look_at_fault(rt: &impl Abort, answer: &(u8, FixedSink), number: u32) {
    assert!(rt;
        answer.0 == 3 && answer.1.bytes().is_empty(),
        "call {number}"
    );
}

/// Each file is opened, read, and read to its end, so a replay makes nine calls and a run six.
#[test]
fn a_read_fails_at_each_place(rt: HostRuntime) -> Result<(), OutOfMemory> {
    let alloc = rt.alloc();
    for number in 0..9u32 {
        look_at_fault(
            &rt,
            &replay_over(alloc, failing(alloc, 4096, number)?)?,
            number,
        );
    }
    for number in 0..6u32 {
        look_at_fault(&rt, &run_over(&rt, failing(alloc, 4096, number)?)?, number);
    }
    Ok(())
}

/// The files come byte by byte, where each has more bytes than one call gives; or no call of that number is made.
#[test]
fn reads_that_do_not_fail(rt: HostRuntime) -> Result<(), OutOfMemory> {
    let alloc = rt.alloc();
    look(
        &rt,
        &replay_over(alloc, failing(alloc, 1, 4096)?)?,
        0,
        HELD_ONCE,
    );
    look(
        &rt,
        &replay_over(alloc, failing(alloc, 4096, 9)?)?,
        0,
        HELD_ONCE,
    );
    look(&rt, &run_over(&rt, failing(alloc, 4096, 6)?)?, 0, RUN_ONCE);
    Ok(())
}

/// A sink that takes four bytes a write, and whose write of this number fails.
fn failing_sink(alloc: Global, number: u32) -> Result<MemSink, OutOfMemory> {
    let numbers = Vec::from_slice(alloc, &[number])?;
    MemSink::new(alloc, 4096, 4, numbers)
}

/// The status of a replay into a sink, and what is written.
fn replay_into(alloc: Global, mut out: MemSink) -> Result<(u8, MemSink), OutOfMemory> {
    let mut source = SureFiles::new(held(alloc)?);
    let status = status_alone(alloc, REPLAY, &mut source, &mut out)?;
    Ok((status, out))
}

/// The same of a run.
fn run_into<R: Threads + Wait + Sync + AllocGlobal>(
    rt: &R,
    mut out: MemSink,
) -> Result<(u8, MemSink), OutOfMemory> {
    let mut source = SureFiles::new(held(rt.alloc())?);
    let status = status_beside(rt, RUN, &mut source, &mut out, &OpenGate)?;
    Ok((status, out))
}

/// Looks that a text was written up to the write of this number, which failed, if there is one.
fn look_at_front(rt: &impl Abort, made: &(u8, MemSink), number: u32, text: &str) {
    let whole = text.as_bytes();
    let written = made.1.bytes();
    let left = 4 * number as usize;
    assert!(rt;
        made.0 == if left < whole.len() { 4 } else { 0 },
        "write {number}"
    );
    assert!(rt; written.len() == left.min(whole.len()), "write {number}");
    assert!(rt; whole.starts_with(written), "write {number}");
}

/// What was written before stays. The report of the replay has 210 bytes, which are 53 writes, and that of the run 120.
#[test]
fn a_write_fails_at_each_place(rt: HostRuntime) -> Result<(), OutOfMemory> {
    let alloc = rt.alloc();
    assert!(rt; HELD_ONCE.len() == 210 && RUN_ONCE.len() == 120);
    for number in 0..54u32 {
        let made = replay_into(alloc, failing_sink(alloc, number)?)?;
        look_at_front(&rt, &made, number, HELD_ONCE);
    }
    for number in 0..31u32 {
        let made = run_into(&rt, failing_sink(alloc, number)?)?;
        look_at_front(&rt, &made, number, RUN_ONCE);
    }
    Ok(())
}

/// Looks that a calls file of so many newlines is refused with this line.
fn look_at_newlines<R: AllocGlobal + Abort>(
    rt: &R,
    count: usize,
    refusal: &str,
) -> Result<(), OutOfMemory> {
    let alloc = rt.alloc();
    let newlines = vec![in alloc; b'\n'; count]?;
    let mut files = Vec::new(alloc);
    add_file(alloc, &mut files, "p", ONE_RANK.as_bytes())?;
    add_file(alloc, &mut files, "c", newlines.as_slice())?;
    look(rt, &answer_alone(alloc, REPLAY, files)?, 2, refusal);
    Ok(())
}

/// A calls file of nothing but newlines, as long as it may be, and one byte longer.
#[test]
fn files_at_their_limit(rt: HostRuntime) -> Result<(), OutOfMemory> {
    look_at_newlines(&rt, 4_194_304, "refused c 1 1 word\n")?;
    look_at_newlines(&rt, 4_194_305, "refused c 0 0 toolong\n")
}
