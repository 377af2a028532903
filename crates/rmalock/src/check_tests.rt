//! Checks of reports, with threads and without.

use crate::answers::{
    HELD_ONCE, ONE_HOLD, ONE_RANK, answer_alone, answer_beside, look, three_files,
};
use rl_io::OpenGate;
use std::alloc::AllocError as OutOfMemory;
use std::process::Abort;
use std::sync::Wait;
use std::thread::Threads;

const TWO_RANKS: &str =
    "rmalock-place 1\nlevels 1\nlock spin\nshards 1\nbuckets 1\noverflow 0\nrank 0 at 0\nrank 1 at 0\nhome 0 0\nend\n";

const TWO_HOLDS: &str = "rmalock-calls 1\n0 hold 0\n1 hold 0\nend\n";

/// A second writer enters beside the first.
const TWO_WRITERS: &str =
    "rmalock-report 2\nreplay spin\nranks 2 shards 1\nshard 0 updates 0 entries 0\nevent 5 enter-w 0\nevent 9 enter-w 1\nrank 0 done 0 of 1\nrank 1 done 0 of 1\nsteps 10 moved 10 waiting 0 lost 0 busy 0 finished 0\nend\n";

/// A placement, calls and a report.
#[derive(Clone, Copy)]
struct Texts<'a> {
    place: &'a str,
    calls: &'a str,
    report: &'a [u8],
}

/// Looks that a check without threads gives this status and this text.
fn look_alone<R: AllocGlobal + Abort>(
    rt: &R,
    texts: &Texts<'_>,
    status: u8,
    text: &str,
) -> Result<(), OutOfMemory> {
    let alloc = rt.alloc();
    let (place, calls) = (texts.place.as_bytes(), texts.calls.as_bytes());
    let files = three_files(alloc, place, calls, texts.report)?;
    look(
        rt,
        &answer_alone(alloc, "check p c r", files)?,
        status,
        text,
    );
    Ok(())
}

/// The same of a check that may have threads.
fn look_beside<R: Threads + Wait + Sync + AllocGlobal + Abort>(
    rt: &R,
    texts: &Texts<'_>,
    status: u8,
    text: &str,
) -> Result<(), OutOfMemory> {
    let (place, calls) = (texts.place.as_bytes(), texts.calls.as_bytes());
    let files = three_files(rt.alloc(), place, calls, texts.report)?;
    look(
        rt,
        &answer_beside(rt, "check p c r", files, &OpenGate)?,
        status,
        text,
    );
    Ok(())
}

/// Looks that both give this status and this text.
fn look_checked<R: Threads + Wait + Sync + AllocGlobal + Abort>(
    rt: &R,
    texts: Texts<'_>,
    status: u8,
    text: &str,
) -> Result<(), OutOfMemory> {
    look_alone(rt, &texts, status, text)?;
    look_beside(rt, &texts, status, text)
}

/// Looks that a check finds this report legal.
pub(crate) fn look_legal<R: Threads + Wait + Sync + AllocGlobal + Abort>(
    rt: &R,
    place: &str,
    calls: &str,
    report: &[u8],
) -> Result<(), OutOfMemory> {
    look_checked(
        rt,
        Texts {
            place,
            calls,
            report,
        },
        0,
        "legal\n",
    )
}

/// A legal report, one that isn't legal, and one that is none.
#[test]
fn checks_with_threads_and_without(rt: HostRuntime) -> Result<(), OutOfMemory> {
    look_legal(&rt, ONE_RANK, ONE_HOLD, HELD_ONCE.as_bytes())?;
    let two_writers = Texts {
        place: TWO_RANKS,
        calls: TWO_HOLDS,
        report: TWO_WRITERS.as_bytes(),
    };
    look_checked(&rt, two_writers, 6, "illegal shard 0 1 events\n")?;
    let empty = Texts {
        place: ONE_RANK,
        calls: ONE_HOLD,
        report: b"",
    };
    look_checked(&rt, empty, 2, "refused r 1 0 noend\n")
}
