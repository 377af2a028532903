//! What the program answers over files in memory: the status and what is written.
ghost use Rattle.std.specs.Prelude.{IsTrue};

use rl_io::{FixedSink, Gate, Sink, Source, SureFiles};
use rl_program::{offline, rmalock};
use std::alloc::{AllocError as OutOfMemory, Global};
use std::process::Abort;
use std::sync::Wait;
use std::thread::Threads;

/// The most bytes of an answer.
const MOST_BYTES: u32 = 65_536;

/// Files by their names.
pub(crate) type Files = Vec<(String, Vec<u8>)>;

pub(crate) const ONE_RANK: &str =
    "rmalock-place 1\nlevels 1\nlock spin\nshards 1\nbuckets 1\noverflow 0\nrank 0 at 0\nhome 0 0\nend\n";

pub(crate) const ONE_HOLD: &str = "rmalock-calls 1\n0 hold 0\nend\n";

pub(crate) const HELD_ONCE: &str =
    "rmalock-report 2\nreplay spin\nranks 1 shards 1\nshard 0 updates 0 entries 1\nentry 0 0 0 hold 0 = held\nevent 2 enter-w 0\nevent 4 leave-w 0\nrank 0 done 1 of 1\nsteps 9 moved 9 waiting 0 lost 0 busy 0 finished 0\nend\n";

/// The words of a line.
fn words(alloc: Global, line: &str) -> Result<Vec<String>, OutOfMemory> {
    let mut words = Vec::new(alloc);
    for word in line.split(' ') {
        words.push(String::from_str(alloc, word)?)?;
    }
    Ok(words)
}

/// Adds a file.
pub(crate) fn add_file(
    alloc: Global,
    files: &mut Files,
    name: &str,
    text: &[u8],
) -> Result<(), OutOfMemory> {
    let name = String::from_str(alloc, name)?;
    let text = Vec::from_slice(alloc, text)?;
    files.push((name, text))?;
    Ok(())
}

/// The files `p`, `c` and `r`.
pub(crate) fn three_files(
    alloc: Global,
    place: &[u8],
    calls: &[u8],
    rest: &[u8],
) -> Result<Files, OutOfMemory> {
    let mut files = Vec::new(alloc);
    add_file(alloc, &mut files, "p", place)?;
    add_file(alloc, &mut files, "c", calls)?;
    add_file(alloc, &mut files, "r", rest)?;
    Ok(files)
}

/// The status of what a line asks for, over these files and this sink.
pub(crate) fn status_alone<S: Source, K: Sink>(
    alloc: Global,
    line: &str,
    source: &mut S,
    out: &mut K,
) -> Result<u8, OutOfMemory>
    requires { (name : _) → IsTrue (S.may_open source.old name) }
{
    let line = words(alloc, line)?;
    Ok(offline(alloc, line.as_slice(), source, out))
}

/// The same with threads, and with a gate for what they do.
pub(crate) fn status_beside<S: Source, K: Sink, G: Gate, R: Threads + Wait + Sync + AllocGlobal>(
    rt: &R,
    line: &str,
    source: &mut S,
    out: &mut K,
    gate: &G,
) -> Result<u8, OutOfMemory>
    requires { (name : _) → IsTrue (S.may_open source.old name) }
{
    let line = words(rt.alloc(), line)?;
    Ok(rmalock(rt, rt.alloc(), line.as_slice(), source, out, gate))
}

/// The status and what is written of what a line asks for, over files and a sink that never fail.
pub(crate) fn answer_alone(
    alloc: Global,
    line: &str,
    files: Files,
) -> Result<(u8, FixedSink), OutOfMemory> {
    let mut source = SureFiles::new(files);
    let mut out = FixedSink::new(alloc, MOST_BYTES)?;
    let status = status_alone(alloc, line, &mut source, &mut out)?;
    Ok((status, out))
}

/// The same with threads, and with a gate for what they do.
pub(crate) fn answer_beside<G: Gate, R: Threads + Wait + Sync + AllocGlobal>(
    rt: &R,
    line: &str,
    files: Files,
    gate: &G,
) -> Result<(u8, FixedSink), OutOfMemory> {
    let mut source = SureFiles::new(files);
    let mut out = FixedSink::new(rt.alloc(), MOST_BYTES)?;
    let status = status_beside(rt, line, &mut source, &mut out, gate)?;
    Ok((status, out))
}

/// Looks that an answer has this status and this text.
pub(crate) fn look(rt: &impl Abort, answer: &(u8, FixedSink), status: u8, text: &str) {
    assert_eq!(rt; answer.0, status);
    assert_eq!(rt; answer.1.bytes(), text.as_bytes());
}
