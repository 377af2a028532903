//! Files and sinks that fail at a given call, files at the edge of a limit, and the real ones.
ghost use Rattle.std.specs.Prelude.{◌≡◌, ◌++◌, ◌+◌, length, OnOk};
ghost use Rattle.rl_io.specs.Sinks.{HasRoom};

use rl_io::{
    Failed, FixedSink, Gate, MemFiles, MemSink, OpenGate, ReadErr, RealFiles, RealOut, SureFiles,
    read_file, write_all,
};
use std::alloc::AllocError as OutOfMemory;
use std::io::ErrorKind;
use std::sync::atomic::{AtomicU64, Ordering};
use std::test::*;

const REPORT: &[u8] = b"rmalock-report 1\n";

fn named(rt: &HostRuntime, name: &str, bytes: &[u8]) -> Result<(String, Vec<u8>), OutOfMemory> {
    let name = String::from_str(rt.alloc(), name)?;
    let bytes = Vec::from_slice(rt.alloc(), bytes)?;
    Ok((name, bytes))
}

fn three(rt: &HostRuntime) -> Result<Vec<(String, Vec<u8>)>, OutOfMemory> {
    let mut files = Vec::new(rt.alloc());
    files.push(named(rt, "p", b"spin")?)?;
    files.push(named(rt, "c", b"hold")?)?;
    files.push(named(rt, "s", b"0 9\n")?)?;
    Ok(files)
}

#[test]
fn each_call_fails_in_turn(rt: HostRuntime) -> Result<(), Fail> {
    // Each file takes three calls: it is opened, read, and read to its end.
    for number in 0..10u32 {
        let failing = Vec::from_slice(rt.alloc(), &[number])?;
        let mut source = MemFiles::new(three(&rt)?, 4096, failing);
        for (place, name) in [(0, "p"), (1, "c"), (2, "s")] {
            let read = read_file(rt.alloc(), &mut source, name, 4);
            assert_eq!(rt; read.is_err(), place == number / 3, "call {number}");
            if let Err(e) = read {
                assert_eq!(rt; e, ReadErr::Fault);
                break;
            }
        }
    }
    Ok(())
}

#[test]
fn files_at_the_limit(rt: HostRuntime) -> Result<(), Fail> {
    for (len, piece, max, fits) in [
        (0, 1, 0, true),
        (1, 1, 0, false),
        (4, 1, 4, true),
        (5, 1, 4, false),
        (5000, 4096, 5000, true),
        (5000, 4096, 4999, false),
        (5000, 7, 5000, true),
        (8192, 4096, 8192, true),
        (8193, 4096, 8192, false),
    ] {
        let mut files = Vec::new(rt.alloc());
        let name = String::from_str(rt.alloc(), "p")?;
        files.push((name, vec![in rt.alloc(); b'x'; len]?))?;
        let mut source = MemFiles::new(files, piece, Vec::new(rt.alloc()));
        let read = read_file(rt.alloc(), &mut source, "p", max);
        match read {
            Ok(bytes) => {
                assert!(rt; fits, "{len} of {max}");
                assert_eq!(rt; bytes.len(), len);
            }
            Err(e) => {
                assert!(rt; !fits, "{len} of {max}");
                assert_eq!(rt; e, ReadErr::TooLong { max });
            }
        }
    }
    Ok(())
}

#[test]
fn names_that_are_not_held(rt: HostRuntime) -> Result<(), Fail> {
    let mut source = MemFiles::new(three(&rt)?, 4096, Vec::new(rt.alloc()));
    assert_eq!(rt;
        read_file(rt.alloc(), &mut source, "q", 4).err(),
        Some(ReadErr::Fault)
    );
    let bytes = read_file(rt.alloc(), &mut source, "c", 4)?;
    assert_eq!(rt; bytes.as_slice(), b"hold".as_slice());
    let mut source = SureFiles::new(three(&rt)?);
    assert_eq!(rt; read_file(rt.alloc(), &mut source, "q", 4)?.len(), 0);
    let bytes = read_file(rt.alloc(), &mut source, "c", 4)?;
    assert_eq!(rt; bytes.as_slice(), b"hold".as_slice());
    Ok(())
}

#[test]
fn a_failed_write_leaves_a_front(rt: HostRuntime) -> Result<(), Fail> {
    for (number, left) in [(0, 0), (1, 4), (4, 16), (5, 17)] {
        let failing = Vec::from_slice(rt.alloc(), &[number])?;
        let mut sink = MemSink::new(rt.alloc(), 4096, 4, failing)?;
        assert_eq!(rt; write_all(&mut sink, REPORT).is_ok(), number == 5);
        assert!(rt; left <= REPORT.len());
        assert_eq!(rt; sink.bytes(), &REPORT[..left], "write {number}");
    }
    Ok(())
}

/// What a caller over any sink may conclude, here at a sink of a fixed size: where there is room, it has the whole text.
fn write_whole(sink: &mut FixedSink, text: &[u8]) -> Result<(), Failed>
    requires { HasRoom sink.old (length text.now) }
    ensures whole { OnOk result (sink.new.bytes ≡ sink.old.bytes ++ text.now) }
{
    write_all(sink, text)
}

#[test]
fn a_fixed_sink_keeps_the_first_bytes(rt: HostRuntime) -> Result<(), Fail> {
    let mut sink = FixedSink::new(rt.alloc(), 20)?;
    assert!(rt; write_whole(&mut sink, REPORT).is_ok());
    assert_eq!(rt; sink.bytes(), REPORT);
    assert!(rt; write_all(&mut sink, REPORT).is_ok());
    assert_eq!(rt; sink.bytes(), b"rmalock-report 1\nrma".as_slice());
    Ok(())
}

#[test]
fn real_files_and_the_real_output(rt: HostRuntime) -> Result<(), Fail> {
    let mut source = RealFiles::new(rt);
    assert_eq!(rt;
        read_file(rt.alloc(), &mut source, "/dev/null", 4)?.len(),
        0
    );
    assert_eq!(rt;
        read_file(rt.alloc(), &mut source, "/dev/zero", 9000).err(),
        Some(ReadErr::TooLong { max: 9000 })
    );
    assert!(rt; source.reason().is_none());
    assert_eq!(rt;
        read_file(rt.alloc(), &mut source, "/no/such/file", 4).err(),
        Some(ReadErr::Fault)
    );
    assert_eq!(rt; source.last_name(), Some("/no/such/file"));
    assert_eq!(rt;
        source.reason().map(|it| it.kind()),
        Some(ErrorKind::NotFound)
    );
    let mut out = RealOut::new(rt);
    assert!(rt; write_all(&mut out, REPORT).is_ok());
    Ok(())
}

#[derive(Drop)]
struct Counting {
    before: AtomicU64,
    after: AtomicU64,
}

impl Gate for Counting {
    fn before(&self, rank: u32, call: u32) {
        let told = u64::from(rank) * 10 + u64::from(call);
        let _ = self.before.fetch_add(told, Ordering::SeqCst);
    }

    fn after(&self, rank: u32, answer: u32) {
        let told = u64::from(rank) * 10 + u64::from(answer);
        let _ = self.after.fetch_add(told, Ordering::SeqCst);
    }
}

fn one_call<G: Gate>(gate: &G) {
    gate.before(3, 4);
    gate.after(3, 1);
    gate.after(3, 5);
}

#[test]
fn a_gate_is_told_of_calls_and_steps(rt: HostRuntime) {
    one_call(&OpenGate);
    let gate = Counting {
        before: AtomicU64::new(0),
        after: AtomicU64::new(0),
    };
    one_call(&gate);
    assert_eq!(rt; gate.before.load(Ordering::SeqCst), 34);
    assert_eq!(rt; gate.after.load(Ordering::SeqCst), 66);
}
