//! What comes of a case, by the top call over its files in memory.
use crate::case::{Case, Wanted};
use rl_io::{FixedSink, MemFiles, OpenGate};
use rl_program::rmalock;
use std::alloc::AllocError as OutOfMemory;
use std::sync::Wait;
use std::thread::Threads;

/// The most bytes of an output that are looked at.
const MOST_LOOKED_AT: usize = 16_777_216;

/// The most bytes that a read of a file gives at once.
const PIECE: u32 = 4096;

/// A case that was tried: its name, what must come of it, and what came.
#[derive(Drop)]
pub struct Tried {
    pub name: String,
    pub wanted: Wanted,
    pub status: u8,
    pub output: FixedSink,
}

impl Tried {
    /// Whether what came is what must come.
    pub fn has_passed(&self) -> bool {
        self.wanted.is_met(self.status, self.output.bytes())
    }

    /// Where the output begins to differ from what must come: at this byte, or where the shorter one ends.
    pub fn place(&self) -> usize {
        let made = self.output.bytes();
        let wanted = self.wanted.output.as_slice();
        let differs = made.iter().zip(wanted).position(|pair| pair.0 != pair.1);
        differs.unwrap_or(made.len().min(wanted.len()))
    }
}

/// Does what a case asks for, over its files. A file that the case doesn't have can't be opened. The output has room for one byte more than
/// it must have, so that a longer one differs.
pub fn try_case<R: Threads + Wait + Sync + AllocGlobal>(
    rt: &R,
    case: Case,
) -> Result<Tried, OutOfMemory> {
    let Case {
        name,
        words,
        files,
        wanted,
    } = case;
    let alloc = rt.alloc();
    let room = wanted.output.len().min(MOST_LOOKED_AT) as u32 + 1;
    let mut output = FixedSink::new(alloc, room)?;
    let mut source = MemFiles::new(files, PIECE, Vec::new(alloc));
    let status = rmalock(
        rt,
        alloc,
        words.as_slice(),
        &mut source,
        &mut output,
        &OpenGate,
    );
    Ok(Tried {
        name,
        wanted,
        status,
        output,
    })
}
