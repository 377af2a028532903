//! Files that are read whole, and texts that are written whole.
ghost use Rattle.std.specs.Prelude.{◌≡◌, ◌≤◌, ◌<◌, ◌+◌, ℕ, List, [], ◌++◌, ◌⊎◌, Some, length, take, IfOk, OnOk, OnErr, IsErrOf, IsTrue};
ghost use Rattle.rl_io.specs.Outside.{Appends, GoesOn, Gave, IsTail, IsWholeWithin, IsLonger, SameFiles};
ghost use Rattle.rl_io.specs.Whole.{RisesWithFault, is_fault};

use crate::outside::{Failed, Sink, Source};
use std::alloc::{AllocError, Global};
use thiserror::Error;

/// Why a file couldn't be read whole.
#[derive(Clone, Copy, Debug, PartialEq, Eq, Error)]
pub enum ReadErr {
    /// The source failed, to open the file or to read it.
    #[error("the file can't be opened or read")]
    Fault,
    /// The file has more bytes than the most that were allowed.
    #[error("the file has more than {max} bytes")]
    TooLong { max: u32 },
    /// Memory ran out.
    #[error("out of memory")]
    Memory,
}

impl From<Failed> for ReadErr {
    ghost use Rattle.rl_io.specs.declared.whole.ReadErr.TheVariants.{Fault};

    ghost from_gives = { λ _ e. e ≡ Fault };

    fn from(_e: Failed) -> ReadErr {
        ReadErr::Fault
    }
}

impl From<AllocError> for ReadErr {
    ghost use Rattle.rl_io.specs.declared.whole.ReadErr.TheVariants.{Memory};

    ghost from_gives = { λ _ e. e ≡ Memory };

    fn from(_e: AllocError) -> ReadErr {
        ReadErr::Memory
    }
}

/// Writes all of a text, piece by piece, and takes no memory. After a fault a front of the text was
/// written. A sink that would tell its bytes through the text and some more still tells them, either way.
pub fn write_all<K: Sink>(sink: &mut K, text: &[u8]) -> Result<(), Failed>
    ensures all { OnOk result (Appends (K.written sink.old) text.now (K.written sink.new)) }
    ensures front { OnErr result ((n : ℕ) × (n ≤ length text.now) × Appends (K.written sink.old) (take n text.now) (K.written sink.new)) }
    ensures goes_on { GoesOn K.tells_on sink.old (length text.now) sink.new }
    ensures quiet { OnOk result (K.faults sink.new ≡ K.faults sink.old) }
    ensures risen { OnErr result (K.faults sink.old < K.faults sink.new) }
{
    let mut at = 0;
    while at < text.len() {
        at += sink.write(&text[at..])?;
    }
    Ok(())
}

// The most bytes that are read at once.
const MOST_AT_ONCE: usize = 4096;

// Reads at most `room` bytes, and appends them.
fn read_piece<S: Source>(source: &mut S, bytes: &mut Vec<u8>, room: usize) -> Result<usize, ReadErr>
    requires { (0 < room) × (room ≤ MOST_AT_ONCE) }
    ensures ok { IfOk result (λ n. (n ≤ room) × ((piece : List ℕ) × (length piece ≡ n) × (bytes.new.items ≡ bytes.old.items ++ piece)
        × Gave (S.left source.old) piece (S.left source.new))) }
    ensures tail { OnErr result (IsTail (S.left source.old) (S.left source.new)) }
    ensures faults { RisesWithFault is_fault result (S.faults source.old) (S.faults source.new) }
    ensures no_limit { (max : ℕ) → IsErrOf result (ReadErr.TooLong max) → ⊥ }
    ensures same { SameFiles S.file S.may_open source.old source.new }
{
    let mut buf = [0u8; MOST_AT_ONCE];
    let n = source.read(&mut buf[..room])?;
    bytes.extend_from_slice(&buf[..n])?;
    Ok(n)
}

/// Reads a file whole, if it has at most `max` bytes.
///
/// The file is opened and read in pieces of at most 4096 bytes, never past `max + 1`. `Fault` comes
/// exactly where the source's count of faults rose. `TooLong` comes exactly where the source gave
/// `max + 1` bytes. What is then left is what was not read.
pub fn read_file<S: Source>(
    alloc: Global,
    source: &mut S,
    name: &str,
    max: u32,
) -> Result<Vec<u8>, ReadErr>
    requires { IsTrue (S.may_open source.old name.now) }
    ensures whole { IfOk result (λ bytes. IsWholeWithin max (S.file source.old name.now) bytes.items (S.left source.new)) }
    ensures too_long { (limit : ℕ) → IsErrOf result (ReadErr.TooLong limit) →
        (limit ≡ max) × IsLonger (S.file source.old name.now) max (S.left source.new) }
    ensures faults { RisesWithFault is_fault result (S.faults source.old) (S.faults source.new) }
    // After an error the rest of the file is left, or no file is open.
    ensures tail { OnErr result (IsTail (S.file source.old name.now) (S.left source.new) ⊎ (S.left source.new ≡ Some [])) }
    ensures same { SameFiles S.file S.may_open source.old source.new }
{
    source.open_file(name)?;
    let most = max as usize + 1;
    let mut bytes = Vec::new(alloc);
    while bytes.len() < most {
        let room = (most - bytes.len()).min(MOST_AT_ONCE);
        if read_piece(source, &mut bytes, room)? == 0 {
            return Ok(bytes);
        }
    }
    Err(ReadErr::TooLong { max })
}
