//! What ends the reading of files early, and the line that refuses one.
ghost use Rattle.std.specs.Prelude.{◌≡◌, false, IfOk};
ghost use Rattle.rl_inputs.specs.declared.stop.Stop.TheVariants.{Memory};
ghost use Rattle.rl_inputs.specs.Reading.{IsRefusal, IsStoppedBy, refused_at, refused_whole, stopped_by_fault};

use rl_text::{Refusal, TextErr, put_refusal};
use std::alloc::{AllocError, AllocFailed, Global};

/// What ends the reading of files early.
#[derive(Drop)]
pub enum Stop {
    /// A file is refused, by this line.
    Refused(Vec<u8>),
    /// A file could not be opened or read.
    Fault,
    /// Want of memory.
    Memory,
}

impl From<AllocError> for Stop {
    ghost from_gives = { λ _ stop. stop ≡ Memory };

    fn from(_want: AllocError) -> Stop {
        Stop::Memory
    }
}

impl<T: Drop> From<AllocFailed<T>> for Stop {
    ghost from_gives = { λ _ stop. stop ≡ Memory };

    fn from(_want: AllocFailed<T>) -> Stop {
        Stop::Memory
    }
}

/// `refused NAME LINE WORD WHY`: the line that refuses a file for the first fault of its text.
fn refused_at(alloc: Global, name: &str, refusal: Refusal) -> Result<Vec<u8>, AllocError>
    ensures { IfOk result (λ line. line.items ≡ refused_at name.now refusal) }
{
    let mut line = Vec::from_slice(alloc, b"refused ")?;
    line.extend_from_slice(name.as_bytes())?;
    line.push(b' ')?;
    put_refusal(&mut line, refusal)?;
    line.push(b'\n')?;
    Ok(line)
}

/// `refused NAME 0 0 CAUSE`: the line that refuses a file as a whole.
fn refused_whole(alloc: Global, name: &str, cause: &str) -> Result<Vec<u8>, AllocError>
    ensures { IfOk result (λ line. line.items ≡ refused_whole name.now cause.now) }
{
    let mut line = Vec::from_slice(alloc, b"refused ")?;
    line.extend_from_slice(name.as_bytes())?;
    line.extend_from_slice(b" 0 0 ")?;
    line.extend_from_slice(cause.as_bytes())?;
    line.push(b'\n')?;
    Ok(line)
}

/// Refuses the file of this name as a whole, for this cause.
pub fn refuse(alloc: Global, name: &str, cause: &str) -> Stop
    ensures line { IsRefusal result (refused_whole name.now cause.now) }
    ensures no_fault { stopped_by_fault result ≡ false }
{
    match refused_whole(alloc, name, cause) {
        Ok(line) => Stop::Refused(line),
        Err(AllocError) => Stop::Memory,
    }
}

/// What the reader of a text gave in place of a value, as what ends the reading of the file of this name.
pub fn stopped(alloc: Global, name: &str, error: TextErr) -> Stop
    ensures by { IsStoppedBy name.now error result }
    ensures no_fault { stopped_by_fault result ≡ false }
{
    match error {
        TextErr::Refused(refusal) => match refused_at(alloc, name, refusal) {
            Ok(line) => Stop::Refused(line),
            Err(AllocError) => Stop::Memory,
        },
        TextErr::Memory => Stop::Memory,
    }
}
