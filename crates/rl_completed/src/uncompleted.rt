//! Why a schedule isn't made complete, and the line that tells it.
ghost use Rattle.std.specs.Prelude.{◌≡◌, IfOk};
ghost use Rattle.rl_completed.specs.declared.uncompleted.Uncompleted.TheVariants.{Memory};
ghost use Rattle.rl_completed.specs.Completing.{reason_line};

use rl_text::put_number;
use std::alloc::{AllocError, AllocError as OutOfMemory, AllocFailed, Global};

/// Why there is no such schedule.
#[derive(Clone, Copy, PartialEq, Eq, Debug)]
pub enum Reason {
    /// A rank is stopped, in this line of the file for the first time. What it has it keeps, so there may be no way on.
    Stopped { line: u64 },
    /// It would have more steps than a schedule may have.
    Steps,
    /// Its text would have more bytes than a schedule file may have.
    Bytes,
}

/// What comes in place of a schedule that is complete.
#[derive(Clone, Copy, PartialEq, Eq, Debug)]
pub enum Uncompleted {
    /// There is none.
    Refused(Reason),
    /// Want of memory.
    Memory,
}

impl From<AllocError> for Uncompleted {
    ghost from_gives = { λ _ why. why ≡ Memory };

    fn from(_want: AllocError) -> Uncompleted {
        Uncompleted::Memory
    }
}

impl<T: Drop> From<AllocFailed<T>> for Uncompleted {
    ghost from_gives = { λ _ why. why ≡ Memory };

    fn from(_want: AllocFailed<T>) -> Uncompleted {
        Uncompleted::Memory
    }
}

/// The line that tells why a schedule file of this name isn't made complete: `refused NAME LINE 1 stop` with the line of the first stop,
/// `refused NAME 0 0 steps`, or `refused NAME 0 0 toolong` where it is the bytes. Refused itself only for want of memory.
pub fn reason_line(alloc: Global, name: &str, reason: Reason) -> Result<Vec<u8>, OutOfMemory>
    ensures { IfOk result (λ line. line.items ≡ reason_line name.now reason) }
{
    let mut out = Vec::from_slice(alloc, b"refused ")?;
    out.extend_from_slice(name.as_bytes())?;
    match reason {
        Reason::Stopped { line } => {
            out.push(b' ')?;
            put_number(&mut out, line)?;
            out.extend_from_slice(b" 1 stop\n")?;
        }
        Reason::Steps => out.extend_from_slice(b" 0 0 steps\n")?,
        Reason::Bytes => out.extend_from_slice(b" 0 0 toolong\n")?,
    }
    Ok(out)
}
