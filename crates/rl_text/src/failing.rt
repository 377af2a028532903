//! The error of a reader: the text is refused, or memory ran out.
ghost use Rattle.std.specs.Prelude.{◌≡◌};
ghost use Rattle.rl_text.specs.declared.failing.TextErr.TheVariants.{Memory, Refused};

use crate::causes::Refusal;
use std::alloc::{AllocError, AllocFailed};
use thiserror::Error;

/// Why a reader gave no value.
#[derive(Debug, Drop, Error)]
pub enum TextErr {
    /// The text is outside the grammar, and this is its first fault.
    #[error("line {}, word {}: {}", .0.line, .0.word, .0.why)]
    Refused(Refusal),
    /// Memory ran out.
    #[error("out of memory")]
    Memory,
}

impl From<Refusal> for TextErr {
    ghost from_gives = { λ refusal e. e ≡ Refused refusal };

    fn from(refusal: Refusal) -> TextErr {
        TextErr::Refused(refusal)
    }
}

impl From<AllocError> for TextErr {
    ghost from_gives = { λ _ e. e ≡ Memory };

    fn from(_e: AllocError) -> TextErr {
        TextErr::Memory
    }
}

impl<T: Drop> From<AllocFailed<T>> for TextErr {
    ghost from_gives = { λ _ e. e ≡ Memory };

    fn from(_e: AllocFailed<T>) -> TextErr {
        TextErr::Memory
    }
}
