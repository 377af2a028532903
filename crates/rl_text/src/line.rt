//! A line of a text.
ghost use Rattle.std.specs.Prelude.{◌≡◌};
ghost use Rattle.rl_text.specs.Rows.{row_of};
ghost use Rattle.rl_text.specs.Reading.{refusal_at};

use crate::causes::{Refusal, Why};

/// A line of a text, without its newline. Lines are counted from 1; `ended` says whether a newline ends the line.
#[derive(Clone, Copy)]
pub struct Line<'a> {
    pub text: &'a [u8],
    pub number: u32,
    pub ended: bool,
}

impl Line<'_> {
    /// The refusal of word n of this line, or of the whole line at 0.
    pub fn refusal(&self, n: u32, why: Why) -> Refusal
        ensures { result ≡ refusal_at (row_of self.now) n why }
    {
        Refusal {
            line: self.number,
            word: n,
            why,
        }
    }
}
