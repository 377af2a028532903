//! The lines of a text one after the other.
ghost use Rattle.std.specs.Prelude.{◌≡◌, ◌<◌, ◌+◌, [], ◌∷◌, length, drop, MatchResult, OnOk, Ok, Err, IfSome};
ghost use Rattle.std.specs.Option.{MatchOption};
ghost use Rattle.rl_text.specs.Rows.{Left, row_of, rows_from};
ghost use Rattle.rl_text.specs.Short.{pair_row};
ghost use Rattle.rl_text.specs.Reading.{next_row, next_left, next_begins, end_at, seen, Leaves};

use crate::causes::{Refusal, Why};
use crate::cutting::cut;
use crate::line::Line;
use crate::short::short_line;
use std::marker::Model;

/// A text has fewer bytes than this, so that each of its lines and each word of a line has a number.
pub const TEXT_LIMIT: u32 = u32::MAX;

/// The lines of a text that are still to be read, and how many were read before them.
#[derive(Drop)]
pub struct Lines<'a> {
    rest: &'a [u8],
    read: u32,
}

impl<'a> Model for Lines<'a> {
    ghost use Rattle.std.specs.Prelude.{◌+◌, ◌<◌, length};
    ghost use Rattle.rl_text.specs.Rows.{Left, rows_from};
    ghost use Rattle.rl_text.specs.declared.lines.TheConstants.{TEXT_LIMIT};

    ghost Value = { Left };

    ghost view = { λ l. record { rows = rows_from (l.read + 1) l.rest.now; read = l.read } };

    ghost invariant = { λ l. l.read + length l.rest.now < TEXT_LIMIT };
}

impl<'a> Lines<'a> {
    /// Stands before the first line. The text has fewer than [`TEXT_LIMIT`] bytes.
    pub fn new(bytes: &'a [u8]) -> Lines<'a>
        requires { length bytes.now < TEXT_LIMIT }
        ensures { result ≡ record { rows = rows_from 1 bytes.now; read = 0 } }
    {
        Lines {
            rest: bytes,
            read: 0,
        }
    }

    /// The next line without its newline; `None` exactly at the end of the text.
    pub fn next_line(&mut self) -> Option<Line<'a>>
        ensures next { MatchOption result (self.old.rows ≡ []) (λ line. self.old.rows ≡ row_of line ∷ self.new.rows) }
        ensures read { MatchOption result (self.new ≡ self.old) (λ _. self.new.read ≡ self.old.read + 1) }
    {
        if self.rest.is_empty() {
            return None;
        }
        self.read += 1;
        let number = self.read;
        match cut(self.rest, b'\n') {
            Some((text, after)) => {
                self.rest = after;
                Some(Line {
                    text,
                    number,
                    ended: true,
                })
            }
            None => {
                let text = self.rest;
                self.rest = &[];
                Some(Line {
                    text,
                    number,
                    ended: false,
                })
            }
        }
    }

    /// The bytes that are still to be read.
    #[inline(always)]
    pub fn front(&self) -> &'a [u8]
        ensures rows { self.now.rows ≡ rows_from (self.now.read + 1) result.now }
        ensures few { self.now.read + length result.now < TEXT_LIMIT }
    {
        self.rest
    }

    /// Passes the next line, after which these bytes are still to be read.
    #[inline(always)]
    pub fn pass(&mut self, rest: &'a [u8])
        requires few { self.old.read + 1 + length rest.now < TEXT_LIMIT }
        requires there { drop 1 self.old.rows ≡ rows_from (self.old.read + 2) rest.now }
        ensures rows { self.new.rows ≡ drop 1 self.old.rows }
        ensures read { self.new.read ≡ self.old.read + 1 }
    {
        self.read += 1;
        self.rest = rest;
    }

    /// Takes the next line where it is two numbers of at most two digits each, the first below `first` and the second below
    /// `second`. `None` takes nothing, and says nothing of the line. This is quicker than word by word, since it looks for no
    /// ends.
    #[inline(always)]
    pub fn short_pair(&mut self, first: u32, second: u32) -> Option<(u32, u32)>
        ensures pair { IfSome result (λ p. self.old.rows ≡ pair_row (self.old.read + 1) p.0 p.1 ∷ self.new.rows) }
        ensures small { IfSome result (λ p. (p.0 < first) × (p.1 < second)) }
        ensures read { MatchOption result (self.new ≡ self.old) (λ _. self.new.read ≡ self.old.read + 1) }
    {
        let (a, b, after) = short_line(self.rest)?;
        if a < first && b < second {
            self.read += 1;
            self.rest = after;
            Some((a, b))
        } else {
            None
        }
    }

    /// The next line, which has to be there and to be ended by a newline. NoEnd otherwise: of that line, or of the line
    /// after the last one.
    #[tactic(auto, unfolding(crate::specs::Reading::next_left, crate::specs::Reading::next_row, crate::specs::Reading::whole))]
    pub fn next_whole(&mut self) -> Result<Line<'a>, Refusal>
        ensures next { MatchResult result (λ line. next_row self.old.read self.old.rows ≡ Ok (row_of line, self.new.rows))
            (λ refusal. next_row self.old.read self.old.rows ≡ Err refusal) }
        ensures leaves { Leaves (seen row_of result) self.new (next_left self.old) }
        ensures read { OnOk result (self.new.read ≡ self.old.read + 1) }
        ensures fewer { OnOk result (length self.new.rows < length self.old.rows) }
    {
        let number = self.read + 1;
        match self.next_line() {
            None => Err(Refusal {
                line: number,
                word: 0,
                why: Why::NoEnd,
            }),
            Some(line) => {
                if line.ended {
                    Ok(line)
                } else {
                    Err(line.refusal(0, Why::NoEnd))
                }
            }
        }
    }

    /// Whether the next line is there and begins with this word. It isn't taken.
    pub fn next_begins(&self, text: &[u8]) -> bool
        ensures { result ≡ next_begins self.now.rows text.now }
    {
        let mut ahead = Lines {
            rest: self.rest,
            read: self.read,
        };
        match ahead.next_line() {
            Some(line) => line.begins(text),
            None => false,
        }
    }

    /// `line` is the last line: it has no second word, and nothing follows it. Extra otherwise.
    #[tactic(auto, unfolding(crate::specs::Reading::end_at, crate::specs::Reading::no_row))]
    pub fn end(&mut self, line: &Line<'_>) -> Result<(), Refusal>
        ensures { result ≡ end_at (row_of line.now) self.old.rows }
    {
        line.words_from(2).no_more()?;
        match self.next_line() {
            None => Ok(()),
            Some(more) => Err(more.refusal(0, Why::Extra)),
        }
    }
}
