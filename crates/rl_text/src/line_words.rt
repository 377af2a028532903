//! The words of a line one after the other: what reads words. Each is looked for where the one before it ended.
ghost use Rattle.std.specs.Prelude.{◌≡◌, ◌≤◌, ◌<◌, ◌-◌, IfOk};
ghost use Rattle.std.specs.Option.{option_map};
ghost use Rattle.rl_text.specs.Rows.{row_of, word_at};
ghost use Rattle.rl_text.specs.LineWords.{stepped};
ghost use Rattle.rl_text.specs.Reading.{seen, refusal_at, needed_at, fixed_at, number_at, below_at, between_at, next_at, no_word_at, starts_with_word, begins, header_at};

use crate::causes::{Refusal, Why};
use crate::cutting::cut;
use crate::line::Line;
use crate::lines::TEXT_LIMIT;
use crate::numbers::number;
use std::marker::Model;

/// The words of a line that are still to be read. It stands before a word, whose number is counted from 1.
///
/// Each reading call reads the next word and steps past it, whatever the answer is, and also where the line has no more.
/// So a word may be read only while its number is below [`TEXT_LIMIT`].
#[derive(Drop)]
pub struct LineWords<'a> {
    line: Line<'a>,
    rest: Option<&'a [u8]>,
    next: u32,
}

impl<'a> Model for LineWords<'a> {
    ghost use Rattle.std.specs.Prelude.{◌≡◌, ◌≤◌};
    ghost use Rattle.rl_text.specs.Rows.{row_of};
    ghost use Rattle.rl_text.specs.LineWords.{TheLineWords, words_from, words_left};

    ghost Value = { TheLineWords };

    ghost view = { λ w. record { row = row_of w.line; next = w.next } };

    ghost invariant = { λ w. (1 ≤ w.next) × (words_from (row_of w.line) w.next ≡ words_left w.rest) };
}

impl<'a> Line<'a> {
    /// The words of this line from the first on.
    pub fn words(&self) -> LineWords<'a>
        ensures { result ≡ record { row = row_of self.now; next = 1 } }
    {
        LineWords {
            line: *self,
            rest: Some(self.text),
            next: 1,
        }
    }

    /// The words of this line from word n on.
    pub fn words_from(&self, n: u32) -> LineWords<'a>
        requires { 1 ≤ n }
        ensures { result ≡ record { row = row_of self.now; next = n } }
    {
        let mut words = self.words();
        for _ in 1..n {
            let _ = words.next_word();
        }
        words
    }

    /// The n-th piece between single spaces, counted from 1. `None` exactly where the line has fewer words.
    pub fn word(&self, n: u32) -> Option<&'a [u8]>
        requires { 1 ≤ n }
        ensures { option_map (λ word. word.now) result ≡ word_at (row_of self.now) n }
    {
        self.words_from(n).peek()
    }

    /// Whether the first word is this one.
    #[tactic(auto, unfolding(crate::specs::Reading::begins))]
    pub fn begins(&self, text: &[u8]) -> bool
        ensures { result ≡ begins (row_of self.now) text.now }
    {
        self.words().is_next(text)
    }

    /// The first line of a file: its name and the version `1`. Word, Missing, Version or Extra.
    #[tactic(auto, unfolding(crate::specs::Reading::header_at))]
    pub fn header(&self, name: &[u8]) -> Result<(), Refusal>
        ensures { result ≡ header_at (row_of self.now) name.now }
    {
        let mut words = self.words();
        words.fixed(name, Why::Word)?;
        words.fixed(b"1", Why::Version)?;
        words.no_more()
    }
}

impl<'a> LineWords<'a> {
    /// The number of the next word, counted from 1.
    pub fn next_number(&self) -> u32
        ensures { result ≡ self.now.next }
    {
        self.next
    }

    // The refusal of word n of the line.
    fn refusal_of(&self, n: u32, why: Why) -> Refusal
        ensures { result ≡ refusal_at self.now.row n why }
    {
        self.line.refusal(n, why)
    }

    /// The refusal of the word that was read last, or of the whole line where none was read.
    pub fn refusal(&self, why: Why) -> Refusal
        ensures { result ≡ refusal_at self.now.row (self.now.next - 1) why }
    {
        self.line.refusal(self.next - 1, why)
    }

    /// The next word; `None` exactly where the line has no more.
    pub fn next_word(&mut self) -> Option<&'a [u8]>
        requires { self.old.next < TEXT_LIMIT }
        ensures word { option_map (λ word. word.now) result ≡ word_at self.old.row self.old.next }
        ensures steps { self.new ≡ stepped self.old }
    {
        self.next += 1;
        let rest = self.rest?;
        match cut(rest, b' ') {
            Some((word, after)) => {
                self.rest = Some(after);
                Some(word)
            }
            None => {
                self.rest = None;
                Some(rest)
            }
        }
    }

    /// The next word, which isn't taken; `None` exactly where the line has no more.
    pub fn peek(&self) -> Option<&'a [u8]>
        ensures { option_map (λ word. word.now) result ≡ word_at self.now.row self.now.next }
    {
        let rest = self.rest?;
        match cut(rest, b' ') {
            Some((word, _)) => Some(word),
            None => Some(rest),
        }
    }

    /// Whether the next word is there and is this one. It isn't taken.
    pub fn is_next(&self, text: &[u8]) -> bool
        ensures { result ≡ starts_with_word text.now (word_at self.now.row self.now.next) }
    {
        match self.peek() {
            Some(word) => word == text,
            None => false,
        }
    }

    /// The next word. Missing where the line has no more.
    #[tactic(auto, unfolding(crate::specs::Reading::needed_at))]
    pub fn needed(&mut self) -> Result<&'a [u8], Refusal>
        requires { self.old.next < TEXT_LIMIT }
        ensures value { seen (λ word. word.now) result ≡ needed_at self.old.row self.old.next }
        ensures steps { self.new ≡ stepped self.old }
    {
        let n = self.next_number();
        match self.next_word() {
            Some(word) => Ok(word),
            None => Err(self.refusal_of(n, Why::Missing)),
        }
    }

    /// The next word has to be this one. Missing, or `why` where it is another.
    #[tactic(auto, unfolding(crate::specs::Reading::fixed_at))]
    pub fn fixed(&mut self, text: &[u8], why: Why) -> Result<(), Refusal>
        requires { self.old.next < TEXT_LIMIT }
        ensures value { result ≡ fixed_at self.old.row self.old.next text.now why }
        ensures steps { self.new ≡ stepped self.old }
    {
        let n = self.next_number();
        let word = self.needed()?;
        if word == text {
            Ok(())
        } else {
            Err(self.refusal_of(n, why))
        }
    }

    /// The next word as a number. Missing, or Number where it is none.
    #[tactic(auto, unfolding(crate::specs::Reading::number_at))]
    pub fn number(&mut self) -> Result<u64, Refusal>
        requires { self.old.next < TEXT_LIMIT }
        ensures value { result ≡ number_at self.old.row self.old.next }
        ensures steps { self.new ≡ stepped self.old }
    {
        let n = self.next_number();
        let word = self.needed()?;
        match number(word) {
            Some(k) => Ok(k),
            None => Err(self.refusal_of(n, Why::Number)),
        }
    }

    /// The next word as a number below a limit. Missing, Number, or Range where it is too large.
    #[tactic(auto, unfolding(crate::specs::Reading::below_at))]
    pub fn below(&mut self, limit: u64) -> Result<u64, Refusal>
        requires { self.old.next < TEXT_LIMIT }
        ensures value { result ≡ below_at self.old.row self.old.next limit }
        ensures below { IfOk result (λ k. k < limit) }
        ensures steps { self.new ≡ stepped self.old }
    {
        let n = self.next_number();
        let k = self.number()?;
        if k < limit {
            Ok(k)
        } else {
            Err(self.refusal_of(n, Why::Range))
        }
    }

    /// The next word as a number from `low` to `high`. Missing, Number, or Range where it is outside.
    #[tactic(auto, unfolding(crate::specs::Reading::between_at))]
    pub fn between(&mut self, low: u64, high: u64) -> Result<u64, Refusal>
        requires there { self.old.next < TEXT_LIMIT }
        requires high { high < u64.MAX }
        ensures value { result ≡ between_at self.old.row self.old.next low high }
        ensures between { IfOk result (λ k. (low ≤ k) × (k ≤ high)) }
        ensures steps { self.new ≡ stepped self.old }
    {
        let n = self.next_number();
        let k = self.below(high + 1)?;
        if k < low {
            Err(self.refusal_of(n, Why::Range))
        } else {
            Ok(k)
        }
    }

    /// The word that was read last, as the number `k`, has to be the next number of a count. Repeat where it came before,
    /// Order where it comes too early.
    pub fn next_in_order(&self, k: u64, next: u64) -> Result<(), Refusal>
        ensures { result ≡ next_at self.now.row (self.now.next - 1) k next }
    {
        if k < next {
            return Err(self.refusal(Why::Repeat));
        }
        if next < k {
            return Err(self.refusal(Why::Order));
        }
        Ok(())
    }

    /// The line has no further word. Extra where it has.
    #[tactic(auto, unfolding(crate::specs::Reading::no_word_at))]
    pub fn no_more(&self) -> Result<(), Refusal>
        ensures { result ≡ no_word_at self.now.row self.now.next }
    {
        match self.rest {
            Some(_) => Err(self.line.refusal(self.next, Why::Extra)),
            None => Ok(()),
        }
    }
}
