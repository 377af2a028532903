//! What stands at the place of a refusal.

use crate::quoting::Quoted;
use rl_text::Line;
use std::fmt;

/// What stands at a place of a text.
#[derive(Clone, Copy)]
pub enum Found<'a> {
    /// This word, of this line.
    Word(&'a [u8], Line<'a>),
    /// The line ends before this word.
    LineEnd,
    /// This line, as a whole.
    WholeLine(Line<'a>),
    /// The text ends before this line.
    FileEnd,
    /// More bytes than a file of its kind may have.
    TooMany,
}

/// What can't be seen in a word, or which file begins with it, if there is something to say.
fn unseen(word: &[u8]) -> Option<&'static str> {
    if let [0xef, 0xbb, 0xbf, ..] = word {
        return Some(" (a byte order mark)");
    }
    if word.iter().any(|byte| *byte == b'\t') {
        return Some(" (a tab)");
    }
    match word {
        b"rmalock-place" => Some(" (this is a placement)"),
        b"rmalock-calls" => Some(" (this is a calls file)"),
        b"rmalock-schedule" => Some(" (this is a schedule)"),
        b"rmalock-report" => Some(" (this is a report)"),
        b"rmalock-summary" | b"rmalock-shape" | b"rmalock-steps" => {
            Some(" (this is what a program wrote, and no file to read)")
        }
        [.., b'\r'] => Some(" (the line ends with a carriage return)"),
        _ => None,
    }
}

/// What made an empty word.
fn why_empty(text: &[u8]) -> &'static str {
    match text {
        [] => " (an empty line)",
        [b' ', ..] => " (a space at the beginning of the line)",
        [.., b' '] => " (a space at the end of the line)",
        _ => " (two spaces)",
    }
}

/// Writes a word, and what can't be seen in it.
fn write_word<W: fmt::Write>(
    f: &mut fmt::Formatter<W>,
    word: &[u8],
    line: Line<'_>,
) -> fmt::Result {
    let quoted = Quoted(word);
    write!(f, "{quoted}")?;
    if word.is_empty() {
        return f.write_str(why_empty(line.text));
    }
    match unseen(word) {
        Some(note) => f.write_str(note),
        None => Ok(()),
    }
}

/// Writes a line, or that no newline ends it.
fn write_line<W: fmt::Write>(f: &mut fmt::Formatter<W>, line: Line<'_>) -> fmt::Result {
    let quoted = Quoted(line.text);
    if line.ended {
        write!(f, "the line {quoted}")
    } else {
        write!(f, "the end of the file right behind {quoted}")
    }
}

impl fmt::Display for Found<'_> {
    fn fmt<W: fmt::Write>(&self, f: &mut fmt::Formatter<W>) -> fmt::Result {
        match *self {
            Found::Word(word, line) => write_word(f, word, line),
            Found::LineEnd => f.write_str("the end of the line"),
            Found::WholeLine(line) => write_line(f, line),
            Found::FileEnd => f.write_str("the end of the file"),
            Found::TooMany => f.write_str("more bytes"),
        }
    }
}
