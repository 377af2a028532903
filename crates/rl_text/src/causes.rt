//! Why a text is refused, and where.
ghost use Rattle.std.specs.Prelude.{◌≡◌, Some};
ghost use Rattle.rl_text.specs.Causes.{why_name};

use std::fmt;

/// Why a text is refused. The numbers are those of the program's own table of causes.
#[derive(Clone, Copy, Debug, PartialEq, Eq)]
pub enum Why {
    /// A fixed word, a name or a path has another form than the line needs.
    Word = 1,
    /// A number was needed, and the word is no number.
    Number = 2,
    /// A number is outside its limit, or names a thing that isn't there.
    Range = 3,
    /// A number that was given before.
    Repeat = 4,
    /// The line ends before this word.
    Missing = 5,
    /// A word too many, or a line after the last one.
    Extra = 6,
    /// A number that comes before its turn.
    Order = 7,
    /// The line isn't ended by a newline, or the text ends before its last line.
    NoEnd = 8,
    /// The second word of the first line isn't the version.
    Version = 9,
}

impl Why {
    /// The name of the cause in small letters, as the program prints it.
    pub fn name(&self) -> &'static str
        ensures { result.now ≡ why_name self.now }
    {
        match self {
            Why::Word => "word",
            Why::Number => "number",
            Why::Range => "range",
            Why::Repeat => "repeat",
            Why::Missing => "missing",
            Why::Extra => "extra",
            Why::Order => "order",
            Why::NoEnd => "noend",
            Why::Version => "version",
        }
    }
}

/// Prints the name in small letters.
impl fmt::Display for Why {
    ghost output = { λ why. Some (why_name why) };

    fn fmt<W: fmt::Write>(&self, f: &mut fmt::Formatter<W>) -> fmt::Result {
        f.write_str(self.name())
    }
}

/// The first fault of a text: its line and its word, both counted from 1, and its cause. Word 0 is the whole line.
#[derive(Clone, Copy, Debug, PartialEq, Eq)]
pub struct Refusal {
    pub line: u32,
    pub word: u32,
    pub why: Why,
}
