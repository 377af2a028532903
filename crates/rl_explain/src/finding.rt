//! The line and the word at the place of a refusal.
ghost use Rattle.std.specs.Prelude.{◌≡◌, ◌≤◌, ◌<◌, length, drop};
ghost use Rattle.std.specs.Option.{option_map};
ghost use Rattle.rl_text.specs.Rows.{row_of};
ghost use Rattle.rl_explain.specs.Finding.{first_row, line_in, word_in};

use rl_text::{Line, Lines, TEXT_LIMIT};

// Passes a line, if there is one.
fn pass(lines: &mut Lines<'_>)
    ensures { lines.new.rows ≡ drop 1 lines.old.rows }
{
    let _ = lines.next_line();
}

// The next line.
fn first<'a>(lines: &mut Lines<'a>) -> Option<Line<'a>>
    ensures { option_map row_of result ≡ first_row lines.old.rows }
{
    lines.next_line()
}

/// Line `number` of a text, counted from 1. `None` exactly where the text has fewer lines.
#[tactic(auto, using(crate::proofs::FindingLaws::passes_one))]
pub fn line_in(text: &[u8], number: u32) -> Option<Line<'_>>
    requires there { 1 ≤ number }
    requires few { length text.now < TEXT_LIMIT }
    ensures { option_map row_of result ≡ line_in text.now number }
{
    let mut lines = Lines::new(text);
    for _ in 1..number {
        pass(&mut lines);
    }
    first(&mut lines)
}

/// Word `word` of line `line` of a text, both counted from 1. `None` exactly where the line has fewer words, or the text fewer lines.
pub fn word_in(text: &[u8], line: u32, word: u32) -> Option<&[u8]>
    requires line { 1 ≤ line }
    requires word { 1 ≤ word }
    requires few { length text.now < TEXT_LIMIT }
    ensures { option_map (λ word. word.now) result ≡ word_in text.now line word }
{
    match line_in(text, line) {
        Some(line) => line.word(word),
        None => None,
    }
}
