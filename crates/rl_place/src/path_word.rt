//! The spelling of a path: its numbers between single dots.
ghost use Rattle.std.specs.Prelude.{◌≡◌, ◌≤◌, ◌<◌, ◌∷◌, [], OnErr};
ghost use Rattle.rl_text.specs.Printing.{Puts, StillStands};
ghost use Rattle.rl_text.specs.LineWords.{stepped};
ghost use Rattle.rl_place.specs.Paths.{path_word, path_at, parts_of, filled, numbers_of};

use crate::limits::MOST_PART;
use crate::path::Path;
use rl_text::{LineWords, Refusal, TEXT_LIMIT, Why, cut, number, put_number};
use std::alloc::AllocError as OutOfMemory;

fn one_part(a: &[u8]) -> Option<[u64; 3]>
    ensures { result ≡ filled 1 (numbers_of (a.now ∷ [])) }
{
    Some([number(a)?, 0, 0])
}

fn two_parts(a: &[u8], b: &[u8]) -> Option<[u64; 3]>
    ensures { result ≡ filled 2 (numbers_of (a.now ∷ b.now ∷ [])) }
{
    let first = number(a)?;
    let second = number(b)?;
    Some([first, second, 0])
}

fn three_parts(a: &[u8], b: &[u8], c: &[u8]) -> Option<[u64; 3]>
    ensures { result ≡ filled 3 (numbers_of (a.now ∷ b.now ∷ c.now ∷ [])) }
{
    let first = number(a)?;
    let second = number(b)?;
    let third = number(c)?;
    Some([first, second, third])
}

/// The numbers between single dots, as many as there are levels.
#[tactic(auto, unfolding(crate::specs::Paths::parts_of))]
fn parts_in(word: &[u8], levels: u32) -> Option<[u64; 3]>
    requires { (1 ≤ levels) × (levels ≤ 3) }
    ensures { result ≡ parts_of levels word.now }
{
    let Some((a, rest)) = cut(word, b'.') else {
        return if levels == 1 { one_part(word) } else { None };
    };
    let Some((b, rest)) = cut(rest, b'.') else {
        return if levels == 2 {
            two_parts(a, rest)
        } else {
            None
        };
    };
    match cut(rest, b'.') {
        Some(_) => None,
        None => {
            if levels == 3 {
                three_parts(a, b, rest)
            } else {
                None
            }
        }
    }
}

/// The next word as a path of so many numbers. Missing, Word where it has another form, Range where a number is over
/// [`MOST_PART`].
#[tactic(auto, unfolding(crate::specs::Paths::path_at))]
pub fn path_of(words: &mut LineWords<'_>, levels: u32) -> Result<Path, Refusal>
    requires there { words.old.next < TEXT_LIMIT }
    requires levels { (1 ≤ levels) × (levels ≤ 3) }
    ensures value { result ≡ path_at words.old.row words.old.next levels }
    ensures steps { words.new ≡ stepped words.old }
{
    let word = words.needed()?;
    let Some(parts) = parts_in(word, levels) else {
        return Err(words.refusal(Why::Word));
    };
    let most = u64::from(MOST_PART);
    if parts[0] > most || parts[1] > most || parts[2] > most {
        return Err(words.refusal(Why::Range));
    }
    Ok(Path {
        len: levels,
        parts: [parts[0] as u32, parts[1] as u32, parts[2] as u32],
    })
}

// Appends the numbers of a path. After want of memory some of them may stand there.
fn put_parts(path: Path, text: &mut Vec<u8>) -> Result<(), OutOfMemory>
    ensures puts { Puts result text.old text.new (path_word path) }
    ensures err { OnErr result (StillStands text.old text.new) }
{
    let [first, second, third] = path.parts;
    if path.len == 0 {
        return Ok(());
    }
    put_number(text, u64::from(first))?;
    if path.len == 1 {
        return Ok(());
    }
    text.push(b'.')?;
    put_number(text, u64::from(second))?;
    if path.len == 2 {
        return Ok(());
    }
    text.push(b'.')?;
    put_number(text, u64::from(third))?;
    Ok(())
}

/// Appends the spelling of a path: its numbers between single dots; of the root nothing. After want of memory the text is
/// as before.
pub fn path_text(path: Path, text: &mut Vec<u8>) -> Result<(), OutOfMemory>
    ensures puts { Puts result text.old text.new (path_word path) }
    ensures err { OnErr result (text.new.items ≡ text.old.items) }
{
    let before = text.len();
    let put = put_parts(path, text);
    if put.is_err() {
        text.truncate(before);
    }
    put
}
