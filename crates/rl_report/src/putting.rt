//! Appending words to a line. What is short is written in place first, and appended at once.
ghost use Rattle.std.specs.Prelude.{◌≡◌, ◌+◌, ◌≤◌, ◌++◌, ◌∷◌, [], decimal, length, OnOk};
ghost use Rattle.rl_text.specs.Printing.{Writes};
ghost use Rattle.rl_report.specs.Printing.{spaced};

use rl_text::{write_byte, write_bytes, write_spaced};
use std::alloc::AllocError as OutOfMemory;

// The names of a report's numbers have at most so many bytes.
const LONGEST_NAME: usize = 9;

/// Writes a name and a number after it.
#[inline(always)]
pub fn write_named(line: &mut [u8], at: usize, name: &[u8], n: u64) -> usize
    requires { at + length name.now + 21 ≤ length line.old }
    ensures writes { Writes line.old line.new at result (name.now ++ 32 ∷ decimal n) }
    ensures next { result ≤ at + length name.now + 21 }
{
    let at = write_bytes(line, at, name);
    write_spaced(line, at, n)
}

/// A space and a word.
pub fn put_word(out: &mut Vec<u8>, word: &[u8]) -> Result<(), OutOfMemory>
    ensures { OnOk result (out.new.items ≡ out.old.items ++ 32 ∷ word.now) }
{
    out.push(b' ')?;
    out.extend_from_slice(word)
}

/// A space and a number.
pub fn put_value(out: &mut Vec<u8>, n: u64) -> Result<(), OutOfMemory>
    ensures { OnOk result (out.new.items ≡ out.old.items ++ 32 ∷ decimal n) }
{
    let mut word = [0; 21];
    let end = write_spaced(&mut word, 0, n);
    out.extend_from_slice(&word[..end])
}

/// A name and a number, as most lines begin.
pub fn put_first(out: &mut Vec<u8>, name: &[u8], n: u64) -> Result<(), OutOfMemory>
    requires { length name.now ≤ LONGEST_NAME }
    ensures { OnOk result (out.new.items ≡ out.old.items ++ name.now ++ 32 ∷ decimal n) }
{
    let mut words = [0; LONGEST_NAME + 21];
    let end = write_named(&mut words, 0, name, n);
    out.extend_from_slice(&words[..end])
}

/// A name and a number, each after a space.
pub fn put_named(out: &mut Vec<u8>, name: &[u8], n: u64) -> Result<(), OutOfMemory>
    requires { length name.now ≤ LONGEST_NAME }
    ensures { OnOk result (out.new.items ≡ out.old.items ++ spaced (name.now ∷ decimal n ∷ [])) }
{
    let mut words = [0; LONGEST_NAME + 22];
    let at = write_byte(&mut words, 0, b' ');
    let end = write_named(&mut words, at, name, n);
    out.extend_from_slice(&words[..end])
}
