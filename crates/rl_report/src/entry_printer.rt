//! Printing the entries of a history.
ghost use Rattle.std.specs.Prelude.{◌≡◌, ◌+◌, ◌≤◌, ◌++◌, ◌∷◌, decimal, length, map, OnOk};
ghost use Rattle.rl_text.specs.Printing.{Writes};
ghost use Rattle.rl_text.specs.Spelling.{line_text, text_of};
ghost use Rattle.rl_report.specs.Spelling.{reply_words, part_words, answer_words, entry_words};
ghost use Rattle.rl_report.specs.Printing.{spaced};

use crate::putting::write_named;
use rl_model::{Entry, Reply};
use rl_ops::{LONGEST_CALL, write_call};
use rl_text::{write_byte, write_bytes, write_spaced};
use std::alloc::AllocError as OutOfMemory;

// The line of an entry has at most so many bytes.
const LONGEST_LINE: usize = 256;

// Writes the words of a reply, each after a space.
#[inline(always)]
fn write_reply(line: &mut [u8], at: usize, reply: Reply) -> usize
    requires { at + 26 ≤ length line.old }
    ensures writes { Writes line.old line.new at result (spaced (reply_words reply)) }
    ensures next { result ≤ at + 26 }
{
    match reply {
        Reply::New => write_bytes(line, at, b" new"),
        Reply::Was(value) => write_named(line, at, b" was", value),
        Reply::Full => write_bytes(line, at, b" full"),
        Reply::Val(value) => write_named(line, at, b" val", value),
        Reply::Nothing => write_bytes(line, at, b" none"),
        Reply::Sum(value) => write_named(line, at, b" sum", value),
        Reply::Over(value) => write_named(line, at, b" over", value),
        Reply::No(value) => write_named(line, at, b" no", value),
        Reply::Held => write_bytes(line, at, b" held"),
        Reply::Undone => write_bytes(line, at, b" undone"),
    }
}

// Writes `part I of N` after a space, and nothing for a call alone.
#[inline(always)]
fn write_part(line: &mut [u8], at: usize, batch: u32, part: u32) -> usize
    requires { at + 50 ≤ length line.old }
    ensures writes { Writes line.old line.new at result (spaced (part_words batch part)) }
    ensures next { result ≤ at + 50 }
{
    if batch == 0 {
        return at;
    }
    let at = write_named(line, at, b" part", u64::from(part));
    write_named(line, at, b" of", u64::from(batch))
}

// Writes `CALL = REPLY` after a space, and the part of a batch.
#[inline(always)]
fn write_answer(line: &mut [u8], at: usize, entry: &Entry) -> usize
    requires { at + 145 ≤ length line.old }
    ensures writes { Writes line.old line.new at result (spaced (answer_words entry.now)) }
    ensures next { result ≤ at + 145 }
{
    let at = write_byte(line, at, b' ');
    let at = write_call(line, at, entry.call);
    let at = write_bytes(line, at, b" =");
    let at = write_reply(line, at, entry.reply);
    write_part(line, at, entry.batch, entry.part)
}

// Writes `entry AT RANK SEQ CALL = REPLY`, and the part of a batch, as a line.
fn write_entry(line: &mut [u8], entry: &Entry) -> usize
    requires { LONGEST_LINE ≤ length line.old }
    ensures line { Writes line.old line.new 0 result (line_text (entry_words entry.now)) }
    ensures end { result ≤ LONGEST_LINE }
{
    let at = write_bytes(line, 0, b"entry");
    let at = write_spaced(line, at, u64::from(entry.at));
    let at = write_spaced(line, at, u64::from(entry.rank));
    let at = write_spaced(line, at, u64::from(entry.seq));
    let at = write_answer(line, at, entry);
    write_byte(line, at, b'\n')
}

/// Appends the lines of entries. Each is made in one place, and appended as a whole.
pub fn put_entries(out: &mut Vec<u8>, entries: &[Entry]) -> Result<(), OutOfMemory>
    ensures { OnOk result (out.new.items ≡ out.old.items ++ text_of (map entry_words entries.now)) }
{
    let mut line = [0; LONGEST_LINE];
    for entry in entries {
        let end = write_entry(&mut line, entry);
        out.extend_from_slice(&line[..end])?;
    }
    Ok(())
}
