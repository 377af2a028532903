//! Printing one call.
ghost use Rattle.std.specs.Prelude.{◌≡◌, ◌+◌, ◌≤◌, ◌++◌, length, OnOk, OnErr};
ghost use Rattle.std.specs.List.{join_with_byte};
ghost use Rattle.rl_text.specs.Printing.{Writes};
ghost use Rattle.rl_ops.specs.CallSpelling.{call_words};

use rl_model::Call;
use rl_text::{write_bytes, write_spaced};
use std::alloc::AllocError as OutOfMemory;

/// The words of a call have at most so many bytes.
pub const LONGEST_CALL: usize = 66;

/// Writes the words of a call at a place of a line, and gives the place after them.
#[inline(always)]
pub fn write_call(line: &mut [u8], at: usize, call: Call) -> usize
    requires { at + LONGEST_CALL ≤ length line.old }
    ensures writes { Writes line.old line.new at result (join_with_byte 32 (call_words call)) }
    ensures next { result ≤ at + LONGEST_CALL }
{
    match call {
        Call::Put { key, value } => {
            let at = write_bytes(line, at, b"put");
            let at = write_spaced(line, at, key);
            write_spaced(line, at, value)
        }
        Call::Get { key } => {
            let at = write_bytes(line, at, b"get");
            write_spaced(line, at, key)
        }
        Call::Del { key } => {
            let at = write_bytes(line, at, b"del");
            write_spaced(line, at, key)
        }
        Call::Add { key, by } => {
            let at = write_bytes(line, at, b"add");
            let at = write_spaced(line, at, key);
            write_spaced(line, at, by)
        }
        Call::Cas { key, old, new } => {
            let at = write_bytes(line, at, b"cas");
            let at = write_spaced(line, at, key);
            let at = write_spaced(line, at, old);
            write_spaced(line, at, new)
        }
        Call::Hold { shard } => {
            let at = write_bytes(line, at, b"hold");
            write_spaced(line, at, u64::from(shard))
        }
    }
}

/// Appends the words of a call, as `cas 7 1 2`. Where memory runs out the text is as before.
pub fn call_text(call: Call, text: &mut Vec<u8>) -> Result<(), OutOfMemory>
    ensures ok { OnOk result (text.new.items ≡ text.old.items ++ join_with_byte 32 (call_words call)) }
    ensures err { OnErr result (text.new.items ≡ text.old.items) }
{
    let mut words = [0; LONGEST_CALL];
    let end = write_call(&mut words, 0, call);
    text.extend_from_slice(&words[..end])
}
