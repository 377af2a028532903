//! Printers of what the readers read.
ghost use Rattle.std.specs.Prelude.{◌≡◌, decimal, OnErr};
ghost use Rattle.std.specs.List.{join_with_byte};
ghost use Rattle.rl_text.specs.Printing.{Puts, StillStands};
ghost use Rattle.rl_text.specs.Spelling.{refusal_words};

use crate::causes::Refusal;
use itoa::Buffer;
use std::alloc::AllocError as OutOfMemory;

// Appends the decimal spelling of a number of any length. After want of memory the text is as before.
fn put_digits(out: &mut Vec<u8>, n: u64) -> Result<(), OutOfMemory>
    ensures puts { Puts result out.old out.new (decimal n) }
    ensures err { OnErr result (out.new.items ≡ out.old.items) }
{
    out.extend_from_slice(Buffer::new().format(n).as_bytes())?;
    Ok(())
}

/// Appends the decimal spelling of a number; most numbers of a report have one digit. After want of memory the text is as
/// before.
#[inline(always)]
#[tactic(auto, using(crate::proofs::ShortLaws::digit_text, crate::proofs::ShortLaws::digits_text))]
pub fn put_number(out: &mut Vec<u8>, n: u64) -> Result<(), OutOfMemory>
    ensures puts { Puts result out.old out.new (decimal n) }
    ensures err { OnErr result (out.new.items ≡ out.old.items) }
{
    if n < 10 {
        out.push(b'0' + n as u8)?;
        return Ok(());
    }
    if n < 100 {
        return out.extend_from_slice(&[b'0' + (n / 10) as u8, b'0' + (n % 10) as u8]);
    }
    put_digits(out, n)
}

// Appends a refusal word by word. After want of memory some of the words may stand there.
fn put_words(out: &mut Vec<u8>, refusal: Refusal) -> Result<(), OutOfMemory>
    ensures puts { Puts result out.old out.new (join_with_byte 32 (refusal_words refusal)) }
    ensures err { OnErr result (StillStands out.old out.new) }
{
    put_number(out, u64::from(refusal.line))?;
    out.push(b' ')?;
    put_number(out, u64::from(refusal.word))?;
    out.push(b' ')?;
    out.extend_from_slice(refusal.why.name().as_bytes())?;
    Ok(())
}

/// Appends a refusal as three words: its line, its word and the name of its cause. After want of memory the text is as
/// before.
pub fn put_refusal(out: &mut Vec<u8>, refusal: Refusal) -> Result<(), OutOfMemory>
    ensures puts { Puts result out.old out.new (join_with_byte 32 (refusal_words refusal)) }
    ensures err { OnErr result (out.new.items ≡ out.old.items) }
{
    let before = out.len();
    let put = put_words(out, refusal);
    if put.is_err() {
        out.truncate(before);
    }
    put
}
