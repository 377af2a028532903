//! Writing a line in place, in a slice that has room for it. Each writer writes at a place and gives the place after what
//! it wrote. That is quicker than appending piece by piece, since no piece looks for room.
ghost use Rattle.std.specs.Prelude.{◌≡◌, ◌+◌, ◌<◌, ◌≤◌, ◌∷◌, [], decimal, length};
ghost use Rattle.rl_text.specs.Printing.{Writes, two_digits};

use itoa::Buffer;

/// Writes a byte.
#[inline(always)]
pub fn write_byte(line: &mut [u8], at: usize, byte: u8) -> usize
    requires { at < length line.old }
    ensures writes { Writes line.old line.new at result (byte ∷ []) }
    ensures next { result ≡ at + 1 }
{
    line[at] = byte;
    at + 1
}

/// Writes bytes.
#[inline(always)]
pub fn write_bytes(line: &mut [u8], at: usize, bytes: &[u8]) -> usize
    requires { at + length bytes.now ≤ length line.old }
    ensures writes { Writes line.old line.new at result bytes.now }
    ensures next { result ≡ at + length bytes.now }
{
    let end = at + bytes.len();
    line[at..end].copy_from_slice(bytes);
    end
}

/// Writes two digits.
#[inline(always)]
fn write_two_digits(line: &mut [u8], at: usize, n: u8) -> usize
    requires small { n < 100 }
    requires room { at + 2 ≤ length line.old }
    ensures writes { Writes line.old line.new at result (two_digits n) }
    ensures next { result ≡ at + 2 }
{
    let at = write_byte(line, at, b'0' + n / 10);
    write_byte(line, at, b'0' + n % 10)
}

/// Writes the decimal spelling of a number below 100.
#[inline(always)]
#[tactic(auto, using(crate::proofs::ShortLaws::digit_text, crate::proofs::ShortLaws::digits_text))]
fn write_short(line: &mut [u8], at: usize, n: u8) -> usize
    requires { (n < 100) × (at + 2 ≤ length line.old) }
    ensures writes { Writes line.old line.new at result (decimal n) }
    ensures next { result ≤ at + 2 }
{
    if n < 10 {
        write_byte(line, at, b'0' + n)
    } else {
        write_two_digits(line, at, n)
    }
}

/// Writes the decimal spelling of a number below 10,000.
#[inline(always)]
fn write_middle(line: &mut [u8], at: usize, n: u16) -> usize
    requires small { n < 10000 }
    requires room { at + 4 ≤ length line.old }
    ensures writes { Writes line.old line.new at result (decimal n) }
    ensures next { result ≤ at + 4 }
{
    if n < 100 {
        return write_short(line, at, n as u8);
    }
    let at = write_short(line, at, (n / 100) as u8);
    write_two_digits(line, at, (n % 100) as u8)
}

/// Writes the decimal spelling of a number of any length.
#[inline(never)]
fn write_long(line: &mut [u8], at: usize, n: u64) -> usize
    requires { at + 20 ≤ length line.old }
    ensures writes { Writes line.old line.new at result (decimal n) }
    ensures next { result ≤ at + 20 }
{
    if n < 10_000 {
        return write_middle(line, at, n as u16);
    }
    if n < 1_000_000 {
        let at = write_middle(line, at, (n / 100) as u16);
        return write_two_digits(line, at, (n % 100) as u8);
    }
    write_bytes(line, at, Buffer::new().format(n).as_bytes())
}

/// Writes the decimal spelling of a number; most numbers of a report have one digit.
#[inline(always)]
#[tactic(auto, using(crate::proofs::ShortLaws::digit_text))]
pub fn write_number(line: &mut [u8], at: usize, n: u64) -> usize
    requires { at + 20 ≤ length line.old }
    ensures writes { Writes line.old line.new at result (decimal n) }
    ensures next { result ≤ at + 20 }
{
    if n < 10 {
        write_byte(line, at, b'0' + n as u8)
    } else {
        write_long(line, at, n)
    }
}

/// Writes a space and the decimal spelling of a number.
#[inline(always)]
pub fn write_spaced(line: &mut [u8], at: usize, n: u64) -> usize
    requires { at + 21 ≤ length line.old }
    ensures writes { Writes line.old line.new at result (32 ∷ decimal n) }
    ensures next { result ≤ at + 21 }
{
    let at = write_byte(line, at, b' ');
    write_number(line, at, n)
}
