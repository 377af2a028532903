//! Words of a file on one line, whatever their bytes are.

use std::fmt;

/// So many bytes of a word are shown.
const MOST_SHOWN: usize = 40;

/// A word between quotation marks. Bytes that can't be seen, and those outside ASCII, are spelled out; a long word is cut, and two dots
/// say so.
#[derive(Clone, Copy)]
pub struct Quoted<'a>(pub &'a [u8]);

/// Writes one byte of a quoted word.
fn write_byte<W: fmt::Write>(f: &mut fmt::Formatter<W>, byte: u8) -> fmt::Result {
    match byte {
        b'"' => f.write_str("\\\""),
        b'\\' => f.write_str("\\\\"),
        b'\t' => f.write_str("\\t"),
        b'\r' => f.write_str("\\r"),
        b'\n' => f.write_str("\\n"),
        b' '..=b'~' => f.write_char(char::from(byte)),
        _ => write!(f, "\\x{byte:02x}"),
    }
}

/// Writes the bytes of a quoted word.
fn write_bytes<W: fmt::Write>(f: &mut fmt::Formatter<W>, bytes: &[u8]) -> fmt::Result {
    for byte in bytes {
        write_byte(f, *byte)?;
    }
    Ok(())
}

/// The bytes of a word that are shown.
fn front(bytes: &[u8]) -> &[u8] {
    bytes.get(..MOST_SHOWN).unwrap_or(bytes)
}

/// What ends a quoted word.
fn end(bytes: &[u8]) -> &'static str {
    if bytes.len() <= MOST_SHOWN {
        "\""
    } else {
        "\".."
    }
}

impl fmt::Display for Quoted<'_> {
    fn fmt<W: fmt::Write>(&self, f: &mut fmt::Formatter<W>) -> fmt::Result {
        f.write_str("\"")?;
        write_bytes(f, front(self.0))?;
        f.write_str(end(self.0))
    }
}
