//! The forms of text, and tables of texts that they refuse.

use crate::samples::place_of;
use rl_ops::{read_ops, read_schedule};
use rl_report::read_report;
use rl_sketch::read_sketch;
use rl_text::{Refusal, TEXT_LIMIT, TextErr, Why};
use std::alloc::{AllocError as OutOfMemory, Global};
use std::process::Abort;
use std::test::*;

/// What follows the head of a text, and the line, the word and the cause of the text's first fault.
pub type Row = (&'static str, u32, u32, Why);

/// The number of a line, what stands there in place of the right line, and the word and the cause of the fault there.
pub type LineRow = (u32, &'static str, u32, Why);

/// A form of text, with what its reader is told beside the text.
#[derive(Clone, Copy)]
pub enum Form {
    /// A placement.
    Place,
    /// The calls of so many ranks on so many shards.
    Calls { ranks: u32, shards: u32 },
    /// A schedule of so many ranks.
    Schedule { ranks: u8 },
    /// A sketch of so many ranks.
    Sketch { ranks: u8 },
    /// A report of a placement, which is given as its text.
    Report { place: &'static str },
}

fn refusal<T: Drop>(read: Result<T, TextErr>) -> Option<Refusal> {
    match read {
        Err(TextErr::Refused(refusal)) => Some(refusal),
        _ => None,
    }
}

/// The first fault of a text of this form; `None` where it is read.
pub fn fault_of(alloc: Global, form: Form, text: &[u8]) -> Option<Refusal> {
    if text.len() >= TEXT_LIMIT as usize {
        return None;
    }
    match form {
        Form::Place => refusal(place_of(alloc, text)),
        Form::Calls { ranks, shards } => refusal(read_ops(alloc, ranks, shards, text)),
        Form::Schedule { ranks } => refusal(read_schedule(alloc, ranks, text)),
        Form::Sketch { ranks } => refusal(read_sketch(alloc, ranks, text)),
        Form::Report { place } => {
            let place = place_of(alloc, place.as_bytes()).ok()?;
            refusal(read_report(alloc, &place, text))
        }
    }
}

/// A fault at this line and this word, for this cause.
pub fn at(line: u32, word: u32, why: Why) -> Option<Refusal> {
    Some(Refusal { line, word, why })
}

/// One text behind another.
pub fn joined(alloc: Global, head: &[u8], rest: &str) -> Result<Vec<u8>, OutOfMemory> {
    let mut text = Vec::from_slice(alloc, head)?;
    text.extend_from_slice(rest.as_bytes())?;
    Ok(text)
}

/// A text with another line of this number.
pub fn with_line(
    alloc: Global,
    text: &[u8],
    number: u32,
    new: &str,
) -> Result<Vec<u8>, OutOfMemory> {
    let mut out = Vec::new(alloc);
    let mut line: u32 = 1;
    for byte in text {
        let ends = *byte == b'\n';
        if line != number {
            out.push(*byte)?;
        } else if ends {
            out.extend_from_slice(new.as_bytes())?;
            out.push(b'\n')?;
        }
        if ends {
            line = line.saturating_add(1);
        }
    }
    Ok(out)
}

/// Each text behind the head is refused at its line and word, for its cause.
pub fn all_refused(
    rt: &(impl Abort + AllocGlobal),
    form: Form,
    head: &[u8],
    rows: &[Row],
) -> Result<(), Fail> {
    for (rest, line, word, why) in rows {
        let text = joined(rt.alloc(), head, *rest)?;
        let fault = fault_of(rt.alloc(), form, &text);
        assert_eq!(rt; fault, at(*line, *word, *why), "{rest:?}");
    }
    Ok(())
}

/// The text is refused with each of these lines in place of its own of that number: there, at its word and for its cause.
pub fn all_lines_refused(
    rt: &(impl Abort + AllocGlobal),
    form: Form,
    text: &str,
    rows: &[LineRow],
) -> Result<(), Fail> {
    for (number, line, word, why) in rows {
        let changed = with_line(rt.alloc(), text.as_bytes(), *number, *line)?;
        let fault = fault_of(rt.alloc(), form, &changed);
        assert_eq!(rt; fault, at(*number, *word, *why), "{line:?}");
    }
    Ok(())
}
