//! The cases that a file spells: its lines, one after the other, each added to the last case.
use crate::case::{Case, Wanted};
use rl_text::number;
use std::alloc::{AllocError as OutOfMemory, AllocFailed, Global};
use thiserror::Error;

/// Why cases couldn't be read.
#[derive(Clone, Copy, Debug, PartialEq, Eq, Error)]
pub enum CasesErr {
    /// A line that says nothing of a case, or stands where it can't. Lines are counted from 1.
    #[error("line {line} is no line of a case, or stands in the wrong place")]
    Line { line: usize },
    /// Memory ran out.
    #[error("out of memory")]
    Memory,
}

/// Why a line couldn't be added.
#[derive(Clone, Copy, Debug, PartialEq, Eq)]
enum LineErr {
    Form,
    Memory,
}

impl From<OutOfMemory> for LineErr {
    fn from(_want: OutOfMemory) -> LineErr {
        LineErr::Memory
    }
}

impl<T: Drop> From<AllocFailed<T>> for LineErr {
    fn from(_want: AllocFailed<T>) -> LineErr {
        LineErr::Memory
    }
}

fn text_of(alloc: Global, bytes: &[u8]) -> Result<String, LineErr> {
    match str::from_utf8(bytes) {
        Ok(text) => Ok(String::from_str(alloc, text)?),
        Err(_) => Err(LineErr::Form),
    }
}

fn status_of(bytes: &[u8]) -> Result<u8, LineErr> {
    match number(bytes) {
        Some(status) if status < 256 => Ok(status as u8),
        _ => Err(LineErr::Form),
    }
}

/// A case of this name, of which nothing else is said yet.
fn add_case(alloc: Global, cases: &mut Vec<Case>, name: &[u8]) -> Result<(), LineErr> {
    let name = text_of(alloc, name)?;
    cases.push(Case {
        name,
        words: Vec::new(alloc),
        files: Vec::new(alloc),
        wanted: Wanted {
            status: None,
            output: Vec::new(alloc),
        },
    })?;
    Ok(())
}

/// A word, a file or the status of a case. The status comes last.
fn add_part(alloc: Global, case: &mut Case, line: &[u8]) -> Result<(), LineErr> {
    if case.wanted.status.is_some() {
        return Err(LineErr::Form);
    }
    if let Some(word) = line.strip_prefix(b"word ") {
        case.words.push(text_of(alloc, word)?)?;
    } else if let Some(name) = line.strip_prefix(b"file ") {
        case.files.push((text_of(alloc, name)?, Vec::new(alloc)))?;
    } else if let Some(status) = line.strip_prefix(b"status ") {
        case.wanted.status = Some(status_of(status)?);
    } else {
        return Err(LineErr::Form);
    }
    Ok(())
}

/// The text that the next lines belong to: the output once the status is told, and else the last file.
fn open_text(case: &mut Case) -> Option<&mut Vec<u8>> {
    if case.wanted.status.is_some() {
        return Some(&mut case.wanted.output);
    }
    match case.files.last_mut() {
        Some(file) => Some(&mut file.1),
        None => None,
    }
}

fn add_text(case: &mut Case, text: &[u8], end: &[u8]) -> Result<(), LineErr> {
    let Some(open) = open_text(case) else {
        return Err(LineErr::Form);
    };
    open.extend_from_slice(text)?;
    open.extend_from_slice(end)?;
    Ok(())
}

/// One more line of a case.
fn add_line(alloc: Global, case: &mut Case, line: &[u8]) -> Result<(), LineErr> {
    match line.split_first() {
        Some((b'|', text)) => add_text(case, text, b"\n"),
        Some((b'\\', text)) => add_text(case, text, b""),
        _ => add_part(alloc, case, line),
    }
}

/// One more line: that with which a case begins, one of the last case, or an empty one.
fn read_line(alloc: Global, cases: &mut Vec<Case>, line: &[u8]) -> Result<(), LineErr> {
    if let Some(name) = line.strip_prefix(b"case ") {
        return add_case(alloc, cases, name);
    }
    if line.is_empty() {
        return Ok(());
    }
    match cases.last_mut() {
        Some(case) => add_line(alloc, case, line),
        None => Err(LineErr::Form),
    }
}

/// The cases that these bytes spell, in their order. CASES in `docs/` has the form. An error tells the first line that is none.
pub fn read_cases(alloc: Global, bytes: &[u8]) -> Result<Vec<Case>, CasesErr> {
    let mut cases = Vec::new(alloc);
    for (before, line) in bytes.split(|byte| *byte == b'\n').enumerate() {
        match read_line(alloc, &mut cases, line) {
            Ok(()) => {}
            Err(LineErr::Form) => return Err(CasesErr::Line { line: before + 1 }),
            Err(LineErr::Memory) => return Err(CasesErr::Memory),
        }
    }
    Ok(cases)
}
