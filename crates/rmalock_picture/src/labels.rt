//! The labels of what happened: their words, and rows in which no label covers another, or its line down.

use crate::lanes::{Happening, Mark};
use crate::scale::Scale;
use crate::svg::Px;
use rl_report::{Naming, QueueName};
use rl_step::Event;
use std::alloc::{AllocError as OutOfMemory, Global};
use std::fmt;

/// How wide a letter of a label is, at the most.
const LETTER: Px = Px(6);

/// Words of a report or of a listing of steps, which are ASCII.
#[derive(Clone, Copy)]
pub struct Word<'a>(pub &'a [u8]);

impl fmt::Display for Word<'_> {
    fn fmt<W: fmt::Write>(&self, f: &mut fmt::Formatter<W>) -> fmt::Result {
        for byte in self.0 {
            f.write_char(char::from(*byte))?;
        }
        Ok(())
    }
}

/// A label: the step that it belongs to, its words, and the row that it stands in, counted from below.
#[derive(Drop)]
pub struct Label {
    pub step: u32,
    pub row: u32,
    pub text: String,
}

/// The labels of a lane, how many rows they need, and where the last of them ends.
#[derive(Drop)]
pub struct Labels {
    pub labels: Vec<Label>,
    pub rows: u32,
    pub right: Px,
}

/// How wide a text is, at the most.
pub fn width_of(text: &str) -> Px {
    let mut width = Px(0);
    for _ in text.chars() {
        width = width + LETTER;
    }
    width
}

fn queue_named(naming: &Naming, queue: u32) -> Option<&QueueName> {
    naming.queues.get(queue as usize)
}

/// The name of a queue.
fn word_of(queue: Option<&QueueName>) -> Word<'_> {
    match queue {
        Some(queue) => Word(queue.word.as_slice()),
        None => Word(b""),
    }
}

/// What is written where the queue is handed to a member: a rank, or an element right below the queue's.
fn pass_text(
    alloc: Global,
    naming: &Naming,
    queue: u32,
    member: u32,
) -> Result<String, OutOfMemory> {
    let queue = queue_named(naming, queue);
    let of_ranks = match queue {
        Some(queue) => queue.of_ranks,
        None => true,
    };
    let queue = word_of(queue);
    if of_ranks {
        format!(in alloc; "pass {queue} to rank {member}")
    } else {
        let member = word_of(queue_named(naming, member));
        format!(in alloc; "pass {queue} to {member}")
    }
}

/// What is written for an event; nothing for what the bands tell already.
fn event_text(alloc: Global, naming: &Naming, event: Event) -> Result<Option<String>, OutOfMemory> {
    match event {
        Event::Join { queue, .. } => {
            let queue = word_of(queue_named(naming, queue));
            Ok(Some(format!(in alloc; "join {queue}")?))
        }
        Event::Announce { .. } => Ok(Some(String::from_str(alloc, "announce")?)),
        Event::Pass { queue, member } => Ok(Some(pass_text(alloc, naming, queue, member)?)),
        Event::Settle { queue, .. } => {
            let queue = word_of(queue_named(naming, queue));
            Ok(Some(format!(in alloc; "settle {queue}")?))
        }
        Event::Touch { .. }
        | Event::EnterW { .. }
        | Event::EnterR { .. }
        | Event::LeaveW { .. }
        | Event::LeaveR { .. } => Ok(None),
    }
}

/// What is written of something that happened.
fn text_of(alloc: Global, naming: &Naming, what: Happening) -> Result<Option<String>, OutOfMemory> {
    match what {
        Happening::Event(event) => event_text(alloc, naming, event),
        Happening::Remark(remark) => Ok(Some(format!(in alloc; "{remark}")?)),
    }
}

/// A label for each step with something that has words: all of one step together.
fn texts_of(
    alloc: Global,
    naming: &Naming,
    scale: Scale,
    marks: &[Mark],
) -> Result<Vec<Label>, OutOfMemory> {
    let mut labels: Vec<Label> = Vec::new(alloc);
    for mark in marks {
        if !scale.tells(mark.step) {
            continue;
        }
        if let Some(text) = text_of(alloc, naming, mark.what)? {
            append(&mut labels, mark.step, text)?;
        }
    }
    Ok(labels)
}

/// Appends what happened in a step, behind what happened before it in the same step.
fn append(labels: &mut Vec<Label>, step: u32, text: String) -> Result<(), OutOfMemory> {
    if let Some(last) = labels.last_mut() {
        if last.step == step {
            last.text.push_str(", ")?;
            return last.text.push_str(text.as_str());
        }
    }
    labels.push(Label { step, row: 0, text })?;
    Ok(())
}

/// The lowest row in which a text from `left` to `right` ends before each label of that row or a higher one, which all begin behind it: a label's
/// line goes down through the rows below it. `begins` has where the first of them begins, for each row.
fn take_row(begins: &mut Vec<Px>, left: Px, right: Px) -> Result<u32, OutOfMemory> {
    let mut row = 0u32;
    for begin in begins.iter_mut() {
        let is_free = right.0 < begin.0;
        *begin = left;
        if is_free {
            return Ok(row);
        }
        row = row.saturating_add(1);
    }
    begins.push(left)?;
    Ok(row)
}

/// The labels of a lane's marks that a row of the picture shows.
pub fn labels_of(
    alloc: Global,
    naming: &Naming,
    scale: Scale,
    marks: &[Mark],
) -> Result<Labels, OutOfMemory> {
    let mut labels = texts_of(alloc, naming, scale, marks)?;
    let mut begins = Vec::new(alloc);
    let mut rows = 0u32;
    let mut right = Px(0);
    for label in labels.iter_mut().rev() {
        let left = scale.x(label.step);
        let end = left + width_of(label.text.as_str());
        label.row = take_row(&mut begins, left, end)?;
        rows = rows.max(label.row.saturating_add(1));
        right = right.max(end);
    }
    Ok(Labels {
        labels,
        rows,
        right,
    })
}
