//! What is wanted at a place of a file, in words.

use crate::quoting::Quoted;
use rl_report::QueueName;
use std::fmt;

/// What has to stand at a place of a file.
#[derive(Clone, Copy)]
pub enum Wanted<'a> {
    /// What these words say.
    Text(&'static str),
    /// A line of this form.
    Form(&'static str),
    /// A line of one of these forms.
    Either(&'static str, &'static str),
    /// This word.
    Word(&'static str),
    /// This word of the placement.
    Name(&'a [u8]),
    /// A number from the first to the second.
    Between(u64, u64),
    /// A number from this one on.
    AtLeast(u64),
    /// The number of the placement.
    Exactly(u64),
    /// This number, with which the ranks or shards go on.
    Next(u32, &'static str),
    /// A rank below this number, or one of these words.
    RankOr(u32, &'static str),
    /// A path of so many numbers.
    Path(u32),
    /// The rank of a batch, so many calls of which are to come.
    BatchRank(u32, u32),
    /// A key of this shard, of so many.
    KeyOf(u32, u32),
    /// At most so many steps more.
    StepsLeft(u32),
    /// The sum of the numbers behind it.
    Sum(u64),
    /// One of these queues.
    Queues(&'a [QueueName]),
    /// One of these queues that is right below this one.
    Below(&'a [QueueName], u32),
    /// At most so many bytes.
    Bytes(u32),
}

/// Writes the limits of a number.
fn write_between<W: fmt::Write>(f: &mut fmt::Formatter<W>, low: u64, high: u64) -> fmt::Result {
    if low == high {
        write!(f, "the number {low}")
    } else {
        write!(f, "a number from {low} to {high}")
    }
}

/// Writes which ranks there are, and what may stand in their place.
fn write_ranks<W: fmt::Write>(f: &mut fmt::Formatter<W>, ranks: u32, or: &str) -> fmt::Result {
    if ranks <= 1 {
        return write!(f, "the rank 0{or}");
    }
    let last = ranks - 1;
    write!(f, "a rank from 0 to {last}{or}")
}

/// Writes the form of a path.
fn write_path<W: fmt::Write>(f: &mut fmt::Formatter<W>, levels: u32) -> fmt::Result {
    match levels {
        1 => f.write_str("a path: one number from 0 to 999"),
        2 => f.write_str("a path of two numbers from 0 to 999, as 0.1"),
        _ => f.write_str("a path of three numbers from 0 to 999, as 0.1.2"),
    }
}

/// Writes the names of queues: of all, or of those right below one.
fn write_queues<W: fmt::Write>(
    f: &mut fmt::Formatter<W>,
    queues: &[QueueName],
    below: Option<u32>,
) -> fmt::Result {
    f.write_str("one of the queues")?;
    for queue in queues {
        if below.is_none() || queue.parent == below {
            let name = Quoted(queue.word.as_slice());
            write!(f, " {name}")?;
        }
    }
    Ok(())
}

impl fmt::Display for Wanted<'_> {
    fn fmt<W: fmt::Write>(&self, f: &mut fmt::Formatter<W>) -> fmt::Result {
        match *self {
            Wanted::Text(text) => f.write_str(text),
            Wanted::Form(form) => write!(f, "a line \"{form}\""),
            Wanted::Either(one, other) => write!(f, "a line \"{one}\" or \"{other}\""),
            Wanted::Word(word) => write!(f, "\"{word}\""),
            Wanted::Name(name) => {
                let name = Quoted(name);
                write!(f, "{name}")
            }
            Wanted::Between(low, high) => write_between(f, low, high),
            Wanted::AtLeast(low) => write!(f, "a number from {low} on"),
            Wanted::Exactly(number) => write!(f, "{number}, as in the placement"),
            Wanted::Next(number, what) => write!(f, "{number}, the next {what}"),
            Wanted::RankOr(ranks, or) => write_ranks(f, ranks, or),
            Wanted::Path(levels) => write_path(f, levels),
            Wanted::BatchRank(rank, left) => {
                write!(
                    f,
                    "{rank}, the rank of the batch (calls of it to come: {left})"
                )
            }
            Wanted::KeyOf(shard, shards) => {
                write!(
                    f,
                    "a key of the batch's shard {shard} (a key's shard is the key mod {shards})"
                )
            }
            Wanted::StepsLeft(left) => {
                write!(
                    f,
                    "a number from 0 to {left} (a schedule has at most 2000000 steps)"
                )
            }
            Wanted::Sum(sum) => write!(f, "{sum}, the sum of the others"),
            Wanted::Queues(queues) => write_queues(f, queues, None),
            Wanted::Below(queues, queue) => write_queues(f, queues, Some(queue)),
            Wanted::Bytes(most) => write!(f, "at most {most}"),
        }
    }
}
