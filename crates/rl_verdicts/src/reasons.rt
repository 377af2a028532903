//! Why a report isn't legal: what it tells, and what was due.

use crate::spelling::{SpelledCall, SpelledReply};
use rl_model::{Call, Reply};
use std::fmt;

/// A part of a batch: which call of which rank it is, and the batch's size.
#[derive(Clone, Copy)]
pub struct BatchPart {
    pub rank: u32,
    pub number: u32,
    pub part: u32,
    pub batch: u32,
}

impl fmt::Display for BatchPart {
    fn fmt<W: fmt::Write>(&self, f: &mut fmt::Formatter<W>) -> fmt::Result {
        let BatchPart {
            rank,
            number,
            part,
            batch,
        } = *self;
        write!(f, "part {part} of {batch}, call {number} of rank {rank}")
    }
}

/// Why a test fails. Each has what is told and what was due, in this order where it has both.
#[derive(Clone, Copy)]
pub enum Reason {
    /// The call is told of this shard and is of that one, of so many.
    OfShard(u32, u32, u32),
    /// The entry has a lower count than the one before it, on the line.
    Earlier(u32, u32, usize),
    /// The entry has the count of the update before it, on the line.
    BehindUpdate(u32, usize),
    /// At one count the entry has a lower rank than the one before it.
    LowerRank(u32, u32, usize),
    /// At one count the entry has no higher number than its rank's entry before it.
    LowerNumber(u32, u32, usize),
    /// The entry is this part of a batch, where that one is due.
    GoesOn(BatchPart, BatchPart),
    /// The entry begins no block: it is told as this part of a batch of that size.
    NoBlock(u32, u32),
    /// The last batch has so many of its calls.
    CutOff(u32, u32),
    /// The entry's count, and the updates before it.
    Count(u32, usize),
    /// The entry's reply, and the one that one thread gets.
    Replied(Reply, Reply),
    /// How many updates are told, and how many there are.
    Updates(u32, usize),
    /// A queue was settled and passed so often, with this budget.
    Budget(u64, u64, u32),
    /// A queue was settled and passed so often, and so many tenures are told.
    Tenures(u64, u64, u64),
    /// A queue was settled and passed so often, and by the events so often.
    Counted((u64, u64), (u64, u64)),
    /// A pair that is told, and the one that is due.
    Pair(Option<(u64, u64)>, Option<(u64, u64)>),
    /// A writer enters beside this rank, which is inside since the event on the line.
    Beside(u32, u32, usize),
    /// The queue is passed so often since it was settled, with this budget.
    Passed(u32, u32),
    /// So many entries of the rank, which has so many calls.
    TooMany(usize, usize),
    /// The rank has no entry with this number, which is this call.
    NoEntry(u32, Call),
    /// The rank has this number twice, on these lines.
    Twice(u32, usize, usize),
    /// Another call is told than that of the calls file.
    OtherCall(Call, Call),
    /// Another part of a batch is told than that of the calls file: each by part and size.
    OtherPart((u32, u32), (u32, u32)),
    /// The entry's count, and the least that is due behind the rank's entry before it, on the line.
    Stale(u32, u32, usize),
    /// What is done of what was given, as told and as due.
    Done((u32, u32), (usize, usize)),
    /// The rank's entries end inside a batch.
    InsideBatch(usize),
    /// What can't be said.
    Unknown,
}

/// Writes a part of a batch.
fn write_part<W: fmt::Write>(f: &mut fmt::Formatter<W>, part: (u32, u32)) -> fmt::Result {
    let (number, batch) = part;
    if batch == 0 {
        f.write_str("a call alone")
    } else {
        write!(f, "part {number} of {batch}")
    }
}

/// Writes a pair, or that there is none.
fn write_pair<W: fmt::Write>(f: &mut fmt::Formatter<W>, pair: Option<(u64, u64)>) -> fmt::Result {
    match pair {
        Some((key, value)) => write!(f, "\"pair {key} {value}\""),
        None => f.write_str("no pair"),
    }
}

/// Writes two parts of batches.
fn write_parts<W: fmt::Write>(
    f: &mut fmt::Formatter<W>,
    told: (u32, u32),
    due: (u32, u32),
) -> fmt::Result {
    f.write_str("told ")?;
    write_part(f, told)?;
    f.write_str(", in the calls file it is ")?;
    write_part(f, due)
}

/// Writes two pairs.
fn write_pairs<W: fmt::Write>(
    f: &mut fmt::Formatter<W>,
    told: Option<(u64, u64)>,
    due: Option<(u64, u64)>,
) -> fmt::Result {
    f.write_str("told ")?;
    write_pair(f, told)?;
    f.write_str(", the table holds ")?;
    write_pair(f, due)
}

/// Writes two calls.
fn write_calls<W: fmt::Write>(f: &mut fmt::Formatter<W>, told: Call, due: Call) -> fmt::Result {
    let told = SpelledCall(told);
    let due = SpelledCall(due);
    write!(f, "told {told}, the calls file has {due}")
}

/// Writes two replies.
fn write_replies<W: fmt::Write>(f: &mut fmt::Formatter<W>, told: Reply, due: Reply) -> fmt::Result {
    let told = SpelledReply(told);
    let due = SpelledReply(due);
    write!(f, "told {told}, one thread gets {due}")
}

/// Writes why a queue's tally isn't due.
fn write_tallied<W: fmt::Write>(f: &mut fmt::Formatter<W>, reason: Reason) -> fmt::Result {
    match reason {
        Reason::Budget(settled, passed, budget) => {
            write!(
                f,
                "told settled {settled}, passed {passed}, the budget is {budget} for each settlement"
            )
        }
        Reason::Tenures(settled, passed, tenures) => {
            write!(
                f,
                "told settled {settled}, passed {passed}, both together are due {tenures}, the tenures told of"
            )
        }
        Reason::Counted((told, told_passed), (due, due_passed)) => {
            write!(
                f,
                "told settled {told}, passed {told_passed}, the events are settled {due}, passed {due_passed}"
            )
        }
        Reason::Passed(passed, budget) => {
            write!(
                f,
                "told pass {passed} since it was settled, the budget is {budget}"
            )
        }
        _ => f.write_str("told otherwise than due"),
    }
}

/// Writes why an entry can't stand where it does.
fn write_order<W: fmt::Write>(f: &mut fmt::Formatter<W>, reason: Reason) -> fmt::Result {
    match reason {
        Reason::OfShard(told, due, shards) => {
            write!(
                f,
                "told of shard {told}, due of shard {due} (a key's shard is the key mod {shards})"
            )
        }
        Reason::Earlier(told, due, line) => {
            write!(
                f,
                "told AT {told}, due {due} or more, as in line {line} before it"
            )
        }
        Reason::BehindUpdate(told, line) => {
            let due = u64::from(told) + 1;
            write!(
                f,
                "told AT {told}, due {due} or more, behind the update of line {line}"
            )
        }
        Reason::LowerRank(told, due, line) => {
            write!(
                f,
                "told rank {told}, due {due} or more, behind line {line} with the same AT"
            )
        }
        Reason::LowerNumber(told, last, line) => {
            let due = u64::from(last) + 1;
            write!(
                f,
                "told number {told} of the rank, due {due} or more, behind line {line} with the same AT"
            )
        }
        Reason::Count(told, due) => write!(f, "told AT {told}, due {due}, the updates before it"),
        Reason::Stale(told, due, line) => {
            write!(
                f,
                "told AT {told}, due {due} or more, behind the rank's call of line {line}"
            )
        }
        _ => write_tallied(f, reason),
    }
}

/// Writes why a batch isn't right.
fn write_batch<W: fmt::Write>(f: &mut fmt::Formatter<W>, reason: Reason) -> fmt::Result {
    match reason {
        Reason::GoesOn(told, due) => write!(f, "told {told}, due {due}, an update"),
        Reason::NoBlock(told, batch) => {
            write!(
                f,
                "told part {told} of {batch}, due part 0 and an update, or a call alone"
            )
        }
        Reason::CutOff(told, due) => { write!(f, "told {told} calls of the last batch, due {due}") }
        Reason::InsideBatch(told) => {
            write!(
                f,
                "told {told} entries, which end inside a batch of the calls file"
            )
        }
        _ => write_order(f, reason),
    }
}

/// Writes why a rank's calls aren't those that are told.
fn write_asked<W: fmt::Write>(f: &mut fmt::Formatter<W>, reason: Reason) -> fmt::Result {
    match reason {
        Reason::TooMany(told, due) => write!(
            f,
            "told {told} entries, due {due} at most, its calls"
        ),
        Reason::NoEntry(number, call) => {
            let call = SpelledCall(call);
            write!(f, "told no entry of its call {number}, due {call}")
        }
        Reason::Twice(number, first, second) => {
            write!(
                f,
                "told call {number} twice, lines {first} and {second}, due once"
            )
        }
        Reason::Done(told, due) => {
            let (done, given) = told;
            let (all, of) = due;
            write!(f, "told done {done} of {given}, due done {all} of {of}")
        }
        _ => write_batch(f, reason),
    }
}

impl fmt::Display for Reason {
    fn fmt<W: fmt::Write>(&self, f: &mut fmt::Formatter<W>) -> fmt::Result {
        match *self {
            Reason::Replied(told, due) => write_replies(f, told, due),
            Reason::Updates(told, due) => {
                write!(f, "told updates {told}, due {due}, those among its entries")
            }
            Reason::Pair(told, due) => write_pairs(f, told, due),
            Reason::Beside(rank, other, line) => {
                write!(
                    f,
                    "told that rank {rank} enters, due nobody beside a writer, but rank {other} is inside since line {line}"
                )
            }
            Reason::OtherCall(told, due) => write_calls(f, told, due),
            Reason::OtherPart(told, due) => write_parts(f, told, due),
            Reason::Unknown => f.write_str("told otherwise than due"),
            reason => write_asked(f, reason),
        }
    }
}
