//! The table of the grammar: what each word of each kind of line has to be. A word is asked for by its number, counted from 1.
ghost use Rattle.std.specs.Prelude.{◌≤◌};

use crate::kinds::{Known, LineKind};
use crate::wanted::Wanted;
use rl_place::lock_word;
use rl_report::QueueName;
use rl_text::{Line, Why, number};

/// A word of a line, if it is there.
fn word_of<'a>(line: Option<Line<'a>>, word: u32) -> &'a [u8]
    requires { 1 ≤ word }
{
    match line {
        Some(line) => line.word(word).unwrap_or(&[]),
        None => &[],
    }
}

/// The number that a word of a line spells, and 0 where it spells none.
pub fn number_in(line: Line<'_>, word: u32) -> u64
    requires { 1 ≤ word }
{
    match line.word(word) {
        Some(word) => number(word).unwrap_or(0),
        None => 0,
    }
}

/// The same, as far as it has a place in 32 bits.
pub fn small_in(line: Line<'_>, word: u32) -> u32
    requires { 1 ≤ word }
{
    u32::try_from(number_in(line, word)).unwrap_or(0)
}

/// What the number of a rank line has to be.
fn rank_number<'a>(known: &Known<'a>) -> Wanted<'a> {
    if known.next < 32 {
        Wanted::Next(known.next, "rank")
    } else {
        Wanted::Text("a line \"home I PATH\", since 32 ranks are the most")
    }
}

/// Which lines may begin where a rank is told.
fn rank_or_home(kind: LineKind) -> &'static str {
    match kind {
        LineKind::FirstRank => "a line \"rank K at PATH\"",
        _ => "a line \"rank K at PATH\" or \"home I PATH\"",
    }
}

/// What the path of a home has to be.
fn home_path<'a>(why: Why, known: &Known<'a>) -> Wanted<'a> {
    match why {
        Why::Range => Wanted::Text("the path of a rank, since a shard lives where a rank sits"),
        _ => Wanted::Path(known.levels),
    }
}

/// The form of the line of the budgets of so many levels.
fn budgets_form(levels: u32) -> &'static str {
    match levels {
        1 => "budget B1",
        2 => "budget B1 B2",
        _ => "budget B1 B2 B3",
    }
}

/// The words of a placement's settings.
fn setting_word<'a>(kind: LineKind, word: u32, known: &Known<'a>) -> Wanted<'a> {
    match (kind, word) {
        (LineKind::Budgets, 1) => Wanted::Form(budgets_form(known.levels)),
        (_, 1) => Wanted::Form(kind.form()),
        (LineKind::PlaceHead, _) => Wanted::Word("1"),
        (LineKind::Levels, _) => Wanted::Between(1, 3),
        (LineKind::Lock, _) => {
            Wanted::Text("one of the locks spin, dmcs, alock, mcs, rw, seq, combine")
        }
        (LineKind::Cohorts | LineKind::Budgets | LineKind::Writers, _) => Wanted::Between(0, 1000),
        (LineKind::Readers, _) => Wanted::Between(1, 1000),
        (LineKind::Group, _) => Wanted::Between(1, 32),
        (LineKind::Shards, _) => Wanted::Between(1, 16),
        (LineKind::Buckets, _) => Wanted::Between(1, 64),
        _ => Wanted::Between(0, 64),
    }
}

/// The words of the line of a rank.
fn rank_word<'a>(kind: LineKind, word: u32, known: &Known<'a>) -> Wanted<'a> {
    match word {
        1 => Wanted::Text(rank_or_home(kind)),
        2 => rank_number(known),
        3 => Wanted::Word("at"),
        _ => Wanted::Path(known.levels),
    }
}

/// The words of the line of a home.
fn home_word<'a>(word: u32, why: Why, known: &Known<'a>) -> Wanted<'a> {
    match word {
        1 => Wanted::Form(LineKind::Home.form()),
        2 => Wanted::Next(known.next, "shard"),
        _ => home_path(why, known),
    }
}

/// The words of a placement.
fn place_word<'a>(kind: LineKind, word: u32, why: Why, known: &Known<'a>) -> Wanted<'a> {
    match kind {
        LineKind::FirstRank | LineKind::Rank => rank_word(kind, word, known),
        LineKind::Home => home_word(word, why, known),
        _ => setting_word(kind, word, known),
    }
}

/// How many words follow a call's name.
fn arguments(name: &[u8]) -> u32
    ensures { result ≤ 3 }
{
    match name {
        b"cas" => 3,
        b"put" | b"add" => 2,
        _ => 1,
    }
}

/// The words behind the name of a call.
fn argument<'a>(name: &[u8], known: &Known<'a>) -> Wanted<'a> {
    match name {
        b"hold" => Wanted::Between(0, u64::from(known.shards.saturating_sub(1))),
        b"batch" => Wanted::Between(2, 8),
        _ => Wanted::Between(0, u64::MAX),
    }
}

/// What the name of a call has to be.
fn call_name<'a>(second: bool, name: &[u8]) -> Wanted<'a> {
    if second {
        return Wanted::Text("one of the calls put, get, del, add, cas, hold, or batch");
    }
    match name {
        b"batch" => Wanted::Text(
            "one of the calls put, get, del, add, cas, hold (a batch needs \"rmalock-calls 2\" in line 1)",
        ),
        _ => Wanted::Text("one of the calls put, get, del, add, cas, hold"),
    }
}

/// What the key of a call in a batch has to be.
fn part_key<'a>(why: Why, known: &Known<'a>) -> Wanted<'a> {
    match (why, known.shard) {
        (Why::Range, Some(shard)) => Wanted::KeyOf(shard, known.shards),
        _ => Wanted::Between(0, u64::MAX),
    }
}

/// The words of calls.
fn calls_word<'a>(
    kind: LineKind,
    line: Option<Line<'a>>,
    word: u32,
    why: Why,
    known: &Known<'a>,
) -> Wanted<'a> {
    let name = word_of(line, 2);
    match (kind, word) {
        (LineKind::CallsHead, 1) => Wanted::Form(kind.form()),
        (LineKind::CallsHead, _) => Wanted::Text("1, or 2 where there are batches"),
        (LineKind::Call, 1) => Wanted::RankOr(known.ranks, ", or \"end\""),
        (LineKind::Call, 2) => call_name(known.second, name),
        (LineKind::Call, _) => argument(name, known),
        (_, 1) => Wanted::BatchRank(known.rank, known.left),
        (_, 2) => Wanted::Text("one of put, del, add, cas (a batch has updates alone)"),
        (_, 3) => part_key(why, known),
        _ => Wanted::Between(0, u64::MAX),
    }
}

/// What the rank of a turn has to be.
fn turn_rank<'a>(why: Why, known: &Known<'a>) -> Wanted<'a> {
    match why {
        Why::Order => Wanted::Text("a rank that isn't stopped"),
        _ => Wanted::RankOr(known.ranks, ", \"stop\" or \"end\""),
    }
}

/// What the rank of a stop has to be.
fn stop_rank<'a>(why: Why, known: &Known<'a>) -> Wanted<'a> {
    match why {
        Why::Repeat => Wanted::Text("a rank that isn't stopped yet"),
        _ => Wanted::RankOr(known.ranks, ""),
    }
}

/// The words of a schedule.
fn schedule_word<'a>(kind: LineKind, word: u32, why: Why, known: &Known<'a>) -> Wanted<'a> {
    match (kind, word) {
        (LineKind::ScheduleHead, 1) => Wanted::Form(kind.form()),
        (LineKind::ScheduleHead, _) => Wanted::Word("1"),
        (LineKind::Turn, 1) => turn_rank(why, known),
        (LineKind::Turn, _) => Wanted::StepsLeft(known.left),
        _ => stop_rank(why, known),
    }
}

/// The words of a report's lines of a fixed form, behind the first.
fn fixed_word<'a>(kind: LineKind, word: u32, known: &Known<'a>) -> Wanted<'a> {
    match (kind, word) {
        (LineKind::Mode, _) => Wanted::Word(lock_word(known.lock)),
        (LineKind::Sizes, 2) => Wanted::Exactly(u64::from(known.ranks)),
        (LineKind::Sizes, 3) => Wanted::Word("shards"),
        (LineKind::Sizes, _) => Wanted::Exactly(u64::from(known.shards)),
        (LineKind::Shard, 2) => Wanted::Next(known.next, "shard"),
        (LineKind::Shard, 3) => Wanted::Word("updates"),
        (LineKind::Shard, 5) => Wanted::Word("entries"),
        (LineKind::Done, 2) => Wanted::Next(known.next, "rank"),
        (LineKind::Done, 3) => Wanted::Word("done"),
        (LineKind::Done, 5) => Wanted::Word("of"),
        (LineKind::Shard | LineKind::Done, _) => Wanted::Between(0, 20_000),
        _ => Wanted::Text("1 or 2"),
    }
}

/// The sum of the answers in a line of steps.
fn sum_in(line: Line<'_>) -> u64 {
    let mut sum = 0u64;
    for half in 2..7u32 {
        sum = sum.saturating_add(number_in(line, 2 * half));
    }
    sum
}

/// What the number of all steps has to be.
fn all_steps<'a>(line: Option<Line<'a>>, why: Why) -> Wanted<'a> {
    match (line, why) {
        (Some(line), Why::Range) => Wanted::Sum(sum_in(line)),
        _ => Wanted::Between(0, 2_000_000),
    }
}

/// The words of the line of the steps.
fn steps_word<'a>(line: Option<Line<'a>>, word: u32, why: Why) -> Wanted<'a> {
    match word {
        1 => Wanted::Form(LineKind::Steps.form()),
        2 => all_steps(line, why),
        3 => Wanted::Word("moved"),
        5 => Wanted::Word("waiting"),
        7 => Wanted::Word("lost"),
        9 => Wanted::Word("busy"),
        11 => Wanted::Word("finished"),
        _ => Wanted::Between(0, 2_000_000),
    }
}

/// What the name of a queue's line has to be.
fn queue_name<'a>(known: &Known<'a>) -> Wanted<'a> {
    let Some(naming) = known.naming else {
        return Wanted::Text("the name of a queue");
    };
    match naming.queues.get(known.next as usize) {
        Some(queue) => Wanted::Name(queue.word.as_slice()),
        None => Wanted::Text("the name of a queue"),
    }
}

/// The words of the line of a queue.
fn queue_word<'a>(word: u32, known: &Known<'a>) -> Wanted<'a> {
    match word {
        1 => Wanted::Form(LineKind::Queue.form()),
        2 => queue_name(known),
        3 => Wanted::Word("settled"),
        5 => Wanted::Word("passed"),
        _ => Wanted::Between(0, u64::MAX),
    }
}

/// The words behind the first of the line of a pair.
fn pair_word<'a>(word: u32, why: Why, known: &Known<'a>) -> Wanted<'a> {
    match (word, why) {
        (2, Why::Repeat | Why::Order) => Wanted::AtLeast(known.least.saturating_add(1)),
        _ => Wanted::Between(0, u64::MAX),
    }
}

/// The names of replies.
fn reply_names(second: bool) -> &'static str {
    if second {
        "one of the replies new, was, full, val, none, sum, over, no, held, undone"
    } else {
        "one of the replies new, was, full, val, none, sum, over, no, held"
    }
}

/// Whether a number follows the name of a reply.
fn has_value(reply: &[u8]) -> bool {
    matches!(reply, b"was" | b"val" | b"sum" | b"over" | b"no")
}

/// The words behind the name of a reply, the first of which is number 0: its number, if it has one, and the part of a batch.
fn behind_reply<'a>(reply: &'a [u8], word: u32) -> Wanted<'a> {
    let word = if has_value(reply) {
        word
    } else {
        word.saturating_add(1)
    };
    match word {
        0 => Wanted::Between(0, u64::MAX),
        1 => Wanted::Word("part"),
        2 => Wanted::Between(0, 7),
        3 => Wanted::Word("of"),
        _ => Wanted::Text("a number from 2 to 8 that is more than the part"),
    }
}

/// The words of an entry from `=` on, which is number 0.
fn told_word<'a>(reply: &'a [u8], word: u32, second: bool) -> Wanted<'a> {
    match word {
        0 => Wanted::Word("="),
        1 => Wanted::Text(reply_names(second)),
        _ => behind_reply(reply, word - 2),
    }
}

/// The words of an entry from its call on.
fn entry_call_word<'a>(line: Option<Line<'a>>, word: u32, known: &Known<'a>) -> Wanted<'a> {
    let name = word_of(line, 5);
    let equals = 6 + arguments(name);
    if word == 5 {
        return call_name(false, &[]);
    }
    if word < equals {
        return argument(name, known);
    }
    told_word(word_of(line, equals + 1), word - equals, known.second)
}

/// The words of an entry.
fn entry_word<'a>(line: Option<Line<'a>>, word: u32, known: &Known<'a>) -> Wanted<'a> {
    match word {
        1 => Wanted::Form(LineKind::Entry.form()),
        2 => Wanted::Between(0, 20_000),
        3 => Wanted::RankOr(known.ranks, ""),
        4 => Wanted::Between(0, 19_999),
        _ => entry_call_word(line, word, known),
    }
}

/// What the step of an event has to be.
fn event_step<'a>(why: Why, known: &Known<'a>) -> Wanted<'a> {
    match why {
        Why::Order => Wanted::AtLeast(known.least),
        _ => Wanted::Between(0, 1_999_999),
    }
}

/// What the cohort of an event has to be.
fn cohort<'a>(known: &Known<'a>) -> Wanted<'a> {
    if known.lock.facts().queues.has_cohorts() {
        Wanted::Text("\"local\" or \"remote\"")
    } else {
        Wanted::Text("another event, since this lock has no cohorts")
    }
}

/// What the queue of an event has to be.
fn event_queue<'a>(known: &Known<'a>) -> Wanted<'a> {
    match known.naming {
        Some(naming) => Wanted::Queues(naming.queues.as_slice()),
        None => Wanted::Text("the name of a queue"),
    }
}

/// Whether the queue of this number has elements as its members.
fn of_elements(queues: &[QueueName], at: usize) -> bool {
    match queues.get(at) {
        Some(queue) => !queue.of_ranks,
        None => false,
    }
}

/// Where the queue of this name stands.
fn place_named(queues: &[QueueName], name: &[u8]) -> usize {
    queues
        .iter()
        .position(|queue| queue.word.as_slice() == name)
        .unwrap_or(queues.len())
}

/// What the member of a queue has to be, in a line whose fourth word is the queue.
fn member<'a>(line: Option<Line<'a>>, known: &Known<'a>) -> Wanted<'a> {
    let Some(naming) = known.naming else {
        return Wanted::Text("a member of the queue");
    };
    let queues = naming.queues.as_slice();
    let at = place_named(queues, word_of(line, 4));
    if of_elements(queues, at) {
        Wanted::Below(queues, u32::try_from(at).unwrap_or(0))
    } else {
        Wanted::RankOr(known.ranks, "")
    }
}

/// The words of an event.
fn event_word<'a>(line: Option<Line<'a>>, word: u32, why: Why, known: &Known<'a>) -> Wanted<'a> {
    let name = word_of(line, 3);
    match (word, name) {
        (2, _) => event_step(why, known),
        (3, _) => Wanted::Text(
            "one of the events join, announce, pass, settle, enter-w, enter-r, leave-w, leave-r",
        ),
        (4, b"announce") => cohort(known),
        (4, b"join" | b"pass" | b"settle") => event_queue(known),
        (4, _) => Wanted::RankOr(known.ranks, ""),
        _ => member(line, known),
    }
}

/// The first word of a report's line of a fixed form.
fn first_word<'a>(kind: LineKind, known: &Known<'a>) -> Wanted<'a> {
    match (known.more, known.replay) {
        (true, true) => Wanted::Either(LineKind::Event.form(), kind.form()),
        (true, false) => Wanted::Either(LineKind::Pair.form(), kind.form()),
        _ => Wanted::Form(kind.form()),
    }
}

/// The words of a report.
fn report_word<'a>(
    kind: LineKind,
    line: Option<Line<'a>>,
    word: u32,
    why: Why,
    known: &Known<'a>,
) -> Wanted<'a> {
    match (kind, word) {
        (LineKind::Mode, 1) => Wanted::Text("\"replay\" or \"run\""),
        (LineKind::Entry, _) => entry_word(line, word, known),
        (LineKind::Queue, _) => queue_word(word, known),
        (LineKind::Pair, _) => pair_word(word, why, known),
        (LineKind::Event, _) => event_word(line, word, why, known),
        (LineKind::Steps, _) => steps_word(line, word, why),
        (_, 1) => first_word(kind, known),
        _ => fixed_word(kind, word, known),
    }
}

/// What a word of a line of this kind has to be, where its cause is not the end of the line or of the file.
pub fn word_wanted<'a>(
    kind: LineKind,
    line: Option<Line<'a>>,
    word: u32,
    why: Why,
    known: &Known<'a>,
) -> Wanted<'a> {
    match kind {
        LineKind::End => Wanted::Word("end"),
        LineKind::CallsHead | LineKind::Call | LineKind::Part => {
            calls_word(kind, line, word, why, known)
        }
        LineKind::ScheduleHead | LineKind::Turn | LineKind::Stop => {
            schedule_word(kind, word, why, known)
        }
        LineKind::ReportHead
        | LineKind::Mode
        | LineKind::Sizes
        | LineKind::Shard
        | LineKind::Entry
        | LineKind::Queue
        | LineKind::Pair
        | LineKind::Event
        | LineKind::Done
        | LineKind::Steps => report_word(kind, line, word, why, known),
        _ => place_word(kind, word, why, known),
    }
}

/// What is wanted at a place of a line of this kind: by its cause, and else by the table.
pub fn wanted_at<'a>(
    kind: LineKind,
    line: Option<Line<'a>>,
    word: u32,
    why: Why,
    known: &Known<'a>,
) -> Wanted<'a> {
    match (why, word) {
        (Why::Extra, 0) => Wanted::Text("nothing behind the line \"end\""),
        (Why::Extra, _) => Wanted::Text("the end of the line"),
        (Why::NoEnd, _) if line.is_some() => Wanted::Text("a newline at the end of each line"),
        (Why::NoEnd, _) => word_wanted(kind, line, 1, why, known),
        (_, 0) => Wanted::Text("the line \"end\", since 20000 calls are the most"),
        _ => word_wanted(kind, line, word, why, known),
    }
}
