//! Reading the ranks of a line.

ghost use Rattle.std.specs.Prelude.{◌≡◌, ◌+◌, ◌-◌, ◌<◌, ◌≤◌, ◌==◌, length, not, IfOk, OnOk};
ghost use Rattle.rl_text.specs.Rows.{row_of, word_at};
ghost use Rattle.rl_text.specs.LineWords.{stepped};
ghost use Rattle.rl_text.specs.Reading.{Gives, GivesLeaving};
ghost use Rattle.rl_sketch.specs.Sketch.{is_among, going};
ghost use Rattle.rl_sketch.specs.SketchReading.{may_of, rank_at, is_there, is_rank_before, listed_before, listed_to_end, all_at, going_ranks_at, stopped_ranks_at};

use crate::sketch::Ranks;
use crate::texts::RankList;
use rl_text::{Line, LineWords, Refusal, TEXT_LIMIT, TextErr, Why, number};
use std::alloc::{AllocError as OutOfMemory, Global};

/// Which ranks a line may name: so many are there, these were stopped, and `again` is the cause where one of those is named.
#[derive(Clone, Copy)]
pub struct Allowed<'a> {
    pub ranks: u8,
    pub stopped: &'a [u8],
    pub again: Why,
}

/// Whether a rank is one of these.
pub fn is_among(list: &[u8], rank: u8) -> bool
    ensures { result ≡ is_among list.now rank }
{
    list.iter().any(|other| *other == rank)
}

/// Of so many ranks, numbered from 0 on, those that weren't stopped, in the order of their numbers. The error is want of memory.
#[tactic(auto, using(crate::proofs::RankLaws::going_with, crate::proofs::RankLaws::going_without))]
pub fn going(alloc: Global, ranks: u8, stopped: &[u8]) -> Result<Vec<u8>, OutOfMemory>
    ensures { IfOk result (λ list. list.items ≡ going ranks stopped.now) }
{
    let mut list = Vec::new(alloc);
    for rank in 0..ranks {
        if is_among(stopped, rank) {
            continue;
        }
        list.push(rank)?;
    }
    Ok(list)
}

/// Whether a rank is left that wasn't stopped.
#[tactic(auto, using(crate::proofs::RankLaws::one_going, crate::proofs::RankLaws::going_without))]
fn is_one_going(ranks: u8, stopped: &[u8]) -> bool
    ensures { result ≡ not (length (going ranks stopped.now) == 0) }
{
    for rank in 0..ranks {
        if !is_among(stopped, rank) {
            return true;
        }
    }
    false
}

/// The next word, a rank that may be named, and isn't one of these.
#[tactic(auto, unfolding(crate::specs::SketchReading::rank_at))]
fn rank_of(words: &mut LineWords<'_>, may: Allowed<'_>, taken: &[u8]) -> Result<u8, Refusal>
    requires { words.old.next < TEXT_LIMIT }
    ensures value { result ≡ rank_at (may_of may.entry) taken.now words.old.row words.old.next }
    ensures steps { words.new ≡ stepped words.old }
{
    let rank = words.below(u64::from(may.ranks))? as u8;
    if is_among(may.stopped, rank) {
        return Err(words.refusal(may.again));
    }
    if is_among(taken, rank) {
        return Err(words.refusal(Why::Repeat));
    }
    Ok(rank)
}

/// Whether word n is there.
fn is_there(line: &Line<'_>, n: u32) -> bool
    requires { 1 ≤ n }
    ensures { result ≡ is_there (word_at (row_of line.now) n) }
{
    match line.word(n) {
        Some(_) => true,
        None => false,
    }
}

/// Whether word n is a number, and another word stands behind it.
fn is_rank_before(line: &Line<'_>, n: u32) -> bool
    requires { (1 ≤ n) × (n < TEXT_LIMIT) }
    ensures { result ≡ is_rank_before (word_at (row_of line.now) n) (word_at (row_of line.now) (n + 1)) }
{
    match line.word(n) {
        Some(word) => match number(word) {
            Some(_) => is_there(line, n + 1),
            None => false,
        },
        None => false,
    }
}

/// The ranks of a line that goes: numbers, as long as another word comes behind.
fn ranks_before(
    alloc: Global,
    line: &Line<'_>,
    words: &mut LineWords<'_>,
    may: Allowed<'_>,
) -> Result<RankList, TextErr>
    requires { words.old ≡ record { row = row_of line.now; next = 1 } }
    ensures value { Gives result (listed_before (may_of may.entry) (row_of line.now)) }
    ensures row { OnOk result (words.new.row ≡ row_of line.now) }
    ensures next { IfOk result (λ list. words.new.next ≡ 1 + length list) }
    ensures few { IfOk result (λ list. length list ≤ may.entry.ranks) }
{
    let mut taken = Vec::new(alloc);
    let first = rank_of(words, may, &[])?;
    taken.push(first)?;
    'ranks: while is_rank_before(line, words.next_number()) {
        let rank = rank_of(words, may, taken.as_slice())?;
        taken.push(rank)?;
    }
    Ok(RankList::from_vec(taken))
}

/// The ranks of a line that stops them: all its words.
fn ranks_to_end(
    alloc: Global,
    words: &mut LineWords<'_>,
    may: Allowed<'_>,
) -> Result<RankList, TextErr>
    requires { words.old.next ≡ 2 }
    ensures { Gives result (listed_to_end (may_of may.entry) words.old.row) }
{
    let mut taken = Vec::new(alloc);
    let first = rank_of(words, may, &[])?;
    taken.push(first)?;
    'ranks: while is_more(words) {
        let rank = rank_of(words, may, taken.as_slice())?;
        taken.push(rank)?;
    }
    Ok(RankList::from_vec(taken))
}

/// Whether the line has a further word.
fn is_more(words: &LineWords<'_>) -> bool
    ensures { result ≡ is_there (word_at words.now.row words.now.next) }
{
    match words.peek() {
        Some(_) => true,
        None => false,
    }
}

/// `all`, the word that was read last, where a rank is left that may be named.
#[tactic(auto, unfolding(crate::specs::SketchReading::all_at))]
fn all_of(words: &LineWords<'_>, may: Allowed<'_>) -> Result<Ranks, Refusal>
    ensures { result ≡ all_at (may_of may.entry) words.now.row (words.now.next - 1) }
{
    if is_one_going(may.ranks, may.stopped) {
        Ok(Ranks::All)
    } else {
        Err(words.refusal(may.again))
    }
}

/// The ranks of a line that goes. The words stand behind them then.
#[tactic(auto, unfolding(crate::specs::SketchReading::going_ranks_at))]
pub fn going_ranks(
    alloc: Global,
    line: &Line<'_>,
    words: &mut LineWords<'_>,
    may: Allowed<'_>,
) -> Result<Ranks, TextErr>
    requires { words.old ≡ record { row = row_of line.now; next = 1 } }
    ensures value { GivesLeaving result words.new.next (going_ranks_at (may_of may.entry) (row_of line.now)) }
    ensures row { OnOk result (words.new.row ≡ row_of line.now) }
    ensures near { OnOk result ((1 ≤ words.new.next) × (words.new.next ≤ 256)) }
{
    if line.begins(b"all") {
        let _ = words.next_word();
        return Ok(all_of(words, may)?);
    }
    let list = ranks_before(alloc, line, words, may)?;
    Ok(Ranks::These(list))
}

/// The ranks of a line that stops them, to the line's end. The words stand behind `stop`.
#[tactic(auto, unfolding(crate::specs::SketchReading::stopped_ranks_at))]
pub fn stopped_ranks(
    alloc: Global,
    words: &mut LineWords<'_>,
    may: Allowed<'_>,
) -> Result<Ranks, TextErr>
    requires { words.old.next ≡ 2 }
    ensures { Gives result (stopped_ranks_at (may_of may.entry) words.old.row) }
{
    if words.is_next(b"all") {
        let _ = words.next_word();
        let all = all_of(words, may)?;
        words.no_more()?;
        return Ok(all);
    }
    let list = ranks_to_end(alloc, words, may)?;
    Ok(Ranks::These(list))
}
