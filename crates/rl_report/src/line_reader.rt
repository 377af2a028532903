//! Readers of lines of a fixed form.
ghost use Rattle.std.specs.Prelude.{◌≡◌, ◌+◌, ◌≤◌, IfOk};
ghost use Rattle.std.specs.Str.{bytes_eq};
ghost use Rattle.rl_text.specs.Rows.{row_of};
ghost use Rattle.rl_report.specs.Reading.{version_named, version_at, mode_named, mode_at, sizes_at, counted_at, tally_in_row, rising_at, pair_at, shard_at, done_at, count_at, steps_at};

use crate::naming::{Naming, QueueName};
use crate::report::Done;
use crate::version::Version;
use rl_ops::{MOST_CALLS, MOST_STEPS};
use rl_step::{Steps, Tally};
use rl_text::{Line, LineWords, Refusal, Why};

// The version that the word names, which is the second of its line.
fn version_named(words: &LineWords<'_>, word: &[u8]) -> Result<Version, Refusal>
    requires { words.now.next ≡ 3 }
    ensures { result ≡ version_named words.now.row word.now }
{
    match word {
        b"1" => Ok(Version::First),
        b"2" => Ok(Version::Second),
        _ => Err(words.refusal(Why::Version)),
    }
}

/// Whether the word is this one.
pub fn is(word: &[u8], text: &str) -> bool
    ensures { result ≡ bytes_eq word.now text.now }
{
    word == text.as_bytes()
}

/// `rmalock-report 1`, or 2.
#[tactic(auto, unfolding(crate::specs::Reading::version_at))]
pub fn version_of(line: &Line<'_>) -> Result<Version, Refusal>
    ensures { result ≡ version_at (row_of line.now) }
{
    let mut words = line.words();
    words.fixed(b"rmalock-report", Why::Word)?;
    let word = words.needed()?;
    let version = version_named(&words, word)?;
    words.no_more()?;
    Ok(version)
}

// Whether the word names a replay, which is the first of its line.
fn is_replay(words: &LineWords<'_>, word: &[u8]) -> Result<bool, Refusal>
    requires { words.now.next ≡ 2 }
    ensures { result ≡ mode_named words.now.row word.now }
{
    if is(word, "replay") {
        Ok(true)
    } else if is(word, "run") {
        Ok(false)
    } else {
        Err(words.refusal(Why::Word))
    }
}

/// `replay LOCK`, or `run LOCK`: whether it is a replay.
#[tactic(auto, unfolding(crate::specs::Reading::mode_at))]
pub fn mode_of(line: &Line<'_>, naming: &Naming) -> Result<bool, Refusal>
    ensures { result ≡ mode_at naming.now (row_of line.now) }
{
    let mut words = line.words();
    let word = words.needed()?;
    let replay = is_replay(&words, word)?;
    words.fixed(naming.lock.as_bytes(), Why::Word)?;
    words.no_more()?;
    Ok(replay)
}

/// `ranks R shards S`.
#[tactic(auto, unfolding(crate::specs::Reading::sizes_at))]
pub fn sizes_of(line: &Line<'_>, naming: &Naming) -> Result<(), Refusal>
    ensures { result ≡ sizes_at naming.now (row_of line.now) }
{
    let ranks = u64::from(naming.ranks);
    let shards = u64::from(naming.shards);
    let mut words = line.words();
    words.fixed(b"ranks", Why::Word)?;
    words.between(ranks, ranks)?;
    words.fixed(b"shards", Why::Word)?;
    words.between(shards, shards)?;
    words.no_more()
}

// The next word is this number. Order where it is another one.
#[tactic(auto, unfolding(crate::specs::Reading::counted_at))]
fn counted(words: &mut LineWords<'_>, next: u64) -> Result<(), Refusal>
    requires { words.old.next ≤ 16 }
    ensures value { result ≡ counted_at words.old.row words.old.next next }
    ensures row { words.new.row ≡ words.old.row }
    ensures next { words.new.next ≡ words.old.next + 1 }
{
    let k = words.number()?;
    if k == next {
        Ok(())
    } else {
        Err(words.refusal(Why::Order))
    }
}

/// `queue NAME settled X passed Y`, of this queue.
#[tactic(auto, unfolding(crate::specs::Reading::tally_in_row))]
pub fn tally_of(line: &Line<'_>, queue: &QueueName) -> Result<Tally, Refusal>
    ensures { result ≡ tally_in_row queue.now (row_of line.now) }
{
    let mut words = line.words();
    words.fixed(b"queue", Why::Word)?;
    words.fixed(queue.word.as_slice(), Why::Word)?;
    words.fixed(b"settled", Why::Word)?;
    let settled = words.number()?;
    words.fixed(b"passed", Why::Word)?;
    let passed = words.number()?;
    words.no_more()?;
    Ok(Tally { settled, passed })
}

// The key, which was read last, comes after the last one.
fn rising(words: &LineWords<'_>, last: Option<u64>, key: u64) -> Result<(), Refusal>
    requires { words.now.next ≡ 3 }
    ensures { result ≡ rising_at words.now.row last key }
{
    let Some(last) = last else {
        return Ok(());
    };
    if key == last {
        return Err(words.refusal(Why::Repeat));
    }
    if key < last {
        return Err(words.refusal(Why::Order));
    }
    Ok(())
}

/// `pair K V`, after the last key.
#[tactic(auto, unfolding(crate::specs::Reading::pair_at))]
pub fn pair_of(line: &Line<'_>, last: Option<u64>) -> Result<(u64, u64), Refusal>
    ensures { result ≡ pair_at last (row_of line.now) }
{
    let mut words = line.words();
    words.fixed(b"pair", Why::Word)?;
    let key = words.number()?;
    rising(&words, last, key)?;
    let value = words.number()?;
    words.no_more()?;
    Ok((key, value))
}

/// `shard I updates U entries N`: the updates, and how many entries follow.
#[tactic(auto, unfolding(crate::specs::Reading::shard_at))]
pub fn shard_of(line: &Line<'_>, number: u32) -> Result<(u32, u32), Refusal>
    ensures { result ≡ shard_at number (row_of line.now) }
{
    let mut words = line.words();
    words.fixed(b"shard", Why::Word)?;
    counted(&mut words, u64::from(number))?;
    words.fixed(b"updates", Why::Word)?;
    let updates = words.below(u64::from(MOST_CALLS) + 1)? as u32;
    words.fixed(b"entries", Why::Word)?;
    let entries = words.below(u64::from(MOST_CALLS) + 1)? as u32;
    words.no_more()?;
    Ok((updates, entries))
}

/// `rank K done D of C`.
#[tactic(auto, unfolding(crate::specs::Reading::done_at))]
pub fn done_of(line: &Line<'_>, rank: u32) -> Result<Done, Refusal>
    ensures { result ≡ done_at rank (row_of line.now) }
{
    let mut words = line.words();
    words.fixed(b"rank", Why::Word)?;
    counted(&mut words, u64::from(rank))?;
    words.fixed(b"done", Why::Word)?;
    let done = words.below(u64::from(MOST_CALLS) + 1)? as u32;
    words.fixed(b"of", Why::Word)?;
    let given = words.below(u64::from(MOST_CALLS) + 1)? as u32;
    words.no_more()?;
    Ok(Done { done, given })
}

// A name, and a count of steps.
#[tactic(auto, unfolding(crate::specs::Reading::count_at))]
fn count(words: &mut LineWords<'_>, name: &[u8]) -> Result<u32, Refusal>
    requires { words.old.next ≤ 16 }
    ensures value { result ≡ count_at words.old.row words.old.next name.now }
    ensures row { words.new.row ≡ words.old.row }
    ensures next { IfOk result (λ _. words.new.next ≡ words.old.next + 2) }
    ensures few { IfOk result (λ k. k ≤ 2000000) }
{
    words.fixed(name, Why::Word)?;
    Ok(words.below(u64::from(MOST_STEPS) + 1)? as u32)
}

/// `steps T moved M waiting W lost L busy Z finished F`, where T is the sum of the others.
#[tactic(auto, unfolding(crate::specs::Reading::steps_at))]
pub fn steps_of(line: &Line<'_>) -> Result<Steps, Refusal>
    ensures { result ≡ steps_at (row_of line.now) }
{
    let mut words = line.words();
    let all = count(&mut words, b"steps")?;
    let moved = count(&mut words, b"moved")?;
    let waiting = count(&mut words, b"waiting")?;
    let lost = count(&mut words, b"lost")?;
    let busy = count(&mut words, b"busy")?;
    let finished = count(&mut words, b"finished")?;
    if moved + waiting + lost + busy + finished != all {
        return Err(line.refusal(2, Why::Range));
    }
    words.no_more()?;
    Ok(Steps {
        moved,
        waiting,
        lost,
        busy,
        finished,
    })
}
