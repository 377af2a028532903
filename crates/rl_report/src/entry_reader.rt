//! Reading the line of an entry.
ghost use Rattle.std.specs.Prelude.{◌≡◌, ◌+◌, ◌-◌, ◌≤◌, ◌<◌, Ok, codes, IfOk};
ghost use Rattle.rl_text.specs.Rows.{row_of};
ghost use Rattle.rl_text.specs.declared.causes.Why.TheVariants.{Word};
ghost use Rattle.rl_text.specs.Reading.{fixed_at, below_at, Leaves};
ghost use Rattle.rl_report.specs.Reading.{undone_at, reply_with, reply_named, reply_at, part_of_at, part_at, entry_at};

use crate::line_reader::is;
use crate::naming::Naming;
use crate::version::Version;
use rl_model::{Entry, Reply};
use rl_ops::{MOST_CALLS, MOST_IN_BATCH, next_call};
use rl_text::{Line, LineWords, Refusal, Why};

// A call that was undone, which only the second version has. Its word was read last.
fn undone(words: &LineWords<'_>, version: Version) -> Result<Reply, Refusal>
    requires { (2 ≤ words.now.next) × (words.now.next ≤ 64) }
    ensures { Leaves result words.now.next (undone_at version words.now.row (words.now.next - 1)) }
{
    match version {
        Version::First => Err(words.refusal(Why::Word)),
        Version::Second => Ok(Reply::Undone),
    }
}

// The word behind `was`: VALUE.
fn was_of(words: &mut LineWords<'_>) -> Result<Reply, Refusal>
    requires { (2 ≤ words.old.next) × (words.old.next ≤ 32) }
    ensures value { Leaves result words.new.next (reply_with words.old.row (words.old.next - 1) (λ value. Reply.Was value)) }
    ensures row { words.new.row ≡ words.old.row }
    ensures after { words.new.next ≤ words.old.next + 1 }
{
    Ok(Reply::Was(words.number()?))
}

// The word behind `val`: VALUE.
fn val_of(words: &mut LineWords<'_>) -> Result<Reply, Refusal>
    requires { (2 ≤ words.old.next) × (words.old.next ≤ 32) }
    ensures value { Leaves result words.new.next (reply_with words.old.row (words.old.next - 1) (λ value. Reply.Val value)) }
    ensures row { words.new.row ≡ words.old.row }
    ensures after { words.new.next ≤ words.old.next + 1 }
{
    Ok(Reply::Val(words.number()?))
}

// The word behind `sum`: VALUE.
fn sum_of(words: &mut LineWords<'_>) -> Result<Reply, Refusal>
    requires { (2 ≤ words.old.next) × (words.old.next ≤ 32) }
    ensures value { Leaves result words.new.next (reply_with words.old.row (words.old.next - 1) (λ value. Reply.Sum value)) }
    ensures row { words.new.row ≡ words.old.row }
    ensures after { words.new.next ≤ words.old.next + 1 }
{
    Ok(Reply::Sum(words.number()?))
}

// The word behind `over`: VALUE.
fn over_of(words: &mut LineWords<'_>) -> Result<Reply, Refusal>
    requires { (2 ≤ words.old.next) × (words.old.next ≤ 32) }
    ensures value { Leaves result words.new.next (reply_with words.old.row (words.old.next - 1) (λ value. Reply.Over value)) }
    ensures row { words.new.row ≡ words.old.row }
    ensures after { words.new.next ≤ words.old.next + 1 }
{
    Ok(Reply::Over(words.number()?))
}

// The word behind `no`: VALUE.
fn no_of(words: &mut LineWords<'_>) -> Result<Reply, Refusal>
    requires { (2 ≤ words.old.next) × (words.old.next ≤ 32) }
    ensures value { Leaves result words.new.next (reply_with words.old.row (words.old.next - 1) (λ value. Reply.No value)) }
    ensures row { words.new.row ≡ words.old.row }
    ensures after { words.new.next ≤ words.old.next + 1 }
{
    Ok(Reply::No(words.number()?))
}

// The reply that begins with the word that was read last.
#[tactic(auto, unfolding(crate::specs::Reading::reply_named))]
fn reply_named(words: &mut LineWords<'_>, version: Version, name: &[u8]) -> Result<Reply, Refusal>
    requires { (2 ≤ words.old.next) × (words.old.next ≤ 32) }
    ensures value { Leaves result words.new.next (reply_named version words.old.row (words.old.next - 1) name.now) }
    ensures row { words.new.row ≡ words.old.row }
    ensures after { words.new.next ≤ words.old.next + 1 }
{
    if is(name, "new") {
        Ok(Reply::New)
    } else if is(name, "was") {
        was_of(words)
    } else if is(name, "full") {
        Ok(Reply::Full)
    } else if is(name, "val") {
        val_of(words)
    } else if is(name, "none") {
        Ok(Reply::Nothing)
    } else if is(name, "sum") {
        sum_of(words)
    } else if is(name, "over") {
        over_of(words)
    } else if is(name, "no") {
        no_of(words)
    } else if is(name, "held") {
        Ok(Reply::Held)
    } else if is(name, "undone") {
        undone(words, version)
    } else {
        Err(words.refusal(Why::Word))
    }
}

// The words of a reply.
#[tactic(auto, unfolding(crate::specs::Reading::reply_at))]
fn next_reply(words: &mut LineWords<'_>, version: Version) -> Result<Reply, Refusal>
    requires { (1 ≤ words.old.next) × (words.old.next ≤ 31) }
    ensures value { Leaves result words.new.next (reply_at version words.old.row words.old.next) }
    ensures row { words.new.row ≡ words.old.row }
    ensures after { words.new.next ≤ words.old.next + 2 }
{
    let name = words.needed()?;
    reply_named(words, version, name)
}

// `part I of N`, with which the line ends: the size of the batch and the part.
#[tactic(auto, unfolding(crate::specs::Reading::part_of_at))]
fn part_in_batch(words: &mut LineWords<'_>) -> Result<(u32, u32), Refusal>
    requires { words.old.next ≤ 64 }
    ensures { result ≡ part_of_at words.old.row words.old.next }
{
    words.fixed(b"part", Why::Word)?;
    let part = words.below(u64::from(MOST_IN_BATCH))? as u32;
    words.fixed(b"of", Why::Word)?;
    let batch = words.between(2, u64::from(MOST_IN_BATCH))? as u32;
    if part >= batch {
        return Err(words.refusal(Why::Range));
    }
    words.no_more()?;
    Ok((batch, part))
}

// What follows a reply. In the second version a word may follow, and begins a part.
#[tactic(auto, unfolding(crate::specs::Reading::part_at))]
fn part_of(words: &mut LineWords<'_>, version: Version) -> Result<(u32, u32), Refusal>
    requires { words.old.next ≤ 64 }
    ensures { result ≡ part_at version words.old.row words.old.next }
{
    match words.no_more() {
        Ok(()) => Ok((0, 0)),
        Err(extra) => match version {
            Version::First => Err(extra),
            Version::Second => part_in_batch(words),
        },
    }
}

// The words of an entry behind its first four, which are read: its call, its reply and its part of a batch.
#[tactic(auto, unfolding(crate::specs::Reading::entry_at))]
fn entry_with(
    words: &mut LineWords<'_>,
    naming: &Naming,
    version: Version,
    shard: u32,
    at: u32,
    rank: u32,
    seq: u32,
) -> Result<Entry, Refusal>
    requires next { words.old.next ≡ 5 }
    requires name { fixed_at words.old.row 1 (codes "entry") Word ≡ Ok tt }
    requires at { below_at words.old.row 2 (MOST_CALLS + 1) ≡ Ok at }
    requires rank { below_at words.old.row 3 naming.now.ranks ≡ Ok rank }
    requires seq { below_at words.old.row 4 MOST_CALLS ≡ Ok seq }
    ensures { result ≡ entry_at naming.now version shard words.old.row }
{
    let shards = naming.shards;
    let call = next_call(words, shards)?;
    words.fixed(b"=", Why::Word)?;
    let reply = next_reply(words, version)?;
    let (batch, part) = part_of(words, version)?;
    Ok(Entry {
        shard,
        rank,
        seq,
        call,
        at,
        reply,
        batch,
        part,
    })
}

/// `entry AT RANK SEQ CALL = REPLY`, and the part of a batch, of a shard.
#[tactic(auto, unfolding(crate::specs::Reading::entry_at))]
pub fn entry_of(
    line: &Line<'_>,
    naming: &Naming,
    version: Version,
    shard: u32,
) -> Result<Entry, Refusal>
    ensures { result ≡ entry_at naming.now version shard (row_of line.now) }
{
    let ranks = u64::from(naming.ranks);
    let mut words = line.words();
    words.fixed(b"entry", Why::Word)?;
    let at = words.below(u64::from(MOST_CALLS) + 1)? as u32;
    let rank = words.below(ranks)? as u32;
    let seq = words.below(u64::from(MOST_CALLS))? as u32;
    entry_with(&mut words, naming, version, shard, at, rank, seq)
}
