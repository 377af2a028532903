//! Reading one line of a calls file.
ghost use Rattle.std.specs.Prelude.{◌≡◌, ◌&&◌, codes};
ghost use Rattle.rl_text.specs.Rows.{row_of};
ghost use Rattle.rl_text.specs.Reading.{begins};
ghost use Rattle.rl_ops.specs.OpsReading.{version_named, version_at, own_call_at, size_at, block_at, names_update, is_of_shard, part_at, expected_at, may_end, one_too_many, line_after};

use crate::call_reader::next_call;
use crate::calls_line::{CallsLine, CallsVersion};
use crate::ops::{MOST_CALLS, MOST_IN_BATCH};
use crate::progress::{Expected, Progress, shard_of_key};
use rl_model::Call;
use rl_text::{Line, LineWords, Refusal, Why};

// The version that the word names that was read last, the second of its line.
fn version_named(words: &LineWords<'_>, word: &[u8]) -> Result<CallsVersion, Refusal>
    requires { words.now.next ≡ 3 }
    ensures { result ≡ version_named words.now.row word.now }
{
    match word {
        b"1" => Ok(CallsVersion::One),
        b"2" => Ok(CallsVersion::Two),
        _ => Err(words.refusal(Why::Version)),
    }
}

// rmalock-calls VERSION
#[tactic(auto, unfolding(crate::specs::OpsReading::version_at))]
pub fn version_of(line: &Line<'_>) -> Result<CallsVersion, Refusal>
    ensures { result ≡ version_at (row_of line.now) }
{
    let mut words = line.words();
    words.fixed(b"rmalock-calls", Why::Word)?;
    let word = words.needed()?;
    let version = version_named(&words, word)?;
    words.no_more()?;
    Ok(version)
}

// CALL, from word 2 on, and no further word
#[tactic(auto, unfolding(crate::specs::OpsReading::own_call_at))]
fn own_call_of(words: &mut LineWords<'_>, shards: u32) -> Result<Call, Refusal>
    requires { words.old.next ≡ 2 }
    ensures { result ≡ own_call_at shards words.old.row }
{
    let call = next_call(words, shards)?;
    words.no_more()?;
    Ok(call)
}

// The size of a batch, and no further word.
#[tactic(auto, unfolding(crate::specs::OpsReading::size_at))]
fn size_of(line: &Line<'_>) -> Result<u32, Refusal>
    ensures value { result ≡ size_at (row_of line.now) }
{
    let mut words = line.words_from(3);
    let size = words.between(2, u64::from(MOST_IN_BATCH))?;
    words.no_more()?;
    Ok(size as u32)
}

// RANK CALL, or, in the second version, RANK batch SIZE
#[tactic(auto, unfolding(crate::specs::OpsReading::block_at))]
fn block_of(
    line: &Line<'_>,
    version: CallsVersion,
    ranks: u32,
    shards: u32,
) -> Result<CallsLine, Refusal>
    ensures { result ≡ block_at version ranks shards (row_of line.now) }
{
    let mut words = line.words();
    let rank = words.below(u64::from(ranks))? as u32;
    if version == CallsVersion::Two && words.is_next(b"batch") {
        let size = size_of(line)?;
        return Ok(CallsLine::Batch { rank, size });
    }
    let call = own_call_of(&mut words, shards)?;
    Ok(CallsLine::Asks {
        rank,
        call,
        size: 1,
    })
}

fn names_update(name: &[u8]) -> bool
    ensures { result ≡ names_update name.now }
{
    matches!(name, b"put" | b"del" | b"add" | b"cas")
}

// Whether a key is of the shard of its batch, which has none before its first call.
fn is_of_shard(shards: u32, shard: Option<u64>, key: u64) -> bool
    ensures { result ≡ is_of_shard shards shard key }
{
    match shard {
        None => true,
        Some(shard) => shard_of_key(key, shards) == shard,
    }
}

// RANK UPDATE in a batch of this rank and this shard
#[tactic(auto, unfolding(crate::specs::OpsReading::part_at))]
fn part_of(
    line: &Line<'_>,
    ranks: u32,
    shards: u32,
    rank: u32,
    shard: Option<u64>,
) -> Result<Call, Refusal>
    ensures { result ≡ part_at ranks shards rank shard (row_of line.now) }
{
    let mut words = line.words();
    if words.below(u64::from(ranks))? != u64::from(rank) {
        return Err(words.refusal(Why::Order));
    }
    if !names_update(words.needed()?) {
        return Err(words.refusal(Why::Word));
    }
    if !is_of_shard(shards, shard, words.number()?) {
        return Err(words.refusal(Why::Range));
    }
    own_call_of(&mut line.words_from(2), shards)
}

#[tactic(auto, unfolding(crate::specs::OpsReading::expected_at))]
fn expected_of(
    line: &Line<'_>,
    version: CallsVersion,
    ranks: u32,
    shards: u32,
    expected: Expected,
) -> Result<CallsLine, Refusal>
    ensures { result ≡ expected_at version ranks shards expected (row_of line.now) }
{
    match expected {
        Expected::NewBlock => block_of(line, version, ranks, shards),
        Expected::FirstCall { rank, size } => {
            let call = part_of(line, ranks, shards, rank, None)?;
            Ok(CallsLine::Asks { rank, call, size })
        }
        Expected::FurtherCall { rank, shard, .. } => {
            let call = part_of(line, ranks, shards, rank, Some(shard))?;
            Ok(CallsLine::Asks {
                rank,
                call,
                size: 0,
            })
        }
    }
}

// Whether the line is the last: it is `end`, and no batch is cut off.
pub fn is_end(line: &Line<'_>, expected: Expected) -> bool
    ensures { result ≡ (may_end expected && begins (row_of line.now) (codes "end")) }
{
    expected.may_end() && line.begins(b"end")
}

// The refusal of a line after the last call.
fn one_too_many(line: &Line<'_>, expected: Expected) -> Refusal
    ensures { result ≡ one_too_many expected (row_of line.now) }
{
    if !expected.may_end() && line.begins(b"end") {
        line.refusal(1, Why::Number)
    } else {
        line.refusal(0, Why::Range)
    }
}

// A line after those that were read.
#[tactic(auto, unfolding(crate::specs::OpsReading::line_after))]
pub fn line_of(
    line: &Line<'_>,
    version: CallsVersion,
    ranks: u32,
    shards: u32,
    progress: Progress,
) -> Result<CallsLine, Refusal>
    ensures { result ≡ line_after version ranks shards progress (row_of line.now) }
{
    if progress.count < MOST_CALLS {
        expected_of(line, version, ranks, shards, progress.expected)
    } else {
        Err(one_too_many(line, progress.expected))
    }
}
