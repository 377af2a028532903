//! The summary of a run.
ghost use Rattle.std.specs.Prelude.{◌≡◌, ◌∷◌, [], decimal, IfOk};
ghost use Rattle.std.specs.List.{join_with_byte};
ghost use Rattle.rl_text.specs.Printing.{Puts};
ghost use Rattle.rl_text.specs.Spelling.{line_text, text_of};
ghost use Rattle.rl_making.specs.Summary.{shard_words, shard_lines, sizes_words, done_words, summary_lines};

use crate::counts::{RunCounts, ShardCounts};
use rl_report::put_end;
use rl_text::put_number;
use std::alloc::{AllocError as OutOfMemory, Global};

/// A word, and a number behind it.
fn put_with(out: &mut Vec<u8>, word: &[u8], n: u64) -> Result<(), OutOfMemory>
    ensures { Puts result out.old out.new (join_with_byte 32 (word.now ∷ decimal n ∷ [])) }
{
    out.extend_from_slice(word)?;
    out.push(b' ')?;
    put_number(out, n)
}

/// `ranks R calls C`.
fn put_sizes(out: &mut Vec<u8>, ranks: u32, calls: u32) -> Result<(), OutOfMemory>
    ensures { Puts result out.old out.new (line_text (sizes_words ranks calls)) }
{
    put_with(out, b"ranks", u64::from(ranks))?;
    put_with(out, b" calls", u64::from(calls))?;
    out.push(b'\n')?;
    Ok(())
}

/// `shard I updates U reads Q settled X passed Y`.
fn put_shard(out: &mut Vec<u8>, number: usize, shard: ShardCounts) -> Result<(), OutOfMemory>
    ensures { Puts result out.old out.new (line_text (shard_words (number, shard))) }
{
    put_with(out, b"shard", number as u64)?;
    put_with(out, b" updates", u64::from(shard.updates))?;
    put_with(out, b" reads", shard.reads as u64)?;
    put_with(out, b" settled", shard.settled as u64)?;
    put_with(out, b" passed", shard.passed as u64)?;
    out.push(b'\n')?;
    Ok(())
}

/// The lines of the shards.
fn put_shards(out: &mut Vec<u8>, shards: &[ShardCounts]) -> Result<(), OutOfMemory>
    ensures { Puts result out.old out.new (text_of (shard_lines shards.now)) }
{
    for (number, shard) in shards.iter().enumerate() {
        put_shard(out, number, *shard)?;
    }
    Ok(())
}

/// `done D of C`.
fn put_done(out: &mut Vec<u8>, done: u64, calls: u32) -> Result<(), OutOfMemory>
    ensures { Puts result out.old out.new (line_text (done_words done calls)) }
{
    put_with(out, b"done", done)?;
    put_with(out, b" of", u64::from(calls))?;
    out.push(b'\n')?;
    Ok(())
}

/// The summary of what is counted of a run of so many ranks and calls: how many there are, a line for each shard with its updates, its
/// gets and how often its queues were settled and passed, how many calls are done, and how often each answer came.
pub fn summary_text(
    alloc: Global,
    ranks: u32,
    calls: u32,
    counts: &RunCounts,
) -> Result<Vec<u8>, OutOfMemory>
    ensures { IfOk result (λ text. text.items ≡ text_of (summary_lines ranks calls counts.now)) }
{
    let mut out = Vec::from_slice(alloc, b"rmalock-summary 1\n")?;
    put_sizes(&mut out, ranks, calls)?;
    put_shards(&mut out, counts.shards.as_slice())?;
    put_done(&mut out, counts.done, calls)?;
    put_end(&mut out, Some(counts.steps))?;
    Ok(out)
}
