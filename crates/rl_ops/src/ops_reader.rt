//! Reading a calls file.
ghost use Rattle.std.specs.Prelude.{◌≡◌, ◌<◌, length, Ok, IfOk};
ghost use Rattle.rl_text.specs.Reading.{Gives};
ghost use Rattle.rl_ops.specs.Ops.{OpsFit, SpellsOps};
ghost use Rattle.rl_ops.specs.OpsReading.{calls_at, ops_at};

use crate::calls_line::CallsVersion;
use crate::line_reader::{is_end, line_of, version_of};
use crate::ops::Ops;
use crate::progress::Progress;
use crate::short_reader::short_ask;
use rl_text::{Lines, TEXT_LIMIT, TextErr};
use std::alloc::Global;

// Lines up to the line `end`, sorted by rank.
fn calls_of(
    alloc: Global,
    lines: &mut Lines<'_>,
    version: CallsVersion,
    ranks: u32,
    shards: u32,
) -> Result<Ops, TextErr>
    ensures { Gives result (calls_at version ranks shards lines.old.read lines.old.rows) }
{
    let mut ops = Ops::new(alloc, ranks)?;
    let mut progress = Progress::new();
    loop {
        if let Some(read) = short_ask(lines, version, ranks, shards, progress) {
            ops.take(read)?;
            progress = progress.after(shards, read);
            continue;
        }
        let line = lines.next_whole()?;
        if is_end(&line, progress.expected) {
            lines.end(&line)?;
            return Ok(ops);
        }
        let read = line_of(&line, version, ranks, shards, progress)?;
        ops.take(read)?;
        progress = progress.after(shards, read);
    }
}

#[tactic(auto, unfolding(crate::specs::OpsReading::ops_at))]
fn ops_of(alloc: Global, ranks: u32, shards: u32, bytes: &[u8]) -> Result<Ops, TextErr>
    requires { length bytes.now < TEXT_LIMIT }
    ensures { Gives result (ops_at ranks shards bytes.now) }
{
    let mut lines = Lines::new(bytes);
    let first = lines.next_whole()?;
    let version = version_of(&first)?;
    calls_of(alloc, &mut lines, version, ranks, shards)
}

/// Reads the calls of so many ranks on a table of so many shards.
///
/// A calls file has the first line `rmalock-calls 1` or `rmalock-calls 2`, a line for each call, and the line `end`. A
/// call line is the rank and one of `put KEY VALUE`, `get KEY`, `del KEY`, `add KEY BY`, `cas KEY OLD NEW` and
/// `hold SHARD`. In the second version a line `RANK batch N`, N from 2 to 8, may stand where a call line may: the N call
/// lines after it are one batch. They are of its rank, and updates of the shard of the first one's key. The blocks of the
/// ranks may be interleaved; the calls of a rank are its lines in their order.
///
/// There are at most 20,000 call lines, the line of a batch not counted: a further line is Range at word 0, before its
/// words are looked at. Inside a batch another rank is Order at word 1, a call that is no update Word at word 2, a key of
/// another shard Range at word 3, and the line `end` Number at word 1.
///
/// The text has fewer than [`TEXT_LIMIT`] bytes. Refused with the first fault exactly where the text spells no calls.
pub fn read_ops(alloc: Global, ranks: u32, shards: u32, bytes: &[u8]) -> Result<Ops, TextErr>
    requires { length bytes.now < TEXT_LIMIT }
    // What is read is spelled so, and keeps the limits.
    ensures found { IfOk result (λ ops. SpellsOps ranks shards ops bytes.now) }
    ensures fit { IfOk result (λ ops. OpsFit ranks shards ops) }
    // What is spelled so is read, unless memory runs out.
    ensures only { (ops : Ops) → SpellsOps ranks shards ops bytes.now → Gives result (Ok ops) }
    // Which fault it is: the first one.
    ensures exact { Gives result (ops_at ranks shards bytes.now) }
{
    ops_of(alloc, ranks, shards, bytes)
}
