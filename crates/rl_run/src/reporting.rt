//! The report of closed shards.

ghost use Rattle.std.specs.Prelude.{◌≡◌, ◌<◌, ◌^◌, All, map, IfOk, vec_len};
ghost use Rattle.rl_run.specs.Runs.{told};
ghost use Rattle.rl_run.specs.Told.{ToldNumbersFit, part_of};

use rl_report::{ShardReport, merge, replies_fit, tallies_fit};
use rl_shard::Closed;
use std::alloc::{AllocError as OutOfMemory, Global};

// The numbers of a pair are in their range, as its type has them. There is nothing to run.
fn pair_fits(pair: (u64, u64))
    ensures { (pair.0 < 2 ^ 64) × (pair.1 < 2 ^ 64) }
{
    let _ = pair.0;
}

// Of all pairs.
fn pairs_fit(pairs: &[(u64, u64)])
    ensures { All (λ p. (p.0 < 2 ^ 64) × (p.1 < 2 ^ 64)) pairs.now }
{
    for pair in pairs {
        pair_fits(*pair);
    }
}

/// The part of the report that a closed shard gives. Refused only for want of memory.
pub fn part_of(alloc: Global, closed: Closed) -> Result<ShardReport, OutOfMemory>
    requires { vec_len closed.journal < 2 ^ 32 }
    ensures part { IfOk result (λ part. part ≡ part_of (told closed)) }
    ensures numbers { IfOk result (λ _. ToldNumbersFit (told closed)) }
{
    let Closed {
        journal,
        pairs,
        transcripts,
        queues,
    } = closed;
    let entries = merge(alloc, journal.as_slice(), transcripts.as_slice())?;
    replies_fit(entries.as_slice());
    tallies_fit(queues.as_slice());
    pairs_fit(pairs.as_slice());
    Ok(ShardReport {
        updates: journal.len() as u32,
        entries,
        queues,
        pairs,
        events: Vec::new(alloc),
    })
}
