//! What a shard keeps of the calls that were done: its journal, and the ranks' transcripts.

ghost use Rattle.std.specs.Prelude.{◌≡◌, ◌+◌, ◌*◌, ◌<◌, length, map, slice_get, slice_index, Some, IfOk};
ghost use Rattle.rl_site.specs.Site.{journal_base};
ghost use Rattle.rl_machine.specs.Promises.{shard_journal, transcripts_on};
ghost use Rattle.rl_machine.specs.ShardSteps.{kept_on};
ghost use Rattle.rl_machine.specs.State.{running_shard, IsGood};

use crate::shard::ShardState;
use rl_core::ShardCore;
use rl_journal::journal_entry;
use rl_model::Entry;
use rl_site::{COUNT_WORD, ENTRY_WORDS, journal_base};
use std::alloc::{AllocError as OutOfMemory, Global};

/// How many updates were done on the shard.
pub fn updates<C: ShardCore>(shard: &ShardState<C>) -> u32
    requires { IsGood C.says shard.now }
    ensures { result ≡ length (shard_journal (running_shard C.says shard.now)) }
{
    shard.flat.words().value(COUNT_WORD) as u32
}

/// One of the six words that the journal has for the update at a place.
fn journal_word<C: ShardCore>(shard: &ShardState<C>, at: u32, word: u32) -> u64
    requires good { IsGood C.says shard.now }
    requires there { at < length (shard_journal (running_shard C.says shard.now)) }
    requires word { word < 6 }
    ensures { result ≡ slice_index shard.now.flat.words.words (journal_base (C.says shard.now.core).table.site.geom + 6 * at + word) }
{
    let first = journal_base(shard.core.geom()) + ENTRY_WORDS * at;
    shard.flat.words().value(first + word)
}

/// The entry of the update at a place of the journal.
fn update_at<C: ShardCore>(shard: &ShardState<C>, at: u32) -> Entry
    requires good { IsGood C.says shard.now }
    requires there { at < length (shard_journal (running_shard C.says shard.now)) }
    ensures { slice_get (shard_journal (running_shard C.says shard.now)) at ≡ Some result }
{
    let spelled = [
        journal_word(shard, at, 0),
        journal_word(shard, at, 1),
        journal_word(shard, at, 2),
        journal_word(shard, at, 3),
        journal_word(shard, at, 4),
        journal_word(shard, at, 5),
    ];
    journal_entry(shard.core.shard(), at, spelled)
}

/// The shard's journal.
pub fn journal<C: ShardCore>(
    alloc: Global,
    shard: &ShardState<C>,
) -> Result<Vec<Entry>, OutOfMemory>
    requires { IsGood C.says shard.now }
    ensures { IfOk result (λ entries. entries.items ≡ shard_journal (running_shard C.says shard.now)) }
{
    let count = updates(shard);
    let mut entries = Vec::with_capacity(alloc, count as usize)?;
    for at in 0..count {
        entries.push(update_at(shard, at))?;
    }
    Ok(entries)
}

/// The transcript of a rank, by the shard's journal.
fn transcript_by<C: ShardCore>(
    alloc: Global,
    shard: &ShardState<C>,
    journal: &[Entry],
    rank: u32,
) -> Result<Vec<Entry>, OutOfMemory>
    requires good { IsGood C.says shard.now }
    requires journal { journal.now ≡ shard_journal (running_shard C.says shard.now) }
    requires there { rank < length shard.now.flat.views.items }
    ensures { IfOk result (λ told. told.items ≡ kept_on rank (running_shard C.says shard.now)) }
{
    let view = shard.flat.view(rank);
    let words = shard.flat.words();
    shard.core.transcript(alloc, words, journal, rank, view)
}

/// The transcript of a rank.
pub fn transcript_of<C: ShardCore>(
    alloc: Global,
    shard: &ShardState<C>,
    rank: u32,
) -> Result<Vec<Entry>, OutOfMemory>
    requires good { IsGood C.says shard.now }
    requires there { rank < length shard.now.flat.views.items }
    ensures { IfOk result (λ told. told.items ≡ kept_on rank (running_shard C.says shard.now)) }
{
    let journal = journal(alloc, shard)?;
    transcript_by(alloc, shard, journal.as_slice(), rank)
}

/// The transcripts of so many ranks, which are all, rank by rank.
pub fn transcripts<C: ShardCore>(
    alloc: Global,
    shard: &ShardState<C>,
    ranks: u32,
) -> Result<Vec<Vec<Entry>>, OutOfMemory>
    requires good { IsGood C.says shard.now }
    requires all { length shard.now.flat.views.items ≡ ranks }
    ensures { IfOk result (λ transcripts. map (λ t. t.items) transcripts.items ≡ transcripts_on (running_shard C.says shard.now)) }
{
    let journal = journal(alloc, shard)?;
    let mut transcripts = Vec::new(alloc);
    for rank in 0..ranks {
        let told = transcript_by(alloc, shard, journal.as_slice(), rank)?;
        transcripts.push(told)?;
    }
    Ok(transcripts)
}
