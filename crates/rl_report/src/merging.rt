//! The history of a shard, from its journal and its ranks' transcripts.
ghost use Rattle.std.specs.Prelude.{◌≡◌, ◌++◌, filter, map, take, IfOk, OnOk};
ghost use Rattle.std.specs.List.Sorted.{IsNonDecreasingBy};
ghost use Rattle.rl_journal.specs.History.{history};
ghost use Rattle.rl_report.specs.Merging.{is_read, all_reads, seen, up_to, merged, AreInOrder};

use rl_model::Entry;
use std::alloc::{AllocError as OutOfMemory, Global};

// Lists the gets and holds of a transcript.
fn push_reads<'a>(reads: &mut Vec<&'a Entry>, transcript: &'a [Entry]) -> Result<(), OutOfMemory>
    ensures { OnOk result (seen reads.new.items ≡ seen reads.old.items ++ filter is_read transcript.now) }
{
    for entry in transcript {
        if !entry.call.is_update() {
            reads.push(entry)?;
        }
    }
    Ok(())
}

// The gets and holds, rank after rank, where they stand.
fn reads_of<'a>(alloc: Global, transcripts: &[&'a [Entry]]) -> Result<Vec<&'a Entry>, OutOfMemory>
    ensures { IfOk result (λ reads. seen reads.items ≡ all_reads (map (λ t. t.now) transcripts.now)) }
{
    let room = transcripts.iter().fold(
        0,
        |room: usize, transcript| room.saturating_add(transcript.len()),
    );
    let mut reads = Vec::with_capacity(alloc, room)?;
    for transcript in transcripts {
        push_reads(&mut reads, transcript)?;
    }
    Ok(reads)
}

// Appends the first entries, those that looked at this count or an earlier one, and says how many they are.
fn push_up_to(
    history: &mut Vec<Entry>,
    reads: &[&Entry],
    count: usize,
) -> Result<usize, OutOfMemory>
    ensures pushed { IfOk result (λ _. history.new.items ≡ history.old.items ++ take (up_to count (seen reads.now)) (seen reads.now)) }
    ensures pushed_count { IfOk result (λ n. n ≡ up_to count (seen reads.now)) }
{
    for (place, entry) in reads.iter().enumerate() {
        if entry.at as usize > count {
            return Ok(place);
        }
        history.push(**entry)?;
    }
    Ok(reads.len())
}

// The journal, with the gets and holds before the updates at the counts that they looked at.
fn between(alloc: Global, journal: &[Entry], reads: &[&Entry]) -> Result<Vec<Entry>, OutOfMemory>
    ensures { IfOk result (λ entries. entries.items ≡ merged (seen reads.now) 0 journal.now) }
{
    let mut history = Vec::with_capacity(alloc, journal.len() + reads.len())?;
    let mut start = 0;
    for (place, update) in journal.iter().enumerate() {
        start += push_up_to(&mut history, &reads[start..], place)?;
        history.push(*update)?;
    }
    push_up_to(&mut history, &reads[start..], journal.len())?;
    Ok(history)
}

// The gets and holds in the order of the counts that they looked at, and at one count rank after rank.
fn sorted_reads<'a>(
    alloc: Global,
    transcripts: &[&'a [Entry]],
) -> Result<Vec<&'a Entry>, OutOfMemory>
    ensures sorted { IfOk result (λ reads. IsNonDecreasingBy (λ e. e.at) (seen reads.items)) }
    ensures stable { IfOk result (λ reads. AreInOrder (all_reads (map (λ t. t.now) transcripts.now)) (seen reads.items)) }
{
    let mut reads = reads_of(alloc, transcripts)?;
    reads.sort_by_key(|entry| entry.at)?;
    Ok(reads)
}

// The transcripts, each where it stands.
fn lent_slices(alloc: Global, transcripts: &[Vec<Entry>]) -> Result<Vec<&[Entry]>, OutOfMemory>
    ensures { IfOk result (λ lent. map (λ t. t.now) lent.items ≡ map (λ t. t.items) transcripts.now) }
{
    let mut lent = Vec::with_capacity(alloc, transcripts.len())?;
    for transcript in transcripts {
        lent.push(transcript.as_slice())?;
    }
    Ok(lent)
}

/// The history of a shard: its journal and the gets and holds of its ranks' transcripts in one order. They are ordered by
/// the count of updates that each found, gets and holds before the update at that count, by rank, and each rank's as its
/// transcript has them. A get or hold that found more updates than the journal has isn't in it.
///
/// It takes time in proportion to n log n, for n entries in all, and copies each entry once.
pub fn merge(
    alloc: Global,
    journal: &[Entry],
    transcripts: &[Vec<Entry>],
) -> Result<Vec<Entry>, OutOfMemory>
    ensures { IfOk result (λ entries. entries.items ≡ history journal.now (map (λ t. t.items) transcripts.now)) }
{
    let lent = lent_slices(alloc, transcripts)?;
    merge_lent(alloc, journal, lent.as_slice())
}

/// The same history, of transcripts that are lent: for one who has no lists of them of its own.
pub fn merge_lent(
    alloc: Global,
    journal: &[Entry],
    transcripts: &[&[Entry]],
) -> Result<Vec<Entry>, OutOfMemory>
    ensures { IfOk result (λ entries. entries.items ≡ history journal.now (map (λ t. t.now) transcripts.now)) }
{
    let reads = sorted_reads(alloc, transcripts)?;
    between(alloc, journal, reads.as_slice())
}
