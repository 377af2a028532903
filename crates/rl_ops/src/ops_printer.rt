//! Printing a calls file.
ghost use Rattle.std.specs.Prelude.{◌≡◌, ℕ, ◌++◌, [], ◌∷◌, codes, map, flat_map, IfOk, OnOk};
ghost use Rattle.std.specs.List.{zip};
ghost use Rattle.rl_text.specs.Spelling.{line_text, text_of};
ghost use Rattle.rl_ops.specs.Ops.{OpsFit, SpellsOps, batch_words, line_words, sized_lines, rank_after_rank, version_word, printed_version, ops_spelling};
ghost use Rattle.rl_ops.specs.OpsReading.{IsReadAsOps};

use crate::call_printer::call_text;
use crate::ops::Ops;
use rl_model::Call;
use rl_text::put_number;
use std::alloc::{AllocError as OutOfMemory, Global};

fn put_line(out: &mut Vec<u8>, rank: u64, call: Call) -> Result<(), OutOfMemory>
    ensures { OnOk result (out.new.items ≡ out.old.items ++ line_text (line_words rank call)) }
{
    put_number(out, rank)?;
    out.push(b' ')?;
    call_text(call, out)?;
    out.push(b'\n')?;
    Ok(())
}

fn put_batch(out: &mut Vec<u8>, rank: u64, size: u32) -> Result<(), OutOfMemory>
    ensures { OnOk result (out.new.items ≡ out.old.items ++ line_text (batch_words rank size)) }
{
    put_number(out, rank)?;
    out.extend_from_slice(b" batch ")?;
    put_number(out, u64::from(size))?;
    out.push(b'\n')?;
    Ok(())
}

// The line of a call, and before it that of the batch that it begins.
fn put_sized(out: &mut Vec<u8>, rank: u64, call: Call, size: u32) -> Result<(), OutOfMemory>
    ensures { OnOk result (out.new.items ≡ out.old.items ++ text_of (sized_lines rank (call, size))) }
{
    if size > 1 {
        put_batch(out, rank, size)?;
    }
    put_line(out, rank, call)
}

// The lines of one rank.
fn put_rank(out: &mut Vec<u8>, rank: u64, calls: &[Call], sizes: &[u32]) -> Result<(), OutOfMemory>
    ensures { OnOk result (out.new.items ≡ out.old.items ++ text_of (flat_map (sized_lines rank) (zip calls.now sizes.now))) }
{
    for (call, size) in calls.iter().zip(sizes) {
        put_sized(out, rank, *call, *size)?;
    }
    Ok(())
}

// The lines of all ranks.
fn put_ranks(out: &mut Vec<u8>, calls: &[Vec<Call>], sizes: &[Vec<u32>]) -> Result<(), OutOfMemory>
    ensures { OnOk result (out.new.items ≡ out.old.items
        ++ text_of (rank_after_rank 0 (map (λ list. list.items) calls.now) (map (λ list. list.items) sizes.now))) }
{
    for (rank, (calls, sizes)) in calls.iter().zip(sizes).enumerate() {
        put_rank(out, rank as u64, calls, sizes)?;
    }
    Ok(())
}

// The first line of a file that prints batches, or calls alone.
fn first_line(batches: bool) -> &'static [u8]
    ensures { result.now ≡ line_text (codes "rmalock-calls" ∷ version_word (printed_version batches) ∷ []) }
{
    if batches {
        b"rmalock-calls 2\n"
    } else {
        b"rmalock-calls 1\n"
    }
}

fn printed(alloc: Global, ops: &Ops) -> Result<Vec<u8>, OutOfMemory>
    ensures { IfOk result (λ text. text.items ≡ ops_spelling ops.now) }
{
    let mut out = Vec::from_slice(alloc, first_line(ops.has_batch()))?;
    put_ranks(&mut out, ops.by_rank.as_slice(), ops.sizes.as_slice())?;
    out.extend_from_slice(b"end\n")?;
    Ok(out)
}

/// Prints a calls file: the calls of rank 0, then those of rank 1, and so on. It is of version 1 where no batch is there,
/// and else of version 2.
///
/// What is printed spells the calls, and is read back as them, for all numbers of ranks and shards that they fit.
pub fn ops_text(alloc: Global, ops: &Ops) -> Result<Vec<u8>, OutOfMemory>
    ensures text { IfOk result (λ text. text.items ≡ ops_spelling ops.now) }
    ensures spells { IfOk result (λ text. (ranks shards : ℕ) → OpsFit ranks shards ops.now
        → SpellsOps ranks shards ops.now text.items) }
    ensures again { IfOk result (λ text. IsReadAsOps text.items ops.now) }
{
    printed(alloc, ops)
}
