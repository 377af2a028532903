//! Where the ranks are: who is in which card, and how each stands.

ghost use Rattle.std.specs.Prelude.{◌≡◌, ◌<◌, ◌++◌, ◌∷◌, [], codes, decimal, flat_map, length, slice_index, IfOk};
ghost use Rattle.std.specs.List.{range_with_len};
ghost use Rattle.rl_text.specs.Printing.{Puts};
ghost use Rattle.rl_text.specs.Spelling.{line_text, text_of};
ghost use Rattle.rl_machine.specs.Run.{place_of, done_of};
ghost use Rattle.rl_machine.specs.Running.{running};
ghost use Rattle.rl_machine.specs.Whereabouts.{standing_by, card_by};
ghost use Rattle.rl_shown.specs.State.{standing_word, card_line, card_lines, told_line, rank_line, rank_lines};

use rl_core::ShardCore;
use rl_machine::Machine;
use rl_report::{put_value, put_word};
use rl_step::Standing;
use std::alloc::{AllocError as OutOfMemory, Global};

/// `card SHARD NODE RANK`.
fn put_card(out: &mut Vec<u8>, shard: u32, node: u32, rank: u32) -> Result<(), OutOfMemory>
    ensures { Puts result out.old out.new (line_text (codes "card" ∷ decimal shard ∷ decimal node ∷ decimal rank ∷ [])) }
{
    out.extend_from_slice(b"card")?;
    put_value(out, u64::from(shard))?;
    put_value(out, u64::from(node))?;
    put_value(out, u64::from(rank))?;
    out.push(b'\n')?;
    Ok(())
}

/// The line of the card that a rank is in, if it is in one.
fn put_card_of<C: ShardCore>(
    out: &mut Vec<u8>,
    machine: &Machine<C>,
    rank: u32,
) -> Result<(), OutOfMemory>
    requires { rank < length machine.now.calls }
    ensures { Puts result out.old out.new (text_of (card_lines (running C.says machine.now) rank)) }
{
    match machine.card(rank) {
        Some(node) => put_card(out, machine.place(rank), node, rank),
        None => Ok(()),
    }
}

/// The lines of the cards that ranks are in, by the ranks' numbers.
pub fn put_cards<C: ShardCore>(
    out: &mut Vec<u8>,
    machine: &Machine<C>,
    ranks: u32,
) -> Result<(), OutOfMemory>
    requires { ranks ≡ length machine.now.calls }
    ensures { Puts result out.old out.new (text_of (flat_map (card_lines (running C.says machine.now)) (range_with_len 0 ranks))) }
{
    for rank in 0..ranks {
        put_card_of(out, machine, rank)?;
    }
    Ok(())
}

/// How a rank stands to the lock of the shard where it stands.
fn standing_word(standing: Standing) -> &'static [u8]
    ensures { result.now ≡ standing_word standing }
{
    match standing {
        Standing::Out => b"out",
        Standing::Asking => b"asks",
        Standing::Writer => b"writer",
        Standing::Reader => b"reader",
        Standing::Leaving => b"leaves",
    }
}

/// What is told of a rank: the shard where it stands, how it stands there, and how many of its calls it has opened, and how many are done.
#[derive(Clone, Copy)]
struct Told {
    shard: u32,
    standing: Standing,
    opened: u32,
    done: u32,
}

/// `rank RANK SHARD STANDING opened N done M`.
fn put_told(out: &mut Vec<u8>, rank: u32, told: Told) -> Result<(), OutOfMemory>
    ensures { Puts result out.old out.new (line_text (told_line rank told.shard told.standing told.opened told.done)) }
{
    out.extend_from_slice(b"rank")?;
    put_value(out, u64::from(rank))?;
    put_value(out, u64::from(told.shard))?;
    put_word(out, standing_word(told.standing))?;
    put_word(out, b"opened")?;
    put_value(out, u64::from(told.opened))?;
    put_word(out, b"done")?;
    put_value(out, u64::from(told.done))?;
    out.push(b'\n')?;
    Ok(())
}

/// The line of a rank.
fn put_rank<C: ShardCore>(
    alloc: Global,
    out: &mut Vec<u8>,
    machine: &Machine<C>,
    rank: u32,
) -> Result<(), OutOfMemory>
    requires { rank < length machine.now.calls }
    ensures { Puts result out.old out.new (text_of (rank_lines (running C.says machine.now) rank)) }
{
    let told = Told {
        shard: machine.place(rank),
        standing: machine.standing(rank),
        opened: machine.opened(rank),
        done: machine.done_of(alloc, rank)?,
    };
    put_told(out, rank, told)
}

/// The lines of all ranks, by their numbers.
pub fn put_ranks<C: ShardCore>(
    alloc: Global,
    out: &mut Vec<u8>,
    machine: &Machine<C>,
    ranks: u32,
) -> Result<(), OutOfMemory>
    requires { ranks ≡ length machine.now.calls }
    ensures { Puts result out.old out.new (text_of (flat_map (rank_lines (running C.says machine.now)) (range_with_len 0 ranks))) }
{
    for rank in 0..ranks {
        put_rank(alloc, out, machine, rank)?;
    }
    Ok(())
}
