//! Reading the lines that most calls files have, by what they begin with: calls alone, with no word to be looked for.
ghost use Rattle.std.specs.Prelude.{◌≡◌, ℕ, ◌<◌, ◌^◌, ◌∷◌, ◌++◌, codes, decimal, IfSome};
ghost use Rattle.std.specs.Option.{MatchOption};
ghost use Rattle.std.specs.List.{join_with_byte};
ghost use Rattle.rl_ops.specs.CallSpelling.{call_words, CallFits};
ghost use Rattle.rl_ops.specs.NextLine.{IsNextLine};

use crate::calls_line::{CallsLine, CallsVersion};
use crate::ops::MOST_CALLS;
use crate::progress::Progress;
use rl_model::Call;
use rl_text::{Lines, after_byte, front_number, front_spaced};

// A hold of a shard that is there, from what follows its name.
#[inline(always)]
fn front_hold(bytes: &[u8], shards: u32) -> Option<(Call, &[u8])>
    ensures { IfSome result (λ p. CallFits shards p.0 × (codes "hold" ++ bytes.now ≡ join_with_byte 32 (call_words p.0) ++ p.1.now)) }
{
    let (shard, rest) = front_spaced(bytes)?;
    if shard < u64::from(shards) {
        Some((
            Call::Hold {
                shard: shard as u32,
            },
            rest,
        ))
    } else {
        None
    }
}

// Two numbers, each after a space, and what follows them.
#[inline(always)]
fn front_pair(bytes: &[u8]) -> Option<(u64, u64, &[u8])>
    ensures { IfSome result (λ p. (p.0 < 2 ^ 64) × (p.1 < 2 ^ 64) × (bytes.now ≡ 32 ∷ decimal p.0 ++ 32 ∷ decimal p.1 ++ p.2.now)) }
{
    let (first, rest) = front_spaced(bytes)?;
    let (second, rest) = front_spaced(rest)?;
    Some((first, second, rest))
}

// A call that is named `put`, from what follows its name: KEY VALUE.
#[inline(always)]
fn front_put(bytes: &[u8]) -> Option<(Call, &[u8])>
    ensures { IfSome result (λ p. ((shards : ℕ) → CallFits shards p.0) × (codes "put" ++ bytes.now ≡ join_with_byte 32 (call_words p.0) ++ p.1.now)) }
{
    let (key, value, rest) = front_pair(bytes)?;
    Some((Call::Put { key, value }, rest))
}

// A call that is named `get`, from what follows its name: KEY.
#[inline(always)]
fn front_get(bytes: &[u8]) -> Option<(Call, &[u8])>
    ensures { IfSome result (λ p. ((shards : ℕ) → CallFits shards p.0) × (codes "get" ++ bytes.now ≡ join_with_byte 32 (call_words p.0) ++ p.1.now)) }
{
    let (key, rest) = front_spaced(bytes)?;
    Some((Call::Get { key }, rest))
}

// A call that is named `del`, from what follows its name: KEY.
#[inline(always)]
fn front_del(bytes: &[u8]) -> Option<(Call, &[u8])>
    ensures { IfSome result (λ p. ((shards : ℕ) → CallFits shards p.0) × (codes "del" ++ bytes.now ≡ join_with_byte 32 (call_words p.0) ++ p.1.now)) }
{
    let (key, rest) = front_spaced(bytes)?;
    Some((Call::Del { key }, rest))
}

// A call that is named `add`, from what follows its name: KEY BY.
#[inline(always)]
fn front_add(bytes: &[u8]) -> Option<(Call, &[u8])>
    ensures { IfSome result (λ p. ((shards : ℕ) → CallFits shards p.0) × (codes "add" ++ bytes.now ≡ join_with_byte 32 (call_words p.0) ++ p.1.now)) }
{
    let (key, by, rest) = front_pair(bytes)?;
    Some((Call::Add { key, by }, rest))
}

// A call that is named `cas`, from what follows its name: KEY OLD NEW.
#[inline(always)]
fn front_cas(bytes: &[u8]) -> Option<(Call, &[u8])>
    ensures { IfSome result (λ p. ((shards : ℕ) → CallFits shards p.0) × (codes "cas" ++ bytes.now ≡ join_with_byte 32 (call_words p.0) ++ p.1.now)) }
{
    let (key, rest) = front_spaced(bytes)?;
    let (old, new, rest) = front_pair(rest)?;
    Some((Call::Cas { key, old, new }, rest))
}

/// The call with which a text begins, and what follows it. `None` says nothing of the text.
#[inline(always)]
fn front_call(bytes: &[u8], shards: u32) -> Option<(Call, &[u8])>
    ensures { IfSome result (λ p. CallFits shards p.0 × (bytes.now ≡ join_with_byte 32 (call_words p.0) ++ p.1.now)) }
{
    match bytes {
        [b'p', b'u', b't', rest @ ..] => front_put(rest),
        [b'g', b'e', b't', rest @ ..] => front_get(rest),
        [b'd', b'e', b'l', rest @ ..] => front_del(rest),
        [b'a', b'd', b'd', rest @ ..] => front_add(rest),
        [b'c', b'a', b's', rest @ ..] => front_cas(rest),
        [b'h', b'o', b'l', b'd', rest @ ..] => front_hold(rest, shards),
        _ => None,
    }
}

/// Takes the next line where it is a call alone and no batch is open. `None` takes nothing.
#[inline(always)]
pub fn short_ask(
    lines: &mut Lines<'_>,
    version: CallsVersion,
    ranks: u32,
    shards: u32,
    progress: Progress,
) -> Option<CallsLine>
    ensures { MatchOption result (lines.new ≡ lines.old) (IsNextLine version ranks shards progress lines.old lines.new) }
{
    if progress.count >= MOST_CALLS || !progress.expected.may_end() {
        return None;
    }
    let (rank, rest) = front_number(lines.front())?;
    let (call, rest) = front_call(after_byte(rest, b' ')?, shards)?;
    let rest = after_byte(rest, b'\n')?;
    if rank >= u64::from(ranks) {
        return None;
    }
    lines.pass(rest);
    Some(CallsLine::Asks {
        rank: rank as u32,
        call,
        size: 1,
    })
}
