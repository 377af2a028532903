//! Reading one call from a line.
ghost use Rattle.std.specs.Prelude.{◌≡◌, ℕ, ◌≤◌, ◌<◌, ◌+◌, Ok, IfOk};
ghost use Rattle.rl_text.specs.Rows.{row_of};
ghost use Rattle.rl_text.specs.Reading.{Leaves};
ghost use Rattle.rl_ops.specs.CallSpelling.{SpellsCall};
ghost use Rattle.rl_ops.specs.CallReading.{put_at, get_at, del_at, add_at, cas_at, hold_at, call_at};

use rl_model::Call;
use rl_text::{Line, LineWords, Refusal, Why};

// The words behind `put`: KEY VALUE.
#[tactic(auto, unfolding(crate::specs::CallReading::put_at))]
fn put_of(words: &mut LineWords<'_>) -> Result<Call, Refusal>
    requires { words.old.next ≤ 17 }
    ensures value { (from : ℕ) → words.old.next ≡ from + 1 → Leaves result words.new.next (put_at words.old.row from) }
    ensures row { words.new.row ≡ words.old.row }
    ensures after { (words.old.next ≤ words.new.next) × (words.new.next ≤ words.old.next + 2) }
{
    Ok(Call::Put {
        key: words.number()?,
        value: words.number()?,
    })
}

// The words behind `get`: KEY.
#[tactic(auto, unfolding(crate::specs::CallReading::get_at))]
fn get_of(words: &mut LineWords<'_>) -> Result<Call, Refusal>
    requires { words.old.next ≤ 17 }
    ensures value { (from : ℕ) → words.old.next ≡ from + 1 → Leaves result words.new.next (get_at words.old.row from) }
    ensures row { words.new.row ≡ words.old.row }
    ensures after { (words.old.next ≤ words.new.next) × (words.new.next ≤ words.old.next + 1) }
{
    Ok(Call::Get {
        key: words.number()?,
    })
}

// The words behind `del`: KEY.
#[tactic(auto, unfolding(crate::specs::CallReading::del_at))]
fn del_of(words: &mut LineWords<'_>) -> Result<Call, Refusal>
    requires { words.old.next ≤ 17 }
    ensures value { (from : ℕ) → words.old.next ≡ from + 1 → Leaves result words.new.next (del_at words.old.row from) }
    ensures row { words.new.row ≡ words.old.row }
    ensures after { (words.old.next ≤ words.new.next) × (words.new.next ≤ words.old.next + 1) }
{
    Ok(Call::Del {
        key: words.number()?,
    })
}

// The words behind `add`: KEY BY.
#[tactic(auto, unfolding(crate::specs::CallReading::add_at))]
fn add_of(words: &mut LineWords<'_>) -> Result<Call, Refusal>
    requires { words.old.next ≤ 17 }
    ensures value { (from : ℕ) → words.old.next ≡ from + 1 → Leaves result words.new.next (add_at words.old.row from) }
    ensures row { words.new.row ≡ words.old.row }
    ensures after { (words.old.next ≤ words.new.next) × (words.new.next ≤ words.old.next + 2) }
{
    Ok(Call::Add {
        key: words.number()?,
        by: words.number()?,
    })
}

// The words behind `cas`: KEY OLD NEW.
#[tactic(auto, unfolding(crate::specs::CallReading::cas_at))]
fn cas_of(words: &mut LineWords<'_>) -> Result<Call, Refusal>
    requires { words.old.next ≤ 17 }
    ensures value { (from : ℕ) → words.old.next ≡ from + 1 → Leaves result words.new.next (cas_at words.old.row from) }
    ensures row { words.new.row ≡ words.old.row }
    ensures after { (words.old.next ≤ words.new.next) × (words.new.next ≤ words.old.next + 3) }
{
    Ok(Call::Cas {
        key: words.number()?,
        old: words.number()?,
        new: words.number()?,
    })
}

// The words behind `hold`: SHARD.
#[tactic(auto, unfolding(crate::specs::CallReading::hold_at))]
fn hold_of(words: &mut LineWords<'_>, shards: u32) -> Result<Call, Refusal>
    requires { words.old.next ≤ 17 }
    ensures value { (from : ℕ) → words.old.next ≡ from + 1 → Leaves result words.new.next (hold_at shards words.old.row from) }
    ensures row { words.new.row ≡ words.old.row }
    ensures after { (words.old.next ≤ words.new.next) × (words.new.next ≤ words.old.next + 1) }
{
    Ok(Call::Hold {
        shard: words.below(u64::from(shards))? as u32,
    })
}

/// Reads the words of a call and leaves those after it. A table of `shards` shards has the shards 0 to `shards - 1`.
///
/// The first wrong word of the call is refused: Missing where it isn't there, Word where it is no call's name, Number
/// where it is no number below 2^64, Range where it is a shard that isn't there.
#[tactic(auto, unfolding(crate::specs::CallReading::call_at, crate::specs::CallReading::call_named))]
pub fn next_call(words: &mut LineWords<'_>, shards: u32) -> Result<Call, Refusal>
    requires { words.old.next ≤ 16 }
    ensures value { Leaves result words.new.next (call_at shards words.old.row words.old.next) }
    ensures row { words.new.row ≡ words.old.row }
    ensures after { (words.old.next < words.new.next) × (words.new.next ≤ words.old.next + 4) }
{
    match words.needed()? {
        b"put" => put_of(words),
        b"get" => get_of(words),
        b"del" => del_of(words),
        b"add" => add_of(words),
        b"cas" => cas_of(words),
        b"hold" => hold_of(words, shards),
        _ => Err(words.refusal(Why::Word)),
    }
}

/// Reads the words of a call from word `from` (1 to 16) of a line on, and answers the number of the word after it, as
/// [`next_call`] does. Words after the call aren't looked at.
pub fn read_call(line: &Line<'_>, from: u32, shards: u32) -> Result<(Call, u32), Refusal>
    requires { (1 ≤ from) × (from ≤ 16) }
    // What is read is spelled there.
    ensures found { IfOk result (λ x. SpellsCall shards (row_of line.now) from x.0 x.1) }
    // What is spelled there is read, whatever comes after it.
    ensures only { (call : Call) (after : ℕ) → SpellsCall shards (row_of line.now) from call after → result ≡ Ok (call, after) }
    // Which fault it is: that of the first wrong word.
    ensures exact { result ≡ call_at shards (row_of line.now) from }
    ensures after { IfOk result (λ x. (from < x.1) × (x.1 ≤ from + 4)) }
{
    call_of(line, from, shards)
}

fn call_of(line: &Line<'_>, from: u32, shards: u32) -> Result<(Call, u32), Refusal>
    requires { (1 ≤ from) × (from ≤ 16) }
    ensures value { result ≡ call_at shards (row_of line.now) from }
    ensures after { IfOk result (λ x. (from < x.1) × (x.1 ≤ from + 4)) }
{
    let mut words = line.words_from(from);
    let call = next_call(&mut words, shards)?;
    Ok((call, words.next_number()))
}
