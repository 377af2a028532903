// How an entry is written to the journal, and read from it.
ghost use Rattle.std.specs.Prelude.{◌≡◌, ◌<◌, ◌/◌, ◌^◌, slice_index};
ghost use Rattle.rl_model.specs.declared.entry.Entry.{Entry};
ghost use Rattle.rl_journal.specs.Journal as spelt;

use rl_model::{Call, Entry, Reply};

/// The number that stands for what an update asks, from 1 to 4. A get and a hold, which aren't journaled, have 0.
pub fn update_kind(call: Call) -> u64
    ensures is { result ≡ spelt.kind_of call }
    ensures low { result < 8 }
{
    match call {
        Call::Put { .. } => 1,
        Call::Del { .. } => 2,
        Call::Add { .. } => 3,
        Call::Cas { .. } => 4,
        Call::Get { .. } | Call::Hold { .. } => 0,
    }
}

/// The key of a call; 0 for a hold.
pub fn call_key(call: Call) -> u64
    ensures { result ≡ spelt.key_of call }
{
    match call {
        Call::Put { key, .. }
        | Call::Get { key }
        | Call::Del { key }
        | Call::Add { key, .. }
        | Call::Cas { key, .. } => key,
        Call::Hold { .. } => 0,
    }
}

/// The first further number of a call: what is put or added, or the old value that is looked for.
pub fn first_number(call: Call) -> u64
    ensures { result ≡ spelt.first_of call }
{
    match call {
        Call::Put { value, .. } => value,
        Call::Add { by, .. } => by,
        Call::Cas { old, .. } => old,
        Call::Get { .. } | Call::Del { .. } | Call::Hold { .. } => 0,
    }
}

/// The second further number of a call: the new value of a compare and swap.
pub fn second_number(call: Call) -> u64
    ensures { result ≡ spelt.second_of call }
{
    match call {
        Call::Cas { new, .. } => new,
        _ => 0,
    }
}

/// The number that stands for a reply to an update, from 1 to 8. The two replies that no update gets have 0.
pub fn reply_code(reply: Reply) -> u64
    ensures is { result ≡ spelt.code_of reply }
    ensures low { result < 16 }
{
    match reply {
        Reply::New => 1,
        Reply::Was(_) => 2,
        Reply::Full => 3,
        Reply::Nothing => 4,
        Reply::Sum(_) => 5,
        Reply::Over(_) => 6,
        Reply::No(_) => 7,
        Reply::Undone => 8,
        Reply::Val(_) | Reply::Held => 0,
    }
}

/// The value in a reply, or 0.
pub fn reply_value(reply: Reply) -> u64
    ensures { result ≡ spelt.value_in reply }
{
    match reply {
        Reply::Was(v) | Reply::Val(v) | Reply::Sum(v) | Reply::Over(v) | Reply::No(v) => v,
        Reply::New | Reply::Full | Reply::Nothing | Reply::Held | Reply::Undone => 0,
    }
}

/// One of the six words that an entry has in the journal, by its number from 0: rank and number, what was asked and
/// answered, and then key, two further numbers of the call and the value of the reply.
#[inline(always)]
pub fn journal_value(entry: &Entry, word: u32) -> u64
    requires { word < 6 }
    ensures { result ≡ slice_index (spelt.spelling entry.now) word }
{
    match word {
        0 => u64::from(entry.rank) * 0x1_0000_0000 + u64::from(entry.seq),
        1 => {
            update_kind(entry.call)
                + 8 * reply_code(entry.reply)
                + 128 * u64::from(entry.batch)
                + 2048 * u64::from(entry.part)
        }
        2 => call_key(entry.call),
        3 => first_number(entry.call),
        4 => second_number(entry.call),
        _ => reply_value(entry.reply),
    }
}

/// The update with this kind, key and further numbers.
pub fn update_of(kind: u64, key: u64, first: u64, second: u64) -> Call
    ensures { result ≡ spelt.call_of kind key first second }
{
    match kind {
        1 => Call::Put { key, value: first },
        2 => Call::Del { key },
        3 => Call::Add { key, by: first },
        _ => Call::Cas {
            key,
            old: first,
            new: second,
        },
    }
}

/// The reply to an update with this code and value.
pub fn reply_of(code: u64, value: u64) -> Reply
    ensures { result ≡ spelt.reply_of code value }
{
    match code {
        1 => Reply::New,
        2 => Reply::Was(value),
        3 => Reply::Full,
        4 => Reply::Nothing,
        5 => Reply::Sum(value),
        6 => Reply::Over(value),
        7 => Reply::No(value),
        _ => Reply::Undone,
    }
}

/// The entry of a shard's journal at a place, from its six words. They leave no part of a batch beyond a `u32`, as the words
/// of an entry don't.
pub fn journal_entry(shard: u32, at: u32, words: [u64; 6]) -> Entry
    requires part { slice_index words 1 / 2048 < 2 ^ 32 }
    ensures is { result ≡ spelt.entry_of shard at words }
    // An update's entry is read from the words that it is written in.
    ensures back { (entry : Entry) → spelt.IsJournaled shard at entry → words ≡ spelt.spelling entry → result ≡ entry }
{
    let [who, what, key, first, second, value] = words;
    Entry {
        shard,
        rank: (who / 0x1_0000_0000) as u32,
        seq: (who % 0x1_0000_0000) as u32,
        call: update_of(what % 8, key, first, second),
        at,
        reply: reply_of(what / 8 % 16, value),
        batch: (what / 128 % 16) as u32,
        part: (what / 2048) as u32,
    }
}
