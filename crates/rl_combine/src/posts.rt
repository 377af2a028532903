//! How a call and its answer are spelled in the words of a post, and where they stand in it.

ghost use Rattle.std.specs.Prelude.{◌≡◌, ◌<◌, length, slice_index};
ghost use Rattle.rl_combine.specs.Posts as model;

use rl_journal::{
    call_key, first_number, reply_code, reply_of, reply_value, second_number, update_kind,
    update_of,
};
use rl_model::{Call, Entry, Reply};

/// A flag where nothing is posted.
pub(crate) const EMPTY: u64 = 0;

/// A flag where a call is posted.
pub(crate) const POSTED: u64 = 1;

/// A flag where the posted call is done.
pub(crate) const DONE: u64 = 2;

/// How many words a post has.
pub(crate) const POST_WORDS: u32 = 9;

/// How many words a call has in a post.
pub(crate) const CALL_WORDS: u32 = 5;

/// How many words an answer has in a post.
pub(crate) const ANSWER_WORDS: u32 = 3;

/// The word of a post that is its flag.
pub(crate) const FLAG: u32 = 0;

/// The first word of a post that spells its call.
pub(crate) const CALL: u32 = 1;

/// The first word of a post that spells its answer.
pub(crate) const ANSWER: u32 = 6;

/// One of the five words of a posted call: kind, key, two further numbers, and the call's number.
pub(crate) fn post_value(call: Call, seq: u32, word: u32) -> u64
    requires { word < 5 }
    ensures { result ≡ slice_index (model.post_spelling call seq) word }
{
    match word {
        0 => kind(call),
        1 => key(call),
        2 => first_number(call),
        3 => second_number(call),
        _ => u64::from(seq),
    }
}

fn kind(call: Call) -> u64
    ensures { result ≡ model.post_kind call }
{
    match call {
        Call::Get { .. } => 5,
        Call::Hold { .. } => 6,
        Call::Put { .. } | Call::Del { .. } | Call::Add { .. } | Call::Cas { .. } => {
            update_kind(call)
        }
    }
}

fn key(call: Call) -> u64
    ensures { result ≡ model.post_key call }
{
    match call {
        Call::Hold { shard } => u64::from(shard),
        Call::Put { .. }
        | Call::Get { .. }
        | Call::Del { .. }
        | Call::Add { .. }
        | Call::Cas { .. } => call_key(call),
    }
}

/// The call that these words post on a shard. A hold is one of that shard.
pub(crate) fn posted_call(shard: u32, words: &[u64]) -> Call
    requires { length words.now ≡ 5 }
    ensures { result ≡ model.posted_call shard words.now }
{
    let key = words[1];
    match words[0] {
        5 => Call::Get { key },
        6 => Call::Hold { shard },
        kind => update_of(kind, key, words[2], words[3]),
    }
}

/// One of the three words of an answer: place, code, and the value of the reply.
pub(crate) fn answer_value(entry: &Entry, word: u32) -> u64
    requires { word < 3 }
    ensures { result ≡ slice_index (model.answer_spelling entry.now) word }
{
    match word {
        0 => u64::from(entry.at),
        1 => code(entry.reply),
        _ => reply_value(entry.reply),
    }
}

fn code(reply: Reply) -> u64
    ensures { result ≡ model.post_code reply }
{
    match reply {
        Reply::Val(_) => 9,
        Reply::Held => 10,
        Reply::New
        | Reply::Was(_)
        | Reply::Full
        | Reply::Nothing
        | Reply::Sum(_)
        | Reply::Over(_)
        | Reply::No(_)
        | Reply::Undone => reply_code(reply),
    }
}

/// The reply of a code and a value.
pub(crate) fn answered_reply(code: u64, value: u64) -> Reply
    ensures { result ≡ model.combine_reply_of code value }
{
    match code {
        9 => Reply::Val(value),
        10 => Reply::Held,
        _ => reply_of(code, value),
    }
}
