//! Calls on a volume, worked out by hand, and many calls beside the one-thread table.

ghost use Rattle.std.specs.Prelude.{◌≡◌, ◌<◌, ◌≤◌, ℕ, IfOk, None, length};
ghost use Rattle.rl_model.specs.Geom.{GeomFits};
ghost use Rattle.rl_model.specs.Call.{shard_of};
ghost use Rattle.rl_model.specs.Table.{Table};
ghost use Rattle.rl_volume.specs.Words as place;
ghost use Rattle.std.specs.List.{All};
ghost use Rattle.rl_volume.specs.Volume.{IsVolume};
ghost use Rattle.rl_volume.specs.Seen.{AgreesWith, next_word};
ghost use Rattle.rl_volume.specs.Decision.{words_written};

use rl_model::{Call, Geom, Plain, Reply};
use rl_volume::{Seen, Write, content, decide, next_read, start_word, volume_words};
use std::alloc::Global;
use std::process::Abort;
use std::test::*;

// The words of a volume before the first call.
fn start(alloc: Global, geom: Geom) -> Result<Vec<u64>, Fail>
    requires { GeomFits geom }
    ensures { IfOk result (λ words. (shard : ℕ) → (table : Table) × IsVolume geom shard words.items table) }
{
    let mut words = Vec::new(alloc);
    for word in 0..volume_words(geom) {
        words.push(start_word(geom, word))?;
    }
    Ok(words)
}

// Reads what a call asks for, of words that are a volume or not; how many words that were.
fn read(rt: &impl Abort, geom: Geom, call: Call, words: &[u64], seen: &mut Seen) -> u32
    requires fits { GeomFits geom }
    requires room { seen.old.room ≡ place.volume_words geom }
    requires whole { length words.now ≡ place.volume_words geom }
    ensures room { seen.new.room ≡ place.volume_words geom }
    ensures agrees { AgreesWith seen.new.pairs words.now }
    ensures over { next_word geom call seen.new.pairs ≡ None }
{
    seen.clear();
    for loads in 0..volume_words(geom) {
        let Some(word) = next_read(geom, call, seen) else {
            return loads;
        };
        seen.add(word, words[word as usize]);
    }
    if next_read(geom, call, seen).is_some() {
        panic!(rt; "a call reads no more than the volume has");
    }
    volume_words(geom)
}

// Makes the writes in their order.
fn make(words: &mut [u64], writes: &[Write])
    requires { All (λ w. w.word < length words.old) writes.now }
    ensures { words.new ≡ words_written words.old writes.now }
{
    for write in writes {
        words[write.word as usize] = write.value;
    }
}

// Does a call of the one shard that there is: its reads, and then its writes. Its reply, and how many
// words it read.
fn done(rt: &impl Abort, geom: Geom, call: Call, words: &mut [u64], seen: &mut Seen) -> (Reply, u32)
    requires fits { GeomFits geom }
    requires mine { shard_of geom call ≡ 0 }
    requires room { seen.old.room ≡ place.volume_words geom }
    requires volume { (table : Table) × IsVolume geom 0 words.old table }
    ensures room { seen.new.room ≡ place.volume_words geom }
    ensures volume { (table : Table) × IsVolume geom 0 words.new table }
{
    let loads = read(rt, geom, call, words, seen);
    let (writes, reply) = decide(geom, call, seen);
    make(words, writes.as_slice());
    (reply, loads)
}

// Does some calls in turn, and compares the replies, how many words each read, and the words after it.
fn steps(
    rt: &impl Abort,
    geom: Geom,
    words: &mut [u64],
    seen: &mut Seen,
    calls: &[(Call, Reply, u32, [u64; 7])],
)
    requires fits { GeomFits geom }
    requires room { seen.old.room ≡ place.volume_words geom }
    requires volume { (table : Table) × IsVolume geom 0 words.old table }
    ensures room { seen.new.room ≡ place.volume_words geom }
    ensures volume { (table : Table) × IsVolume geom 0 words.new table }
{
    for (call, reply, loads, after) in calls {
        assert_eq!(rt; call.shard(geom), 0);
        let (given, read) = done(rt, geom, *call, words, seen);
        assert_eq!(rt; given, *reply);
        assert_eq!(rt; read, *loads);
        assert_eq!(rt; &*words, after.as_slice());
    }
}

const fn put(key: u64, value: u64) -> Call {
    Call::Put { key, value }
}

#[test]
fn one_bucket_and_one_cell(rt: HostRuntime) -> Result<(), Fail> {
    let geom = Geom {
        shards: 1,
        buckets: 1,
        overflow: 1,
    };
    let mut words = start(rt.alloc(), geom)?;
    let mut seen = Seen::new(rt.alloc(), geom)?;
    assert_eq!(rt; words.as_slice(), [1, 0, 0, 0, 0, 0, 0].as_slice());
    let calls = [
        (put(0, 1), Reply::New, 1, [1, 1, 0, 1, 0, 0, 0]),
        (put(1, 2), Reply::New, 4, [0, 2, 0, 1, 0, 1, 2]),
        (put(2, 3), Reply::Full, 5, [0, 2, 0, 1, 0, 1, 2]),
        (put(1, 9), Reply::Was(2), 4, [0, 2, 0, 1, 0, 1, 9]),
        (
            Call::Del { key: 0 },
            Reply::Was(1),
            7,
            [1, 1, 1, 9, 0, 1, 9],
        ),
        (put(2, 3), Reply::New, 4, [0, 2, 1, 9, 0, 2, 3]),
    ];
    let volume = words.as_mut_slice();
    steps(&rt, geom, volume, &mut seen, &calls);
    let pairs = content(rt.alloc(), geom, volume)?;
    assert_eq!(rt; pairs.as_slice(), [(1, 9), (2, 3)].as_slice());
    Ok(())
}

// How many overflow cells follow one another from a link on. A link is 0, or 1 + the cell that follows; the cells stand behind the
// buckets, three words each, of which the first is the link.
fn cells(geom: Geom, words: &[u64], first: u64) -> u32
    requires { GeomFits geom }
    ensures { result ≤ 64 }
{
    let mut count = 0;
    let mut link = first;
    for _ in 0..geom.overflow {
        if link == 0 || link > u64::from(geom.overflow) {
            return count;
        }
        count += 1;
        let cell = (link - 1) as u32;
        link = word_or_zero(words, 1 + 3 * geom.buckets + 3 * cell);
    }
    count
}

fn word_or_zero(words: &[u64], word: u32) -> u64 {
    words.get(word as usize).copied().unwrap_or(0)
}

// How many overflow cells are in the free list, whose head is word 0, and in the chains, each of which begins at its bucket's first word.
fn all_cells(geom: Geom, words: &[u64]) -> u32
    requires { GeomFits geom }
{
    let mut count = cells(geom, words, word_or_zero(words, 0));
    for bucket in 0..geom.buckets {
        let state = word_or_zero(words, 1 + 3 * bucket);
        count += cells(geom, words, state.saturating_sub(1));
    }
    count
}

// A call by a number: some key, and some kind.
fn some_call(number: u64) -> Call {
    let key = number / 8 % 8;
    let value = number / 64 % 4;
    match number % 8 {
        0 | 1 | 2 => Call::Put { key, value },
        3 | 4 => Call::Del { key },
        5 => Call::Add { key, by: value },
        6 => Call::Cas {
            key,
            old: value,
            new: value + 1,
        },
        _ => Call::Get { key },
    }
}

#[test]
fn the_volume_answers_as_the_table(rt: HostRuntime) -> Result<(), Fail> {
    let geom = Geom {
        shards: 1,
        buckets: 2,
        overflow: 3,
    };
    let mut words = start(rt.alloc(), geom)?;
    let mut seen = Seen::new(rt.alloc(), geom)?;
    let mut plain = Plain::new(rt.alloc(), geom);
    let volume = words.as_mut_slice();
    let mut number: u64 = 1;
    for _ in 0..400 {
        number = (number * 1103515245 + 12345) % 2147483648;
        let call = some_call(number / 65536);
        assert_eq!(rt; call.shard(geom), 0);
        let (reply, _) = done(&rt, geom, call, volume, &mut seen);
        assert_eq!(rt; plain.call(call)?, reply);
        assert_eq!(rt; all_cells(geom, volume), 3);
    }
    Ok(())
}

#[test]
fn what_is_no_volume_ends_the_walk(rt: HostRuntime) -> Result<(), Fail> {
    let geom = Geom {
        shards: 1,
        buckets: 1,
        overflow: 2,
    };
    let mut seen = Seen::new(rt.alloc(), geom)?;
    let get = Call::Get { key: 9 };
    let del = Call::Del { key: 0 };
    let no_cell = [0, 4, 0, 1, 0, 0, 0, 0, 0, 0];
    let rows = [
        // A state that names no cell: a delete of the bucket's own key looks for none either.
        (get, no_cell, 2),
        (put(9, 9), no_cell, 2),
        (del, no_cell, 3),
        // A link that names no cell.
        (put(9, 9), [0, 2, 0, 1, 7, 1, 2, 0, 0, 0], 4),
        // Two cells that follow each other, and a cell that follows itself.
        (put(9, 9), [0, 2, 0, 1, 2, 1, 2, 1, 3, 4], 6),
        (put(9, 9), [0, 2, 0, 1, 1, 1, 2, 0, 0, 0], 4),
        // A free head that names no cell, and one that names a cell of the chain.
        (put(9, 9), [3, 1, 0, 1, 0, 0, 0, 0, 0, 0], 3),
        (put(9, 9), [1, 2, 0, 1, 0, 1, 2, 0, 0, 0], 5),
    ];
    for (call, words, loads) in &rows {
        let made = read(&rt, geom, *call, words.as_slice(), &mut seen);
        assert_eq!(rt; made, *loads);
    }
    Ok(())
}

// Reads the next word that a call asks for, and says which one it is.
fn load(rt: &impl Abort, geom: Geom, call: Call, words: &[u64], seen: &mut Seen) -> u32
    requires fits { GeomFits geom }
    requires room { seen.old.room ≡ place.volume_words geom }
    requires whole { length words.now ≡ place.volume_words geom }
    ensures room { seen.new.room ≡ place.volume_words geom }
{
    let Some(word) = next_read(geom, call, seen) else {
        panic!(rt; "there is a word to read");
    };
    seen.add(word, words[word as usize]);
    word
}

#[test]
fn a_call_sees_what_the_one_before_it_writes(rt: HostRuntime) -> Result<(), Fail> {
    let geom = Geom {
        shards: 1,
        buckets: 1,
        overflow: 1,
    };
    let words = [1, 0, 0, 0, 0, 0, 0];
    let mut seen = Seen::new(rt.alloc(), geom)?;
    // The bucket is empty.
    assert_eq!(rt; load(&rt, geom, put(0, 1), &words, &mut seen), 1);
    assert_eq!(rt; next_read(geom, put(0, 1), &seen), None);
    let (writes, reply) = decide(geom, put(0, 1), &seen);
    assert_eq!(rt; reply, Reply::New);
    seen.patch(&writes);
    // Now it is taken, which the words don't say yet.
    assert_eq!(rt; load(&rt, geom, put(1, 2), &words, &mut seen), 0);
    assert_eq!(rt; load(&rt, geom, put(1, 2), &words, &mut seen), 4);
    assert_eq!(rt; next_read(geom, put(1, 2), &seen), None);
    let (writes, reply) = decide(geom, put(1, 2), &seen);
    assert_eq!(rt; reply, Reply::New);
    seen.patch(&writes);
    assert_eq!(rt; seen.value(1), Some(2));
    let get = Call::Get { key: 1 };
    assert_eq!(rt; next_read(geom, get, &seen), None);
    assert_eq!(rt; decide(geom, get, &seen).1, Reply::Val(2));
    Ok(())
}
