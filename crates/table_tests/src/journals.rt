//! Entries and the words that the journal has of them.

use rl_journal::{journal_entry, journal_value};
use rl_model::{Call, Entry, Reply};

fn words(entry: &Entry) -> [u64; 6] {
    [
        journal_value(entry, 0),
        journal_value(entry, 1),
        journal_value(entry, 2),
        journal_value(entry, 3),
        journal_value(entry, 4),
        journal_value(entry, 5),
    ]
}

// An entry of a batch of two, which stands in the journal where it stands among its rank's calls.
fn in_batch(number: u32, call: Call, reply: Reply, part: u32) -> Entry {
    Entry {
        call,
        seq: number,
        at: number,
        reply,
        batch: 2,
        part,
        ..Entry::default()
    }
}

// One rank puts 1; its batch of two puts finds no room and is undone; a second batch deletes and puts.
#[test]
fn a_batch_is_written_with_its_parts(rt: HostRuntime) {
    let put = Call::Put { key: 0, value: 5 };
    let full = Call::Put { key: 1, value: 6 };
    let del = Call::Del { key: 0 };
    let rows = [
        (in_batch(1, put, Reply::Undone, 0), [1, 321, 0, 5, 0, 0]),
        (in_batch(2, full, Reply::Full, 1), [2, 2329, 1, 6, 0, 0]),
        (in_batch(3, del, Reply::Was(1), 0), [3, 274, 0, 0, 0, 1]),
    ];
    for (entry, spelled) in &rows {
        assert!(rt; words(entry) == *spelled);
    }
}

// Rank 3 compares and swaps alone, and finds another value.
#[test]
fn an_entry_is_read_from_its_words(rt: HostRuntime) {
    let entry = Entry {
        shard: 2,
        rank: 3,
        seq: 2,
        call: Call::Cas {
            key: 5,
            old: 6,
            new: 7,
        },
        at: 9,
        reply: Reply::No(4),
        batch: 0,
        part: 0,
    };
    assert!(rt; words(&entry) == [12_884_901_890, 60, 5, 6, 7, 4]);
    assert!(rt; journal_entry(2, 9, [12_884_901_890, 60, 5, 6, 7, 4]) == entry);
}
