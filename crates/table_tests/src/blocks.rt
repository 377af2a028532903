//! Blocks of one rank on plain words, with values worked out by hand.

ghost use Rattle.std.specs.Prelude.{◌≡◌, ◌≤◌, nat_lt, IfOk};
ghost use Rattle.std.specs.List.{All, list_all};
ghost use Rattle.rl_model.specs.Asked.{IsAsked};
ghost use Rattle.rl_model.specs.Geom.{GeomFits};
ghost use Rattle.rl_model.specs.Call.{shard_of};
ghost use Rattle.rl_model.specs.declared.call.Call.TheVariants.{Put};
ghost use Rattle.rl_step.specs.declared.events.Standing.TheVariants.{Out, Writer};
ghost use Rattle.rl_work.specs.WorkGood.{standing_after};
ghost use Rattle.table_tests.specs.OneRank.{IsAlone};

use crate::bench::{made, opening};
use rl_model::{Call, Entry, Geom, Reply};
use rl_work::LockedSide;
use std::alloc::Global;
use std::process::Abort;
use std::test::*;

// Words before the first block, and the rank with no block yet, with room for so many entries.
fn fresh(alloc: Global, geom: Geom, room: u32) -> Result<(Vec<u64>, LockedSide), Fail>
    requires fits { GeomFits geom }
    requires few { room ≤ 1000 }
    ensures { IfOk result (λ fresh. IsAlone geom room fresh.0.items Out fresh.1) }
{
    let words = opening(alloc, geom, room, 0)?;
    let work = LockedSide::new(alloc, geom, room)?;
    Ok((words, work))
}

// Makes the next atom of the work. Whether the work is over with it.
fn step(geom: Geom, room: u32, words: &mut [u64], work: &mut LockedSide) -> bool
    requires fits { GeomFits geom }
    requires few { room ≤ 1000 }
    requires alone { IsAlone geom room words.old Writer work.old }
    ensures { IsAlone geom room words.new (standing_after result Writer) work.new }
{
    let Some(atom) = work.next(geom) else {
        return false;
    };
    let got = made(words, atom);
    work.turn(geom, 0, 0, got)
}

// Whether each entry is of a call below a number.
fn are_below(entries: &[Entry], seq: u32) -> bool
    ensures { result ≡ list_all (λ e. nat_lt e.seq seq) entries.now }
{
    entries.iter().all(|entry| entry.seq < seq)
}

// Opens a block of calls, the first of which has this number, and gives the rank the lock.
fn begin(
    rt: &impl Abort,
    geom: Geom,
    room: u32,
    words: &[u64],
    work: &mut LockedSide,
    calls: &[Call],
    seq: u32,
)
    requires alone { IsAlone geom room words.now Out work.old }
    requires asked { IsAsked calls.now }
    requires here { All (λ call. shard_of geom call ≡ 0) calls.now }
    ensures { IsAlone geom room words.now Writer work.new }
{
    let entries = work.transcript();
    let free = (room as usize).saturating_sub(entries.len());
    if seq > 1000 {
        panic!(rt; "a number is small");
    }
    if !are_below(entries, seq) {
        panic!(rt; "numbers rise");
    }
    if calls.len() > free {
        panic!(rt; "there is room for the block");
    }
    work.open(calls, seq);
}

// Does a block of calls. How many atoms it made.
fn done(
    rt: &impl Abort,
    geom: Geom,
    room: u32,
    words: &mut [u64],
    work: &mut LockedSide,
    calls: &[Call],
    seq: u32,
) -> u32
    requires fits { GeomFits geom }
    requires few { room ≤ 1000 }
    requires alone { IsAlone geom room words.old Out work.old }
    requires asked { IsAsked calls.now }
    requires here { All (λ call. shard_of geom call ≡ 0) calls.now }
    ensures { IsAlone geom room words.new Out work.new }
{
    begin(rt, geom, room, words, work, calls, seq);
    for atoms in 1..200 {
        if step(geom, room, words, work) {
            return atoms;
        }
    }
    panic!(rt; "the work of a block ends");
}

// Does a call alone. How many atoms it made.
fn done_alone(
    rt: &impl Abort,
    geom: Geom,
    room: u32,
    words: &mut [u64],
    work: &mut LockedSide,
    call: Call,
    seq: u32,
) -> u32
    requires fits { GeomFits geom }
    requires few { room ≤ 1000 }
    requires alone { IsAlone geom room words.old Out work.old }
    ensures { IsAlone geom room words.new Out work.new }
{
    assert_eq!(rt; call.shard(geom), 0);
    done(rt, geom, room, words, work, &[call], seq)
}

const fn put(key: u64, value: u64) -> Call
    ensures { result ≡ Put key value }
{
    Call::Put { key, value }
}

const fn cas(key: u64, old: u64, new: u64) -> Call {
    Call::Cas { key, old, new }
}

// Where an entry stands, which call of its rank's it is, and its reply.
fn told(entry: &Entry) -> (u32, u32, Reply) {
    (entry.at, entry.seq, entry.reply)
}

#[test]
fn six_calls_on_one_bucket_and_one_cell(rt: HostRuntime) -> Result<(), Fail> {
    let geom = Geom {
        shards: 1,
        buckets: 1,
        overflow: 1,
    };
    // Each with its atoms and its reply: the count twice, the loads of the volume, six words of the entry, and the writes.
    let calls = [
        (put(0, 1), 12, Reply::New),
        (put(1, 2), 17, Reply::New),
        (put(2, 3), 13, Reply::Full),
        (put(1, 9), 13, Reply::Was(2)),
        (Call::Del { key: 0 }, 20, Reply::Was(1)),
        (put(2, 3), 17, Reply::New),
    ];
    let (mut start, mut work) = fresh(rt.alloc(), geom, 6)?;
    let words = start.as_mut_slice();
    for (seq, (call, atoms, _)) in calls.iter().enumerate() {
        let made = done_alone(&rt, geom, 6, words, &mut work, *call, seq as u32);
        assert_eq!(rt; made, *atoms);
    }
    assert_eq!(rt; work.transcript().len(), 6);
    for (entry, (place, (_, _, reply))) in work.transcript().iter().zip(calls.iter().enumerate()) {
        assert_eq!(rt; told(entry), (place as u32, place as u32, *reply));
    }
    let after = [
        1, 6, 0, 2, 1, 9, 0, 2, 3, // word 0, the count and the volume
        0, 9, 0, 1, 0, 0, // put 0 1 = new
        1, 9, 1, 2, 0, 0, // put 1 2 = new
        2, 25, 2, 3, 0, 0, // put 2 3 = full
        3, 17, 1, 9, 0, 2, // put 1 9 = was 2
        4, 18, 0, 0, 0, 1, // del 0 = was 1
        5, 9, 2, 3, 0, 0, // put 2 3 = new
    ];
    assert_eq!(rt; &*words, after.as_slice());
    Ok(())
}

#[test]
fn gets_and_holds_leave_the_journal_alone(rt: HostRuntime) -> Result<(), Fail> {
    let geom = Geom {
        shards: 1,
        buckets: 2,
        overflow: 0,
    };
    // Each with where its entry stands, and its reply.
    let calls = [
        (Call::Get { key: 5 }, 0, Reply::Nothing),
        (put(5, 1), 0, Reply::New),
        (cas(5, 1, 2), 1, Reply::Was(1)),
        (cas(5, 1, 3), 2, Reply::No(2)),
        (cas(6, 0, 0), 3, Reply::Nothing),
        (Call::Del { key: 6 }, 4, Reply::Nothing),
        (Call::Get { key: 5 }, 5, Reply::Val(2)),
        (Call::Get { key: 6 }, 5, Reply::Nothing),
        (Call::Hold { shard: 0 }, 5, Reply::Held),
    ];
    let (mut start, mut work) = fresh(rt.alloc(), geom, 9)?;
    let words = start.as_mut_slice();
    let mut last = 0;
    for (seq, (call, _, _)) in calls.iter().enumerate() {
        last = done_alone(&rt, geom, 9, words, &mut work, *call, seq as u32);
    }
    // A hold loads the count alone.
    assert_eq!(rt; last, 1);
    assert_eq!(rt; work.transcript().len(), 9);
    for (entry, (seq, (_, at, reply))) in work.transcript().iter().zip(calls.iter().enumerate()) {
        assert_eq!(rt; told(entry), (*at, seq as u32, *reply));
    }
    Ok(())
}

#[test]
fn all_calls_of_a_batch_or_none(rt: HostRuntime) -> Result<(), Fail> {
    let geom = Geom {
        shards: 1,
        buckets: 1,
        overflow: 0,
    };
    let (mut start, mut work) = fresh(rt.alloc(), geom, 5)?;
    let words = start.as_mut_slice();
    let made = done_alone(&rt, geom, 5, words, &mut work, put(0, 1), 0);
    assert_eq!(rt; made, 12);
    // The second put is full, so the first is undone too.
    let batch = [put(0, 5), put(1, 6)];
    assert_eq!(rt; done(&rt, geom, 5, words, &mut work, &batch, 1), 18);
    // The put finds the bucket as the delete before it leaves it.
    let batch = [Call::Del { key: 0 }, put(1, 7)];
    assert_eq!(rt; done(&rt, geom, 5, words, &mut work, &batch, 3), 21);
    let entries = [
        (0, Reply::New, 0, 0),
        (1, Reply::Undone, 2, 0),
        (2, Reply::Full, 2, 1),
        (3, Reply::Was(1), 2, 0),
        (4, Reply::New, 2, 1),
    ];
    assert_eq!(rt; work.transcript().len(), 5);
    for (entry, (place, reply, batch, part)) in work.transcript().iter().zip(entries.iter()) {
        assert_eq!(rt; told(entry), (*place, *place, *reply));
        assert_eq!(rt; (entry.batch, entry.part), (*batch, *part));
    }
    Ok(())
}
