//! Optimistic readers and flat combining, with values from their definitions: what the machine tells, threads that are led, and eight threads
//! that go on as they come.

use crate::run_tests::{read_own_writes, run_led_often};
use crate::schedules::{WAYS_LED, one_shard};
use crate::trials::{OfRank, trial};
use rl_model::{Call, Entry, Reply};
use rl_text::TextErr;
use std::alloc::{AllocError as OutOfMemory, Global};
use std::process::Abort;

const PUT_AND_GET: &str = "rmalock-calls 1\n0 put 0 7\n1 get 0\nend\n";

const PUT_ONE_AND_GET: &str = "rmalock-calls 1\n0 put 0 1\n1 get 0\nend\n";

/// A get looks at an even version while a writer is about to write, finds another afterwards and has lost, waits while the version is
/// odd, and reads what was written.
const GET_BESIDE_A_WRITER: &str = "111000000000110000000000000111111";

/// Both ranks post their calls; the first gets the lock and does both; the second collects its answer.
const BOTH_CALLS_BY_ONE: &str =
    "11111100000000000000000000000000000000000000000000000000000111111111111";

/// The same before the second collects it.
const DONE_AND_NOT_COLLECTED: &str = "11111100000000000000000000000000000000000000000000000000000";

/// Two ranks on the home of the one shard, whose table has room for one key, with this lock.
fn two_at_home(alloc: Global, lock: &str) -> Result<String, OutOfMemory> {
    one_shard(alloc, lock, "buckets 1\noverflow 0", "00")
}

/// The put of this value under key 0 by rank 0, its first call, as the first update.
fn first_put(value: u64) -> Entry {
    Entry {
        shard: 0,
        rank: 0,
        seq: 0,
        call: Call::Put { key: 0, value },
        at: 0,
        reply: Reply::New,
        batch: 0,
        part: 0,
    }
}

/// The get of key 0 by rank 1, its first call, behind a first put of 1.
fn first_get() -> Entry {
    Entry {
        rank: 1,
        call: Call::Get { key: 0 },
        at: 1,
        reply: Reply::Val(1),
        ..first_put(1)
    }
}

/// Looks that these are one entry.
fn look_at_one(rt: &impl Abort, entries: &[Entry], wanted: Entry) {
    assert!(rt; entries.len() == 1);
    assert!(rt; entries.first().is_some_and(|entry| *entry == wanted));
}

/// The journal of the machine has the put alone.
#[test]
fn a_journal_beside_a_get(rt: HostRuntime) -> Result<(), TextErr> {
    let place = two_at_home(rt.alloc(), "seq;budget 1 1")?;
    let outcome = trial(&rt, &place, PUT_AND_GET, GET_BESIDE_A_WRITER)?;
    look_at_one(&rt, outcome.journal.as_slice(), first_put(7));
    Ok(())
}

/// The same where one rank does the calls of both.
#[test]
fn a_journal_by_one_for_both(rt: HostRuntime) -> Result<(), TextErr> {
    let place = two_at_home(rt.alloc(), "combine;budget 1 1")?;
    let outcome = trial(&rt, &place, PUT_ONE_AND_GET, BOTH_CALLS_BY_ONE)?;
    look_at_one(&rt, outcome.journal.as_slice(), first_put(1));
    Ok(())
}

/// What the machine tells of rank 1 after these steps.
fn second_after<R: AllocGlobal + Abort>(rt: &R, ranks: &str) -> Result<Option<OfRank>, TextErr> {
    let place = two_at_home(rt.alloc(), "combine;budget 1 1")?;
    Ok(trial(rt, &place, PUT_ONE_AND_GET, ranks)?.second)
}

/// Looks that a posted call isn't done.
fn look_posted(rt: &impl Abort, second: &Option<OfRank>) {
    assert!(rt; second.is_some());
    if let Some(second) = second {
        assert!(rt; second.transcript.len() == 0 && second.done == 0);
    }
}

/// Looks that a call is done, and that its own rank has no entry yet.
fn look_done_by_another(rt: &impl Abort, second: &Option<OfRank>) {
    assert!(rt; second.is_some());
    if let Some(second) = second {
        look_at_one(rt, second.transcript.as_slice(), first_get());
        assert!(rt; second.done == 1 && second.kept == 0);
    }
}

/// A posted call isn't done. Once the first rank has done it it is, though the rank that posted it hasn't collected its answer: its view
/// has no entry yet.
#[test]
fn a_call_is_done_by_another_rank(rt: HostRuntime) -> Result<(), TextErr> {
    look_posted(&rt, &second_after(&rt, "111111")?);
    look_done_by_another(&rt, &second_after(&rt, DONE_AND_NOT_COLLECTED)?);
    Ok(())
}

/// Threads that are led by the turns of the worked schedules get the same answers.
#[test]
fn threads_answer_alike(rt: HostRuntime) -> Result<(), TextErr> {
    run_led_often(&rt, WAYS_LED)
}

/// Eight ranks read their own writes, and what the runs wrote is legal.
#[test]
fn eight_ranks_in_both_ways(rt: HostRuntime) -> Result<(), TextErr> {
    read_own_writes(&rt, "seq\nbudget 4 4")?;
    read_own_writes(&rt, "combine\nbudget 4 4")
}
