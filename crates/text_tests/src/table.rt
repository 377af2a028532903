//! Shards, buckets and kinds of calls, and replies of the one-thread table, worked out by hand.
ghost use Rattle.std.specs.Prelude.{◌≤◌};
ghost use Rattle.rl_model.specs.Geom.{GeomFits};

use crate::samples::put;
use rl_model::{Call, Entry, Geom, Plain, Reply};
use std::alloc::Global;
use std::process::Abort;
use std::test::*;

const GEOM: Geom = Geom {
    shards: 3,
    buckets: 4,
    overflow: 2,
};

#[test]
fn keys_go_round_the_shards_and_then_round_the_buckets(rt: HostRuntime) {
    for (key, shard, bucket) in [
        (0, 0, 0),
        (2, 2, 0),
        (3, 0, 1),
        (11, 2, 3),
        (12, 0, 0),
        (u64::MAX, 0, 1),
    ] {
        assert_eq!(rt; GEOM.shard(key), shard);
        assert_eq!(rt; GEOM.bucket(key), bucket);
    }
}

#[test]
fn kinds_of_calls(rt: HostRuntime) {
    let key = 5;
    for (call, shard, update, reader) in [
        (Call::Put { key, value: 1 }, 2, true, false),
        (Call::Get { key }, 2, false, true),
        (Call::Del { key }, 2, true, false),
        (Call::Add { key, by: 1 }, 2, true, false),
        (
            Call::Cas {
                key,
                old: 1,
                new: 2,
            },
            2,
            true,
            false,
        ),
        (Call::Hold { shard: 1 }, 1, false, false),
        (Call::default(), 0, false, false),
    ] {
        assert_eq!(rt; call.shard(GEOM), shard);
        assert_eq!(rt; call.is_update(), update);
        assert_eq!(rt; call.reads(), reader);
    }
}

#[test]
fn what_stands_before_there_is_an_entry(rt: HostRuntime) {
    assert_eq!(rt; Reply::default(), Reply::Held);
    let entry = Entry {
        shard: 0,
        rank: 0,
        seq: 0,
        call: Call::Hold { shard: 0 },
        at: 0,
        reply: Reply::Held,
        batch: 0,
        part: 0,
    };
    assert_eq!(rt; Entry::default(), entry);
}

/// One shard of so many buckets and overflow cells.
const fn one_shard(buckets: u32, overflow: u32) -> Geom
    requires some { 1 ≤ buckets }
    requires buckets { buckets ≤ 64 }
    requires overflow { overflow ≤ 64 }
    ensures { GeomFits result }
{
    Geom {
        shards: 1,
        buckets,
        overflow,
    }
}

/// Does the calls in turn, on an empty table, and compares the replies.
fn answers(rt: &impl Abort, alloc: Global, geom: Geom, calls: &[(Call, Reply)]) -> Result<(), Fail>
    requires { GeomFits geom }
{
    let mut plain = Plain::new(alloc, geom);
    for (call, reply) in calls {
        assert_eq!(rt; plain.call(*call)?, *reply);
    }
    Ok(())
}

const fn cas(key: u64, old: u64, new: u64) -> Call {
    Call::Cas { key, old, new }
}

#[test]
fn a_full_bucket_overflows_into_the_cells(rt: HostRuntime) -> Result<(), Fail> {
    let calls = [
        (put(0, 1), Reply::New),
        (put(1, 2), Reply::New),
        (put(2, 3), Reply::Full),
        (put(1, 9), Reply::Was(2)),
        (Call::Del { key: 0 }, Reply::Was(1)),
        (put(2, 3), Reply::New),
    ];
    answers(&rt, rt.alloc(), one_shard(1, 1), &calls)?;
    let calls = [
        (put(0, 1), Reply::New),
        (put(1, 1), Reply::New),
        (put(2, 1), Reply::Full),
    ];
    answers(&rt, rt.alloc(), one_shard(2, 0), &calls)
}

#[test]
fn sums_end_at_the_greatest_number(rt: HostRuntime) -> Result<(), Fail> {
    let key = u64::MAX;
    let calls = [
        (put(key, u64::MAX), Reply::New),
        (Call::Add { key, by: 1 }, Reply::Over(u64::MAX)),
        (Call::Add { key, by: 0 }, Reply::Sum(u64::MAX)),
    ];
    answers(&rt, rt.alloc(), one_shard(1, 0), &calls)
}

#[test]
fn every_kind_of_call(rt: HostRuntime) -> Result<(), Fail> {
    let calls = [
        (Call::Get { key: 5 }, Reply::Nothing),
        (put(5, 1), Reply::New),
        (cas(5, 1, 2), Reply::Was(1)),
        (cas(5, 1, 3), Reply::No(2)),
        (cas(6, 0, 0), Reply::Nothing),
        (Call::Del { key: 6 }, Reply::Nothing),
        (Call::Get { key: 5 }, Reply::Val(2)),
        (Call::Get { key: 6 }, Reply::Nothing),
        (Call::Hold { shard: 0 }, Reply::Held),
    ];
    answers(&rt, rt.alloc(), one_shard(2, 0), &calls)
}

#[test]
fn pairs_stand_by_rising_key(rt: HostRuntime) -> Result<(), Fail> {
    let mut plain = Plain::new(rt.alloc(), one_shard(2, 1));
    for key in [5, 0, 2] {
        assert_eq!(rt; plain.call(put(key, 10 + key))?, Reply::New);
    }
    let pairs = plain.pairs(rt.alloc())?;
    assert_eq!(rt; pairs.as_slice(), [(0, 10), (2, 12), (5, 15)].as_slice());
    Ok(())
}

/// A batch is all or nothing: the calls in turn, and the table as it was where one of them is full or over.
fn batch(rt: &impl Abort, plain: &mut Plain, calls: &[(Call, Reply)]) -> Result<(), Fail> {
    let before = plain.copy()?;
    let mut stopped = false;
    for (call, reply) in calls {
        assert_eq!(rt; plain.call(*call)?, *reply);
        stopped = stopped || matches!(reply, Reply::Full | Reply::Over(_));
    }
    if stopped {
        *plain = before;
    }
    Ok(())
}

#[test]
fn a_batch_that_is_full_is_taken_back(rt: HostRuntime) -> Result<(), Fail> {
    let mut plain = Plain::new(rt.alloc(), one_shard(1, 0));
    assert_eq!(rt; plain.call(put(0, 1))?, Reply::New);
    batch(
        &rt,
        &mut plain,
        &[(put(0, 5), Reply::Was(1)), (put(1, 6), Reply::Full)],
    )?;
    batch(
        &rt,
        &mut plain,
        &[
            (Call::Del { key: 0 }, Reply::Was(1)),
            (put(1, 7), Reply::New),
        ],
    )?;
    assert_eq!(rt; plain.call(Call::Get { key: 1 })?, Reply::Val(7));
    Ok(())
}
