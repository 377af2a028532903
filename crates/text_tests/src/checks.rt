//! Each call once, on a report worked out by hand: as it is, and bent.

use crate::samples::{ALOCK, SPIN, place_of};
use rl_check::{Group, Illegal, Test, check_all, check_one, check_rank, check_shard, report_laws};
use rl_ops::read_ops;
use rl_report::read_report;
use rl_text::{TEXT_LIMIT, TextErr};
use std::test::*;
use std::thread::Threads;

const CALLS: &str = "rmalock-calls 1\n0 put 7 5\nend\n";

const RUN: &str =
    "rmalock-report 2\nrun spin\nranks 1 shards 1\nshard 0 updates 1 entries 1\nentry 0 0 0 put 7 5 = new\npair 7 5\nrank 0 done 1 of 1\nend\n";

const NO_ROOM_TOLD: &str =
    "rmalock-report 2\nrun spin\nranks 1 shards 1\nshard 0 updates 1 entries 1\nentry 0 0 0 put 7 5 = full\npair 7 5\nrank 0 done 0 of 1\nend\n";

const NOTHING_DONE_TOLD: &str =
    "rmalock-report 2\nrun spin\nranks 1 shards 1\nshard 0 updates 1 entries 1\nentry 0 0 0 put 7 5 = new\npair 7 5\nrank 0 done 0 of 1\nend\n";

const TWO_IN_ONE: &str = "rmalock-calls 2\n0 batch 2\n0 put 7 5\n0 put 7 6\nend\n";

const HALF_OF_A_BATCH: &str =
    "rmalock-report 2\nreplay spin\nranks 1 shards 1\nshard 0 updates 1 entries 1\nentry 0 0 0 put 7 5 = new part 0 of 2\nrank 0 done 1 of 2\nsteps 9 moved 9 waiting 0 lost 0 busy 0 finished 0\nend\n";

/// One rank, spin, and two shards.
const TWO_SHARDS: &str =
    "rmalock-place 1\nlevels 1\nlock spin\nshards 2\nbuckets 1\noverflow 0\nrank 0 at 0\nhome 0 0\nhome 1 0\nend\n";

const PUT_ON_SHARD_1: &str = "rmalock-calls 1\n0 put 1 5\nend\n";

const TOLD_OF_SHARD_0: &str =
    "rmalock-report 2\nrun spin\nranks 1 shards 2\nshard 0 updates 1 entries 1\nentry 0 0 0 put 1 5 = new\npair 1 5\nshard 1 updates 0 entries 0\nrank 0 done 1 of 1\nend\n";

const TWO_GETS: &str = "rmalock-calls 1\n0 get 7\n0 get 7\nend\n";

const SECOND_BEFORE_THE_FIRST: &str =
    "rmalock-report 2\nrun spin\nranks 1 shards 1\nshard 0 updates 0 entries 2\nentry 0 0 1 get 7 = none\nentry 0 0 0 get 7 = none\nrank 0 done 2 of 2\nend\n";

const PLACE_0_LEFT_OUT: &str =
    "rmalock-report 2\nrun spin\nranks 1 shards 1\nshard 0 updates 1 entries 1\nentry 1 0 0 put 7 5 = new\npair 7 5\nrank 0 done 1 of 1\nend\n";

const TWO_UPDATES_TOLD: &str =
    "rmalock-report 2\nrun spin\nranks 1 shards 1\nshard 0 updates 2 entries 1\nentry 0 0 0 put 7 5 = new\npair 7 5\nrank 0 done 1 of 1\nend\n";

const ANOTHER_PAIR: &str =
    "rmalock-report 2\nrun spin\nranks 1 shards 1\nshard 0 updates 1 entries 1\nentry 0 0 0 put 7 5 = new\npair 7 6\nrank 0 done 1 of 1\nend\n";

/// The tenure of the rank at home is told of the other cohort.
const TENURE_OF_THE_OTHERS: &str =
    "rmalock-report 2\nrun alock\nranks 2 shards 1\nshard 0 updates 1 entries 1\nentry 0 0 0 put 7 5 = new\nqueue local settled 0 passed 0\nqueue remote settled 1 passed 0\npair 7 5\nrank 0 done 1 of 1\nrank 1 done 0 of 0\nend\n";

/// An event settles a queue of which no settlement is told.
const SETTLED_AND_NOT_TOLD: &str =
    "rmalock-report 2\nreplay alock\nranks 2 shards 1\nshard 0 updates 0 entries 0\nqueue local settled 0 passed 0\nqueue remote settled 0 passed 0\nevent 3 settle local 0\nrank 0 done 0 of 1\nrank 1 done 0 of 0\nsteps 9 moved 9 waiting 0 lost 0 busy 0 finished 0\nend\n";

const PASSED_AND_NEVER_SETTLED: &str =
    "rmalock-report 2\nreplay alock\nranks 2 shards 1\nshard 0 updates 0 entries 0\nqueue local settled 0 passed 1\nqueue remote settled 0 passed 0\nevent 3 pass local 0\nrank 0 done 0 of 1\nrank 1 done 0 of 0\nsteps 9 moved 9 waiting 0 lost 0 busy 0 finished 0\nend\n";

const ANOTHER_CALL: &str = "rmalock-calls 1\n0 put 7 6\nend\n";

const PUT_AND_GET: &str = "rmalock-calls 1\n0 put 7 5\n0 get 7\nend\n";

const GET_FROM_BEFORE_THE_PUT: &str =
    "rmalock-report 2\nrun spin\nranks 1 shards 1\nshard 0 updates 1 entries 2\nentry 0 0 1 get 7 = none\nentry 0 0 0 put 7 5 = new\npair 7 5\nrank 0 done 2 of 2\nend\n";

/// What is found of the first shard, of the first rank, and by both checks of the whole.
fn found<R: Threads + Sync + AllocGlobal>(
    rt: &R,
    place: &str,
    calls: &str,
    report: &str,
) -> Result<[Option<Illegal>; 4], TextErr> {
    let alloc = rt.alloc();
    if calls.len() >= TEXT_LIMIT as usize || report.len() >= TEXT_LIMIT as usize {
        return Err(TextErr::Memory);
    }
    let place = place_of(alloc, place.as_bytes())?;
    let ranks = place.paths.len() as u32;
    let ops = read_ops(alloc, ranks, place.geom.shards, calls.as_bytes())?;
    let report = read_report(alloc, &place, report.as_bytes())?;
    if place.geom.shards == 0 || report.done.is_empty() {
        return Err(TextErr::Memory);
    }
    let on_shard = check_shard(alloc, &place, &report, 0)?;
    let by_rank = check_rank(alloc, &ops, &report, 0)?;
    let one = check_one(alloc, &place, &ops, &report)?;
    let all = check_all(rt, alloc, &place, &ops, &report)?;
    Ok([on_shard, by_rank, one, all])
}

/// A fault of shard 0, and one of rank 0.
fn on_shard(place: u32, test: Test) -> Option<Illegal> {
    Some(Illegal {
        group: Group::Shard(0),
        place,
        test,
    })
}

fn by_rank(place: u32, test: Test) -> Option<Illegal> {
    Some(Illegal {
        group: Group::Rank(0),
        place,
        test,
    })
}

/// The last report ends inside a batch, which the check of its rank alone finds too.
#[test]
fn the_first_fault_is_found(rt: HostRuntime) -> Result<(), Fail> {
    let reply = on_shard(0, Test::Reply);
    let batch = on_shard(1, Test::Batch);
    let done = by_rank(1, Test::Done);
    for (calls, report, wanted) in [
        (CALLS, RUN, [None, None, None, None]),
        (CALLS, NO_ROOM_TOLD, [reply, done, reply, reply]),
        (CALLS, NOTHING_DONE_TOLD, [None, done, done, done]),
        (TWO_IN_ONE, HALF_OF_A_BATCH, [batch, done, batch, batch]),
    ] {
        assert_eq!(rt; found(&rt, SPIN, calls, report)?, wanted, "{report}");
    }
    assert_eq!(rt; Test::Reply.word(), "reply");
    report_laws();
    Ok(())
}

/// The nine tests that the reports above don't fail, each found first by both checks, where the other group passes its tests.
#[test]
fn each_other_test_finds_its_fault(rt: HostRuntime) -> Result<(), Fail> {
    for (place, calls, report, place_found, test) in [
        (TWO_SHARDS, PUT_ON_SHARD_1, TOLD_OF_SHARD_0, 0, Test::Shard),
        (SPIN, TWO_GETS, SECOND_BEFORE_THE_FIRST, 1, Test::Order),
        (SPIN, CALLS, PLACE_0_LEFT_OUT, 0, Test::At),
        (SPIN, CALLS, TWO_UPDATES_TOLD, 1, Test::Updates),
        (ALOCK, CALLS, TENURE_OF_THE_OTHERS, 1, Test::Tally),
        (ALOCK, CALLS, SETTLED_AND_NOT_TOLD, 0, Test::Tally),
        (SPIN, CALLS, ANOTHER_PAIR, 1, Test::Pairs),
        (ALOCK, CALLS, PASSED_AND_NEVER_SETTLED, 0, Test::Events),
    ] {
        let fault = on_shard(place_found, test);
        let wanted = [fault, None, fault, fault];
        assert_eq!(rt; found(&rt, place, calls, report)?, wanted, "{report}");
    }
    for (calls, report, number, test) in [
        (ANOTHER_CALL, RUN, 0, Test::Calls),
        (PUT_AND_GET, GET_FROM_BEFORE_THE_PUT, 1, Test::Fresh),
    ] {
        let fault = by_rank(number, test);
        let wanted = [None, fault, fault, fault];
        assert_eq!(rt; found(&rt, SPIN, calls, report)?, wanted, "{report}");
    }
    Ok(())
}
