//! Placements and calls made from numbers, worked out by hand.

ghost use Rattle.std.specs.Prelude.{◌≤◌};
ghost use Rattle.rl_place.specs.declared.limits.TheConstants.{MOST_RANKS};
ghost use Rattle.rl_ops.specs.declared.ops.TheConstants.{MOST_CALLS};

use rl_making::generate;
use rl_ops::ops_text;
use rl_place::place_text;
use std::alloc::{AllocError as OutOfMemory, Global};
use std::process::Abort;

/// The texts of a placement and of calls that are made from a number.
fn made(
    alloc: Global,
    number: u64,
    ranks: u32,
    calls: u32,
) -> Result<(Vec<u8>, Vec<u8>), OutOfMemory>
    requires some_ranks { 1 ≤ ranks }
    requires most_ranks { ranks ≤ MOST_RANKS }
    requires most_calls { calls ≤ MOST_CALLS }
{
    let (place, ops) = generate(alloc, number, ranks, calls)?;
    Ok((place_text(alloc, &place)?, ops_text(alloc, &ops)?))
}

/// Looks that the ranks sit on these nodes, and the shards are at home there; and that these are the calls.
fn look(rt: &impl Abort, made: &(Vec<u8>, Vec<u8>), seats: &str, calls: &str) {
    let head =
        "rmalock-place 1\nlevels 1\nlock alock\nbudget 4 4\nshards 4\nbuckets 16\noverflow 16\n";
    let rest = made.0.as_slice().strip_prefix(head.as_bytes());
    assert!(rt; rest.is_some_and(|rest| rest == seats.as_bytes()));
    assert_eq!(rt; made.1.as_slice(), calls.as_bytes());
}

/// The generator that begins with 1 has the high bits 16838, 5758, 10113, 17515 and 31051: an add (16838 mod 8 is 6) of key 58 by 113, and
/// a get (17515 mod 8 is 3) of key 51. Seven calls of three ranks are of every kind. Of nine ranks 0 to 3 sit on node 0, 4 to 7 on node 1, and
/// rank 8 on node 2; the fourth shard is at home on node 0 again.
#[test]
fn placements_and_calls_of_numbers(rt: HostRuntime) -> Result<(), OutOfMemory> {
    look(
        &rt,
        &made(rt.alloc(), 1, 1, 2)?,
        "rank 0 at 0\nhome 0 0\nhome 1 0\nhome 2 0\nhome 3 0\nend\n",
        "rmalock-calls 1\n0 add 58 113\n0 get 51\nend\n",
    );
    look(
        &rt,
        &made(rt.alloc(), 15, 3, 7)?,
        "rank 0 at 0\nrank 1 at 0\nrank 2 at 0\nhome 0 0\nhome 1 0\nhome 2 0\nhome 3 0\nend\n",
        "rmalock-calls 1\n0 add 3 874\n0 put 92 653\n0 cas 91 26 245\n1 add 81 272\n1 get 58\n2 del 17\n2 get 18\nend\n",
    );
    look(
        &rt,
        &made(rt.alloc(), 7, 9, 0)?,
        "rank 0 at 0\nrank 1 at 0\nrank 2 at 0\nrank 3 at 0\nrank 4 at 1\nrank 5 at 1\nrank 6 at 1\nrank 7 at 1\nrank 8 at 2\nhome 0 0\nhome 1 1\nhome 2 2\nhome 3 0\nend\n",
        "rmalock-calls 1\nend\n",
    );
    Ok(())
}
