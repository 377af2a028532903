//! The tests of a whole report, in threads.
ghost use Rattle.std.specs.Prelude.{◌≡◌, ◌↔◌, ◌<◌, ◌≤◌, length, IsTrue, Ok, None, IfOk};
ghost use Rattle.rl_place.specs.Places.{IsProper};
ghost use Rattle.rl_ops.specs.Ops.{OpsFit};
ghost use Rattle.rl_report.specs.Naming.{naming_of};
ghost use Rattle.rl_report.specs.Reports.{ReportFits};
ghost use Rattle.rl_check.specs.Legal.{AreOfSomePlace, report_tests, tests_by, tests_on};
ghost use Rattle.rl_check.specs.Tests.{IsFirstOf};
ghost use Rattle.rl_check.specs.Threads.{AreFirstOf, answer_tests, something};

use crate::illegal::Illegal;
use crate::ranks::check_rank;
use crate::shards::check_shard;
use rayon::prelude::*;
use rl_ops::Ops;
use rl_place::Place;
use rl_report::Report;
use std::alloc::{AllocError as OutOfMemory, Global};
use std::thread::Threads;

// What is found of one shard or rank.
type Found = Result<Option<Illegal>, OutOfMemory>;

// Whether nothing was found.
fn is_nothing(found: &Found) -> bool
    ensures { IsTrue result ↔ (found.now ≡ Ok None) }
{
    matches!(found, Ok(None))
}

// The first that isn't nothing, a fault or want of memory; nothing where all are.
fn first(all: &[Found]) -> Found
    ensures { IsFirstOf (answer_tests all.now) (something result) }
{
    for place in 0..all.len() {
        if !is_nothing(&all[place]) {
            return all[place];
        }
    }
    Ok(None)
}

// What is found of each shard, by `rayon`, which may start threads for it. Only the list can be wanting for memory here.
fn of_shards(
    rt: &(impl Threads + Sync),
    alloc: Global,
    place: &Place,
    report: &Report,
) -> Result<Vec<Found>, OutOfMemory>
    requires proper { IsProper place.now }
    requires fits { ReportFits (naming_of place.now) report.now }
    ensures { IfOk result (λ all. AreFirstOf (tests_on place.now report.now) place.now.geom.shards all.items) }
{
    (0..place.geom.shards)
        .into_par_iter()
        .map(
            |shard: u32| -> Found
                requires { IsProper place.now × ReportFits (naming_of place.now) report.now × (shard < place.now.geom.shards) }
                ensures { IfOk result (IsFirstOf (tests_on place.entry.now report.entry.now shard)) }
            { check_shard(alloc, place, report, shard) },
        )
        .collect(rt, alloc)
}

// What is found of each of the first ranks.
fn of_ranks(
    rt: &(impl Threads + Sync),
    alloc: Global,
    ops: &Ops,
    report: &Report,
    ranks: u32,
) -> Result<Vec<Found>, OutOfMemory>
    requires fit { AreOfSomePlace ops.now report.now }
    requires there { ranks ≤ length report.now.done }
    ensures { IfOk result (λ all. AreFirstOf (tests_by ops.now report.now) ranks all.items) }
{
    (0..ranks)
        .into_par_iter()
        .map(
            |rank: u32| -> Found
                requires { AreOfSomePlace ops.now report.now × (rank < length report.now.done) }
                ensures { IfOk result (IsFirstOf (tests_by ops.entry.now report.entry.now rank)) }
            { check_rank(alloc, ops, report, rank) },
        )
        .collect(rt, alloc)
}

/// The same as [`check_one`](crate::check_one), by `rayon`, which may start threads for it: the shards, and then the ranks.
///
/// # Errors
///
/// Want of memory. It is told too where the fault is an event whose number has no place in 32 bits.
pub fn check_all(
    rt: &(impl Threads + Sync),
    alloc: Global,
    place: &Place,
    ops: &Ops,
    report: &Report,
) -> Result<Option<Illegal>, OutOfMemory>
    requires proper { IsProper place.now }
    requires calls { OpsFit (length place.now.paths) place.now.geom.shards ops.now }
    requires fits { ReportFits (naming_of place.now) report.now }
    ensures { IfOk result (λ found. IsFirstOf (report_tests place.now ops.now report.now) found) }
{
    let shards = of_shards(rt, alloc, place, report)?;
    if let Some(fault) = first(shards.as_slice())? {
        return Ok(Some(fault));
    }
    let ranks = of_ranks(rt, alloc, ops, report, place.paths.len() as u32)?;
    first(ranks.as_slice())
}
