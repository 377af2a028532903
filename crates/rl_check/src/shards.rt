//! The tests of a shard.
ghost use Rattle.std.specs.Prelude.{◌≡◌, ◌<◌, ◌^◌, ℕ, length, slice_get, slice_index, Some, IsTrue, ◌↔◌, IfOk};
ghost use Rattle.rl_word.specs.Shapes.{IsProper as IsProperShape};
ghost use Rattle.rl_step.specs.declared.events.Event.{Event};
ghost use Rattle.rl_place.specs.Places.{IsProper};
ghost use Rattle.rl_report.specs.Naming.{naming_of};
ghost use Rattle.rl_report.specs.Reports.{ReportFits, ShardFits};
ghost use Rattle.rl_check.specs.Finding.{replay_tests, run_tests};
ghost use Rattle.rl_check.specs.Legal.{tests_on};
ghost use Rattle.rl_check.specs.QueuesOf.{queues_all};
ghost use Rattle.rl_check.specs.Shards.{part_tests, shard_tests};
ghost use Rattle.rl_check.specs.Tests.{IsFirstOf};
ghost use Rattle.rl_check.specs.Watching.{IsThere};

use crate::due_replies::one_thread;
use crate::entries::{ends_in_batch, first_fault};
use crate::events::first_break;
use crate::illegal::{Group, Illegal, Test};
use crate::queues::Queues;
use rl_model::Plain;
use rl_place::Place;
use rl_report::{Report, ShardReport, tallies};
use rl_step::Tally;
use std::alloc::{AllocError as OutOfMemory, Global};

// Whether two lists of pairs are the same.
fn same_pairs(pairs: &[(u64, u64)], others: &[(u64, u64)]) -> bool
    ensures { IsTrue result ↔ (pairs.now ≡ others.now) }
{
    pairs == others
}

// Whether two lists of tallies are the same.
fn same_tallies(tallies: &[Tally], others: &[Tally]) -> bool
    ensures { IsTrue result ↔ (tallies.now ≡ others.now) }
{
    tallies == others
}

// The first test that a run's shard fails behind its entries, which leave this table.
fn fault_of_run(
    alloc: Global,
    queues: &Queues<'_>,
    part: &ShardReport,
    table: &Plain,
) -> Result<Option<Test>, OutOfMemory>
    requires proper { IsProperShape queues.now.shape.now }
    requires each { length part.now.queues ≡ length (queues_all queues.now) }
    ensures { IfOk result (IsFirstOf (run_tests (queues_all queues.now) queues.now.facts.spares part.now table.now.table)) }
{
    if !queues.are_tallied(part.entries.as_slice(), part.queues.as_slice()) {
        return Ok(Some(Test::Tally));
    }
    let pairs = table.pairs(alloc)?;
    if !same_pairs(part.pairs.as_slice(), pairs.as_slice()) {
        return Ok(Some(Test::Pairs));
    }
    Ok(None)
}

// The first test that a replay's shard fails behind its entries, with its place.
fn fault_of_replay(
    alloc: Global,
    queues: &Queues<'_>,
    ranks: usize,
    part: &ShardReport,
) -> Result<Option<(u32, Test)>, OutOfMemory>
    requires each { length part.now.queues ≡ length (queues_all queues.now) }
    requires few { length part.now.queues < 2 ^ 32 }
    requires few_entries { length part.now.entries < 2 ^ 32 }
    requires there { (i : ℕ) (e : ℕ × Event) → slice_get part.now.events i ≡ Some e → IsThere ranks e.1 }
    ensures { IfOk result (IsFirstOf (replay_tests (queues_all queues.now) part.now)) }
{
    let count = part.queues.len();
    let counted = tallies(alloc, count as u32, part.events.as_slice())?;
    if !same_tallies(part.queues.as_slice(), counted.as_slice()) {
        return Ok(Some((part.entries.len() as u32, Test::Tally)));
    }
    match first_break(alloc, queues, ranks, count, part.events.as_slice())? {
        Some(place) => Ok(Some((place, Test::Events))),
        None => Ok(None),
    }
}

// The first test that a shard fails behind its entries, with its place.
fn fault_behind(
    alloc: Global,
    place: &Place,
    replay: bool,
    shard: u32,
    part: &ShardReport,
    table: &Plain,
) -> Result<Option<(u32, Test)>, OutOfMemory>
    requires proper { IsProper place.now }
    requires there { shard < place.now.geom.shards }
    requires fits { ShardFits (naming_of place.now) replay shard part.now }
    ensures { IfOk result (IsFirstOf (part_tests place.now replay shard (slice_index place.now.homes shard) part.now table.now.table)) }
{
    let shape = place.shape(alloc)?;
    let queues = Queues::of(place, &shape, shard);
    if replay {
        return fault_of_replay(alloc, &queues, place.paths.len(), part);
    }
    match fault_of_run(alloc, &queues, part, table)? {
        Some(test) => Ok(Some((part.entries.len() as u32, test))),
        None => Ok(None),
    }
}

// The first test that a shard fails, with its place.
fn fault_of(
    alloc: Global,
    place: &Place,
    replay: bool,
    shard: u32,
    part: &ShardReport,
) -> Result<Option<(u32, Test)>, OutOfMemory>
    requires proper { IsProper place.now }
    requires there { shard < place.now.geom.shards }
    requires fits { ShardFits (naming_of place.now) replay shard part.now }
    ensures { IfOk result (IsFirstOf (shard_tests place.now replay shard (slice_index place.now.homes shard) part.now)) }
{
    let entries = part.entries.as_slice();
    let told = one_thread(alloc, place.geom, entries)?;
    let updates = match first_fault(place.geom, shard, entries, &told) {
        Ok(updates) => updates,
        Err(fault) => return Ok(Some(fault)),
    };
    if ends_in_batch(entries) {
        return Ok(Some((entries.len() as u32, Test::Batch)));
    }
    if part.updates != updates {
        return Ok(Some((entries.len() as u32, Test::Updates)));
    }
    fault_behind(alloc, place, replay, shard, part, &told.table)
}

/// The first test that a shard's part of a report fails; nothing where it passes them all.
///
/// The placement is a proper one, the report is one of it, and the shard is there.
///
/// # Errors
///
/// Want of memory. It is told too where the fault is an event whose number has no place in 32 bits.
pub fn check_shard(
    alloc: Global,
    place: &Place,
    report: &Report,
    shard: u32,
) -> Result<Option<Illegal>, OutOfMemory>
    requires proper { IsProper place.now }
    requires fits { ReportFits (naming_of place.now) report.now }
    requires there { shard < place.now.geom.shards }
    ensures { IfOk result (λ found. IsFirstOf (tests_on place.now report.now shard) found) }
{
    let part = &report.shards[shard as usize];
    match fault_of(alloc, place, report.steps.is_some(), shard, part)? {
        Some(fault) => Ok(Some(Illegal {
            group: Group::Shard(shard),
            place: fault.0,
            test: fault.1,
        })),
        None => Ok(None),
    }
}
