//! The tests of a rank.
ghost use Rattle.std.specs.Prelude.{◌≡◌, ◌↔◌, ◌<◌, ◌≤◌, length, get_or, [], IsTrue, Some, IfOk, IfSome};
ghost use Rattle.rl_ops.specs.Asked.{asked_of};
ghost use Rattle.rl_check.specs.Legal.{AreOfSomePlace, tests_by, tests_of};
ghost use Rattle.rl_check.specs.Ranks.{Stands, IsFreshAfter, IsDone, number_tests};
ghost use Rattle.rl_check.specs.Slots.{begun_by};
ghost use Rattle.rl_check.specs.Tests.{IsFirstOf};
ghost use Rattle.rl_check.specs.declared.slots.Slot.TheVariants.{One};

use crate::illegal::{Group, Illegal, Test};
use crate::slots::{Slot, own_of, slots_of};
use rl_model::{Call, Entry};
use rl_ops::Ops;
use rl_report::{Done, Report};
use std::alloc::{AllocError as OutOfMemory, Global};

// A place in a block: the size of the batch, which is 0 for a call alone, and the part.
#[derive(Clone, Copy)]
struct Part {
    batch: u32,
    part: u32,
}

impl Part {
    // Where a call stands whose size this is: a size begins a block, and 0 goes on with the one before.
    fn begun_by(self, size: u32) -> Part
        ensures { result ≡ begun_by self size }
    {
        match size {
            0 => self,
            1 => Part { batch: 0, part: 0 },
            _ => Part {
                batch: size,
                part: 0,
            },
        }
    }
}

// The entry in a slot, if it is there alone and is what was asked for.
fn called(slot: Slot, call: Call, part: Part) -> Option<Entry>
    ensures is { IfSome result (λ e. (slot ≡ One e) × (e.call ≡ call) × (e.batch ≡ part.batch) × (e.part ≡ part.part)) }
    ensures isnt { (e : _) → slot ≡ One e → e.call ≡ call → e.batch ≡ part.batch → e.part ≡ part.part → result ≡ Some e }
{
    match slot {
        Slot::One(entry) => {
            let is = entry.call == call && entry.batch == part.batch && entry.part == part.part;
            if is { Some(entry) } else { None }
        }
        Slot::Empty | Slot::More => None,
    }
}

// Whether an entry looked at no fewer updates than another, and at more where that is an update.
fn is_fresh_after(last: Entry, entry: Entry) -> bool
    ensures { IsTrue result ↔ IsFreshAfter last entry }
{
    last.at < entry.at || (last.at == entry.at && !last.call.is_update())
}

// Whether an entry is fresh after the last one of its shard, if there is one.
fn is_fresh(last: Option<Entry>, entry: Entry) -> bool
    ensures { IsTrue result ↔ ((d : _) → last ≡ Some d → IsFreshAfter d entry) }
{
    match last {
        Some(last) => is_fresh_after(last, entry),
        None => true,
    }
}

// The first test that a rank fails among its entries by number, with the number.
fn first_fault(
    alloc: Global,
    calls: &[Call],
    sizes: &[u32],
    shards: usize,
    own: &[Entry],
) -> Result<Option<(u32, Test)>, OutOfMemory>
    requires sized { length sizes.now ≡ length calls.now }
    requires few { length calls.now ≤ 20000 }
    requires there { (e : _) → Stands own.now e → e.shard < shards }
    ensures { IfOk result (λ found. IsFirstOf (number_tests (asked_of calls.now sizes.now) own.now) found) }
{
    let slots = slots_of(alloc, own)?;
    let mut lasts: Vec<Option<Entry>> = vec![in alloc; None; shards]?;
    let mut part = Part { batch: 0, part: 0 };
    for number in 0..own.len() {
        if number >= calls.len() {
            return Ok(Some((number as u32, Test::Calls)));
        }
        let here = part.begun_by(sizes[number]);
        let Some(entry) = called(slots[number], calls[number], here) else {
            return Ok(Some((number as u32, Test::Calls)));
        };
        if !is_fresh(lasts[entry.shard as usize], entry) {
            return Ok(Some((number as u32, Test::Fresh)));
        }
        lasts[entry.shard as usize] = Some(entry);
        part = Part {
            part: here.part + 1,
            ..here
        };
    }
    Ok(None)
}

// Whether the rank has done as many calls as it has entries, was given these calls, and ends where it may.
fn is_done(replay: bool, calls: &[Call], sizes: &[u32], entries: usize, done: Done) -> bool
    requires { length sizes.now ≡ length calls.now }
    ensures { IsTrue result ↔ IsDone replay calls.now sizes.now entries done }
{
    if done.done as usize != entries || done.given as usize != calls.len() {
        return false;
    }
    if entries == calls.len() {
        return true;
    }
    if !replay || entries >= sizes.len() {
        return false;
    }
    sizes[entries] > 0
}

// The calls of a rank.
fn calls_of(ops: &Ops, rank: u32) -> &[Call]
    requires { rank < length ops.now.by_rank }
    ensures { result.now ≡ get_or ops.now.by_rank rank [] }
{
    ops.by_rank.as_slice()[rank as usize].as_slice()
}

// Their sizes: a size begins a block, and 0 goes on with one.
fn sizes_of(ops: &Ops, rank: u32) -> &[u32]
    requires { rank < length ops.now.sizes }
    ensures { result.now ≡ get_or ops.now.sizes rank [] }
{
    ops.sizes.as_slice()[rank as usize].as_slice()
}

// The first test that a rank fails, with its place.
fn fault_of(
    alloc: Global,
    ops: &Ops,
    report: &Report,
    rank: u32,
) -> Result<Option<(u32, Test)>, OutOfMemory>
    requires fit { AreOfSomePlace ops.now report.now }
    requires there { rank < length report.now.done }
    ensures { IfOk result (λ found. IsFirstOf (tests_of ops.now report.now rank) found) }
{
    let calls = calls_of(ops, rank);
    let sizes = sizes_of(ops, rank);
    let own = own_of(alloc, report.shards.as_slice(), rank)?;
    let shards = report.shards.len();
    let fault = first_fault(alloc, calls, sizes, shards, own.as_slice())?;
    if fault.is_some() {
        return Ok(fault);
    }
    let done = report.done[rank as usize];
    if is_done(report.steps.is_some(), calls, sizes, own.len(), done) {
        return Ok(None);
    }
    Ok(Some((own.len() as u32, Test::Done)))
}

/// The first test that a rank fails, by its entries in all parts of a report; nothing where it passes them all.
///
/// Calls and report are proper ones of some placement, and the rank is there.
///
/// # Errors
///
/// Want of memory.
pub fn check_rank(
    alloc: Global,
    ops: &Ops,
    report: &Report,
    rank: u32,
) -> Result<Option<Illegal>, OutOfMemory>
    requires fit { AreOfSomePlace ops.now report.now }
    requires there { rank < length report.now.done }
    ensures { IfOk result (λ found. IsFirstOf (tests_by ops.now report.now rank) found) }
{
    match fault_of(alloc, ops, report, rank)? {
        Some(fault) => Ok(Some(Illegal {
            group: Group::Rank(rank),
            place: fault.0,
            test: fault.1,
        })),
        None => Ok(None),
    }
}
