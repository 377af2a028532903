//! What the tests of all locks share: what comes of steps, by a machine and by callers on one thread.

ghost use Rattle.std.specs.Prelude.{◌≡◌, ◌-◌, ◌<◌, ◌^◌, length, true, IfOk};
ghost use Rattle.rl_inputs.specs.Fitting.{IsProper, shape_of, knobs_of, name_of, does_batches, OpsFit, SuitsLock};
ghost use Rattle.rl_step.specs.Answers.{steps_made};

use crate::callers::told_by;
use crate::signs::{answers_alone, told};
use rl_core::{Resting, ShardCore, ShardGuiding};
use rl_locks::{CoreTask, Promising, over_lock};
use rl_machine::Machine;
use rl_model::Entry;
use rl_ops::{Ops, read_ops};
use rl_place::{Lock, Place, read_place};
use rl_step::Steps;
use rl_text::{TEXT_LIMIT, TextErr};
use std::alloc::{AllocError as OutOfMemory, Global};
use std::process::Abort;

/// Whether so few steps were made that one more can be.
fn has_room(steps: Steps) -> bool
    ensures { result ≡ true → steps_made steps < 2 ^ 32 - 1 }
{
    steps.moved < 1000
        && steps.waiting < 1000
        && steps.lost < 1000
        && steps.busy < 1000
        && steps.finished < 1000
}

/// What a machine tells of a rank.
#[derive(Drop)]
pub(crate) struct OfRank {
    /// Its entries on shard 0, and how many of them its own view has.
    pub transcript: Vec<Entry>,
    pub kept: usize,
    /// How many of its calls are done, by whichever rank.
    pub done: u32,
}

/// What came of steps.
#[derive(Drop)]
pub(crate) struct Outcome {
    /// The answers, and the events of shard 0.
    pub told: String,
    /// The journal of shard 0 after them.
    pub journal: Vec<Entry>,
    /// What the machine tells of rank 1 then, if that is there.
    pub second: Option<OfRank>,
}

/// What a machine tells of a rank, if that is there.
fn of_rank<C: ShardCore>(
    alloc: Global,
    machine: &Machine<C>,
    rank: u32,
) -> Result<Option<OfRank>, OutOfMemory>
    requires some { 0 < length machine.now.shards }
{
    if (rank as usize) >= machine.ops().by_rank.as_slice().len() {
        return Ok(None);
    }
    Ok(Some(OfRank {
        transcript: machine.transcript_of(alloc, 0, rank)?,
        kept: machine.kept(0, rank).len(),
        done: machine.done_of(alloc, rank)?,
    }))
}

/// What comes of a machine's steps of these ranks, one after the other.
fn steps_of<C: ShardCore>(
    alloc: Global,
    mut machine: Machine<C>,
    ranks: &[u8],
) -> Result<Outcome, OutOfMemory>
    requires some { 0 < length machine.shards }
{
    let mut text = String::new(alloc);
    let mut step = 0u32;
    for digit in ranks {
        let rank = u32::from(digit.saturating_sub(b'0'));
        let there = machine.ops().by_rank.as_slice().len();
        if (rank as usize) < there && has_room(machine.steps()) {
            let answer = machine.step(rank)?;
            if step > 0 {
                text.push_str(" ")?;
            }
            text.push_str(&told(alloc, step, answer, machine.events(0))?)?;
        }
        step = step.saturating_add(1);
    }
    Ok(Outcome {
        told: text,
        journal: machine.journal(alloc, 0)?,
        second: of_rank(alloc, &machine, 1)?,
    })
}

fn run<C: ShardCore>(
    alloc: Global,
    place: &Place,
    ops: Ops,
    ranks: &[u8],
) -> Result<Outcome, OutOfMemory>
    requires proper { IsProper place.now }
    requires knobs { C.suits_knobs (shape_of place.now) (knobs_of place.now.lock) }
    requires batches { C.batches ≡ does_batches (name_of place.now.lock) }
    requires calls { OpsFit (length place.now.paths) place.now.geom.shards ops }
    requires suits { SuitsLock place.now ops }
{
    let shape = place.shape(alloc)?;
    let homes = place.homes.as_slice();
    let machine: Machine<C> = Machine::new(alloc, &shape, place.knobs(), place.geom, homes, ops)?;
    steps_of(alloc, machine, ranks)
}

/// What comes of the steps of these ranks, and what callers answer in their place, with the core of whichever lock the placement has.
/// Both have the same calls.
#[derive(Drop)]
struct TrialTask<'a> {
    alloc: Global,
    ops: Ops,
    again: Ops,
    ranks: &'a [u8],
}

impl CoreTask for TrialTask<'_> {
    type Out = Result<(Outcome, String), OutOfMemory>;

    ghost takes = { λ t place.
        OpsFit (length place.paths) place.geom.shards t.ops × SuitsLock place t.ops
        × OpsFit (length place.paths) place.geom.shards t.again × SuitsLock place t.again };

    ghost gives = { λ t place kind urgent told. Unit {0} };

    fn over<C: Resting + Promising + ShardGuiding>(
        self,
        place: &Place,
    ) -> Result<(Outcome, String), OutOfMemory> {
        let trial = run::<C>(self.alloc, place, self.ops, self.ranks)?;
        let by_callers = told_by::<C>(self.alloc, place, self.again, self.ranks)?;
        Ok((trial, by_callers))
    }
}

/// The calls of this text. One that is too long, and a batch where the lock does none, are no text of a test.
fn read_calls(alloc: Global, place: &Place, calls: &str) -> Result<Ops, TextErr>
    requires { IsProper place.now }
    ensures calls { IfOk result (λ ops. OpsFit (length place.now.paths) place.now.geom.shards ops) }
    ensures suits { IfOk result (λ ops. SuitsLock place.now ops) }
{
    if calls.len() >= TEXT_LIMIT as usize {
        return Err(TextErr::Memory);
    }
    let ranks = place.paths.len() as u32;
    let ops = read_ops(alloc, ranks, place.geom.shards, calls.as_bytes())?;
    if ops.has_batch() && matches!(&place.lock, Lock::Combine { .. }) {
        return Err(TextErr::Memory);
    }
    Ok(ops)
}

/// The placement and the calls of these texts.
pub(crate) fn read_both(alloc: Global, place: &str, calls: &str) -> Result<(Place, Ops), TextErr>
    ensures proper { IfOk result (λ p. IsProper p.0) }
    ensures calls { IfOk result (λ p. OpsFit (length p.0.paths) p.0.geom.shards p.1) }
    ensures suits { IfOk result (λ p. SuitsLock p.0 p.1) }
{
    if place.len() >= TEXT_LIMIT as usize {
        return Err(TextErr::Memory);
    }
    let place = read_place(alloc, place.as_bytes())?;
    let ops = read_calls(alloc, &place, calls)?;
    Ok((place, ops))
}

/// What comes of the steps of these ranks, which are given by their digits, over the placement and the calls of these texts, and what
/// callers answer.
fn tried(
    alloc: Global,
    place: &str,
    calls: &str,
    ranks: &str,
) -> Result<(Outcome, String), TextErr> {
    let (place, ops) = read_both(alloc, place, calls)?;
    let again = read_calls(alloc, &place, calls)?;
    let ranks = ranks.as_bytes();
    let task = TrialTask {
        alloc,
        ops,
        again,
        ranks,
    };
    Ok(over_lock(&place, task)?)
}

/// Looks that a text is this one.
pub(crate) fn look_same(rt: &impl Abort, made: &str, wanted: &str) {
    assert_eq!(rt; made, wanted);
}

/// What comes of the steps of these ranks, which are given by their digits, over the placement and the calls of these texts. Looks that
/// callers on one thread answer the same.
pub(crate) fn trial<R: AllocGlobal + Abort>(
    rt: &R,
    place: &str,
    calls: &str,
    ranks: &str,
) -> Result<Outcome, TextErr> {
    let alloc = rt.alloc();
    let (outcome, by_callers) = tried(alloc, place, calls, ranks)?;
    let alone = answers_alone(alloc, &outcome.told)?;
    look_same(rt, &by_callers, &alone);
    Ok(outcome)
}
