//! Callers on one thread: each makes the calls of its rank, block after block.

ghost use Rattle.std.specs.Prelude.{◌≡◌, ◌<◌, length, vec_len};
ghost use Rattle.rl_inputs.specs.Fitting.{IsProper, shape_of, knobs_of, name_of, does_batches, OpsFit, SuitsLock};
ghost use Rattle.rl_run.specs.Runs.{AreCallers};

use crate::signs::answer_sign;
use rl_core::ShardCore;
use rl_ops::Ops;
use rl_place::Place;
use rl_run::{Caller, begin_all};
use rl_shard::Shard;
use rl_step::Stepped;
use std::alloc::{AllocError as OutOfMemory, Global};

/// One step of a rank's caller.
fn step_of<C: ShardCore>(shards: &[Shard<C>], callers: &mut Vec<Caller<C>>, rank: usize) -> Stepped
    requires callers { AreCallers C.says shards.now callers.old.items }
    requires there { rank < vec_len callers.old }
    ensures callers { AreCallers C.says shards.now callers.new.items }
    ensures long { vec_len callers.new ≡ vec_len callers.old }
{
    let caller = &mut callers[rank];
    caller.step(shards)
}

/// What the callers answer in these turns, each answer with a space behind it.
pub(crate) fn told_by<C: ShardCore>(
    alloc: Global,
    place: &Place,
    ops: Ops,
    turns: &[u8],
) -> Result<String, OutOfMemory>
    requires proper { IsProper place.now }
    requires knobs { C.suits_knobs (shape_of place.now) (knobs_of place.now.lock) }
    requires batches { C.batches ≡ does_batches (name_of place.now.lock) }
    requires calls { OpsFit (length place.now.paths) place.now.geom.shards ops }
    requires suits { SuitsLock place.now ops }
{
    let (shards, mut callers) = begin_all::<C>(alloc, place, ops)?;
    let shared = shards.as_slice();
    let mut text = String::new(alloc);
    for digit in turns {
        let rank = usize::from(digit.saturating_sub(b'0'));
        if rank < callers.len() {
            let answer = step_of(shared, &mut callers, rank);
            text.push_str(&answer_sign(alloc, answer)?)?;
            text.push_str(" ")?;
        }
    }
    Ok(text)
}
