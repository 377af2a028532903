//! The library in a few lines: a machine is made, makes steps, and tells what happened.
#![tactic(auto)]

ghost use Rattle.std.specs.Prelude.{length};
ghost use Rattle.rl_place.specs.Places.{IsProper};
ghost use Rattle.rl_ops.specs.Ops.{OpsFit};

use rl_locks::SpinCore;
use rl_machine::Machine;
use rl_ops::{Ops, read_ops};
use rl_place::{Place, read_place};
use rl_step::Event;
use std::alloc::{AllocError as OutOfMemory, Global};

const PLACE: &[u8] =
    b"rmalock-place 1\nlevels 1\nlock spin\nshards 1\nbuckets 1\noverflow 0\nrank 0 at 0\nhome 0 0\nend\n";

const CALLS: &[u8] = b"rmalock-calls 1\n0 hold 0\nend\n";

/// What happens in the first nine steps of rank 0 under a spin lock, on the shard of its call.
fn nine_steps(alloc: Global, place: &Place, ops: Ops) -> Result<Vec<(u32, Event)>, OutOfMemory>
    requires proper { IsProper place.now }
    requires calls { OpsFit (length place.now.paths) place.now.geom.shards ops }
{
    let shape = place.shape(alloc)?;
    let homes = place.homes.as_slice();
    let mut machine: Machine<SpinCore> = Machine::new(
        alloc,
        &shape,
        place.knobs(),
        place.geom,
        homes,
        ops,
    )?;
    for _ in 0..9u32 {
        machine.step(0)?;
    }
    let shard = machine.place(0);
    Vec::from_slice(alloc, machine.events(shard))
}

/// Prints what happens, step by step.
fn main(rt: HostRuntime) -> anyhow::Result<()> {
    let place = read_place(rt.alloc(), PLACE)?;
    let ranks = place.paths.len() as u32;
    let ops = read_ops(rt.alloc(), ranks, place.geom.shards, CALLS)?;
    for (step, event) in &nine_steps(rt.alloc(), &place, ops)? {
        println!(rt; "step {step}: {event:?}")?;
    }
    Ok(())
}
