//! Small replays, and the state before a step of one.

ghost use Rattle.std.specs.Prelude.{length, IfOk};
ghost use Rattle.rl_inputs.specs.Fitting.{IsProper, OpsFit, SuitsLock, ScheduleFits};

use rl_ops::{Ops, Schedule, read_ops, read_schedule};
use rl_place::{Lock, Place, read_place};
use rl_shown::state_text;
use rl_text::{TEXT_LIMIT, TextErr};
use std::alloc::Global;

/// A replay by its three texts.
#[derive(Clone, Copy)]
pub struct Texts {
    pub place: &'static str,
    pub calls: &'static str,
    pub schedule: &'static str,
}

/// The placement of a text.
fn place_of(alloc: Global, text: &str) -> Result<Place, TextErr>
    ensures { IfOk result (λ place. IsProper place) }
{
    if text.len() >= TEXT_LIMIT as usize {
        return Err(TextErr::Memory);
    }
    read_place(alloc, text.as_bytes())
}

/// The calls of a text. A batch where the lock does none is no text of a test.
fn calls_of(alloc: Global, place: &Place, text: &str) -> Result<Ops, TextErr>
    requires { IsProper place.now }
    ensures calls { IfOk result (λ ops. OpsFit (length place.now.paths) place.now.geom.shards ops) }
    ensures suits { IfOk result (λ ops. SuitsLock place.now ops) }
{
    if text.len() >= TEXT_LIMIT as usize {
        return Err(TextErr::Memory);
    }
    let ranks = place.paths.len() as u32;
    let ops = read_ops(alloc, ranks, place.geom.shards, text.as_bytes())?;
    if ops.has_batch() && matches!(&place.lock, Lock::Combine { .. }) {
        return Err(TextErr::Memory);
    }
    Ok(ops)
}

/// The schedule of a text.
fn schedule_of(alloc: Global, place: &Place, text: &str) -> Result<Schedule, TextErr>
    requires { IsProper place.now }
    ensures { IfOk result (λ schedule. ScheduleFits (length place.now.paths) schedule) }
{
    if text.len() >= TEXT_LIMIT as usize {
        return Err(TextErr::Memory);
    }
    let ranks = place.paths.len() as u8;
    read_schedule(alloc, ranks, text.as_bytes())
}

/// The state before a step on a placement.
fn state_on(alloc: Global, place: &Place, texts: Texts, step: u32) -> Result<Vec<u8>, TextErr>
    requires { IsProper place.now }
{
    let schedule = schedule_of(alloc, place, texts.schedule)?;
    let ops = calls_of(alloc, place, texts.calls)?;
    Ok(state_text(alloc, place, ops, &schedule, step)?)
}

/// The state before a step of a replay.
pub fn state_before(alloc: Global, texts: Texts, step: u32) -> Result<Vec<u8>, TextErr> {
    let place = place_of(alloc, texts.place)?;
    state_on(alloc, &place, texts, step)
}
