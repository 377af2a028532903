//! One shard in plain vectors, and what a step does on it.

ghost use Rattle.std.specs.Prelude.{◌≡◌, ◌+◌, ◌<◌, ◌≤◌, ◌++◌, length, vec_len, vec_capacity, false, IfOk, OnErr};
ghost use Rattle.rl_core.specs.ShardLaws.{MayOpen};
ghost use Rattle.rl_machine.specs.ShardSteps.{numbered, opened_on, atom_on, block_on, answer_on};
ghost use Rattle.rl_machine.specs.State.{shard_view, running_shard, IsGood, IsGoodFlat, StaysGood, OfView, ViewBecomes};

use rl_core::ShardCore;
use rl_model::Call;
use rl_step::{Event, Events, Flat, Stepped, advance_flat};
use std::alloc::AllocError as OutOfMemory;

/// How many events one atom can have.
pub const EVENTS: usize = 8;

/// One shard of a machine.
#[derive(Drop)]
pub struct ShardState<C: ShardCore> {
    /// A rank's machine for the shard.
    pub core: C,
    /// The words, the cards and the ranks' views.
    pub flat: Flat<C>,
    /// The events, each with the number of its step.
    pub events: Vec<(u32, Event)>,
}

/// Opens a block of the rank, where none is open.
fn open_in<C: ShardCore>(core: &C, flat: &mut Flat<C>, rank: u32, calls: &[Call], seq: u32)
    requires good { IsGoodFlat C.says core.now flat.old }
    requires few { length calls.now ≤ 8 }
    requires there { rank < length flat.old.views.items }
    requires closed { OfView flat.old.views.items rank (λ x. ((C.says core.now).table.own x).is_open ≡ false) }
    requires fits { OfView flat.old.views.items rank (λ x. MayOpen (C.says core.now).table rank x calls.now seq) }
    ensures keeps { StaysGood (C.says core.now) flat.old flat.new }
    ensures words { flat.new.words ≡ flat.old.words }
    ensures there { rank < length flat.new.views.items }
    ensures views { ViewBecomes flat.old flat.new rank ((C.says core.now).table.opened calls.now seq) }
{
    core.open_block(flat.view_mut(rank), calls, seq);
}

/// The same, on a shard.
pub fn open_on<C: ShardCore>(shard: &mut ShardState<C>, rank: u32, calls: &[Call], seq: u32)
    requires there { rank < length shard.old.flat.views.items }
    requires good { IsGood C.says shard.old }
    requires few { length calls.now ≤ 8 }
    requires closed { OfView shard.old.flat.views.items rank (λ x. ((C.says shard.old.core).table.own x).is_open ≡ false) }
    requires fits { OfView shard.old.flat.views.items rank (λ x. MayOpen (C.says shard.old.core).table rank x calls.now seq) }
    ensures opened { running_shard C.says shard.new ≡ opened_on rank calls.now seq (running_shard C.says shard.old) }
    ensures core { shard.new.core ≡ shard.old.core }
{
    open_in(&shard.core, &mut shard.flat, rank, calls, seq);
}

/// Appends an atom's events with the number of its step.
fn note(events: &mut Vec<(u32, Event)>, step: u32, noted: &[Event])
    requires room { vec_len events.old + length noted.now ≤ vec_capacity events.old }
    ensures { events.new.items ≡ events.old.items ++ numbered step noted.now }
{
    for event in noted {
        events.push_reserved((step, *event));
    }
}

/// Makes the next atom of the rank, if it has one, in the step with this number. There is room for its events.
#[inline(always)]
fn atom_on<C: ShardCore>(shard: &mut ShardState<C>, rank: u32, step: u32) -> Stepped
    requires there { rank < length shard.old.flat.views.items }
    requires good { IsGood C.says shard.old }
    requires room { vec_len shard.old.events + 8 ≤ vec_capacity shard.old.events }
    ensures made { running_shard C.says shard.new ≡ atom_on rank step (running_shard C.says shard.old) }
    ensures answer { result ≡ answer_on rank (running_shard C.says shard.old) }
    ensures core { shard.new.core ≡ shard.old.core }
{
    let mut events = Events::new();
    let stepped = advance_flat(&shard.core, &mut shard.flat, rank, &mut events);
    note(&mut shard.events, step, events.as_slice());
    stepped
}

/// Makes room for events, and then the rank's next atom. After want of memory nothing has changed.
#[inline(always)]
pub fn atom_at<C: ShardCore>(
    shard: &mut ShardState<C>,
    rank: u32,
    step: u32,
) -> Result<Stepped, OutOfMemory>
    requires there { rank < length shard.old.flat.views.items }
    requires good { IsGood C.says shard.old }
    ensures made { IfOk result (λ _. running_shard C.says shard.new ≡ atom_on rank step (running_shard C.says shard.old)) }
    ensures answer { IfOk result (λ answer. answer ≡ answer_on rank (running_shard C.says shard.old)) }
    ensures core { shard.new.core ≡ shard.old.core }
    ensures kept { OnErr result (shard_view shard.new ≡ shard_view shard.old) }
{
    if shard.events.capacity() - shard.events.len() < EVENTS {
        shard.events.reserve(EVENTS)?;
    }
    Ok(atom_on(shard, rank, step))
}

/// The same, with a block opened before the atom.
pub fn block_at<C: ShardCore>(
    shard: &mut ShardState<C>,
    rank: u32,
    step: u32,
    calls: &[Call],
    seq: u32,
) -> Result<Stepped, OutOfMemory>
    requires there { rank < length shard.old.flat.views.items }
    requires good { IsGood C.says shard.old }
    requires few { length calls.now ≤ 8 }
    requires closed { OfView shard.old.flat.views.items rank (λ x. ((C.says shard.old.core).table.own x).is_open ≡ false) }
    requires fits { OfView shard.old.flat.views.items rank (λ x. MayOpen (C.says shard.old.core).table rank x calls.now seq) }
    ensures made { IfOk result (λ _. running_shard C.says shard.new ≡ block_on rank step calls.now seq (running_shard C.says shard.old)) }
    ensures answer { IfOk result (λ answer. answer ≡ answer_on rank (opened_on rank calls.now seq (running_shard C.says shard.old))) }
    ensures core { shard.new.core ≡ shard.old.core }
    ensures kept { OnErr result (shard_view shard.new ≡ shard_view shard.old) }
{
    shard.events.reserve(EVENTS)?;
    open_in(&shard.core, &mut shard.flat, rank, calls, seq);
    Ok(atom_on(shard, rank, step))
}
