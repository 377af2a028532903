//! A machine in plain vectors, and the two kinds of its steps.

ghost use Rattle.std.specs.Prelude.{ℕ, ◌≡◌, ◌+◌, ◌<◌, ◌≤◌, ◌-◌, ◌^◌, [], true, false, length, get_or, nat_lt, slice_get, slice_index, Some, IfOk, IfSome, OnErr};
ghost use Rattle.rl_model.specs.Geom.{GeomFits};
ghost use Rattle.rl_step.specs.Answers.{steps_made};
ghost use Rattle.rl_core.specs.Asks.{place_after, block_from};
ghost use Rattle.rl_machine.specs.Run.{done_of, place_of, stands_on, core_there, has_open_call, opens, atom_made, atom_answer, stepped, answer_of_step};
ghost use Rattle.rl_machine.specs.Running.{cores_of};
ghost use Rattle.rl_machine.specs.MachineGood.{IsMachine};
ghost use Rattle.rl_machine.specs.State.{running_shard, machine_view, IsGood, running_machine};

use crate::records::transcript_of;
use crate::shard::{ShardState, atom_at, block_at};
use rl_core::{ShardCore, TellsAll, block_from, block_shard};
use rl_model::{Call, Geom};
use rl_ops::Ops;
use rl_step::{Stepped, Steps};
use std::alloc::{AllocError as OutOfMemory, Global};

/// All of a machine.
#[derive(Drop)]
pub struct MachineState<C: ShardCore> {
    /// The shards by number.
    pub shards: Vec<ShardState<C>>,
    /// The size of the table.
    pub geom: Geom,
    /// What the ranks ask for.
    pub ops: Ops,
    /// How many of its calls each rank has opened.
    pub opened: Vec<u32>,
    /// How often each answer came.
    pub steps: Steps,
    /// Where each rank opened its last block: a guess, by which nothing is decided.
    pub seen: Vec<u32>,
}

/// A step that was made in full.
#[derive(Clone, Copy, PartialEq, Eq, Debug)]
pub struct FullStep {
    /// The shard where its rank stands after it.
    pub place: u32,
    /// How it went.
    pub answer: Stepped,
}

/// How many steps were made, of all answers.
#[inline(always)]
pub fn steps_made(steps: Steps) -> u32
    requires { steps_made steps < 2 ^ 32 }
    ensures { result ≡ steps_made steps }
{
    steps.moved + steps.waiting + steps.lost + steps.busy + steps.finished
}

/// The calls of a rank.
fn calls_of(ops: &Ops, rank: u32) -> &[Call]
    requires there { rank < length ops.now.by_rank }
    ensures { result.now ≡ get_or ops.now.by_rank rank [] }
{
    ops.by_rank.as_slice()[rank as usize].as_slice()
}

/// The sizes of a rank's calls.
fn sizes_of(ops: &Ops, rank: u32) -> &[u32]
    requires there { rank < length ops.now.sizes }
    ensures { result.now ≡ get_or ops.now.sizes rank [] }
{
    ops.sizes.as_slice()[rank as usize].as_slice()
}

/// The block of a rank that begins with the call of this number.
pub fn next_block(ops: &Ops, rank: u32, opened: u32) -> &[Call]
    requires there { rank < length ops.now.by_rank }
    requires sized { rank < length ops.now.sizes }
    requires begins { opened < length (get_or ops.now.sizes rank []) }
    requires within { opened + slice_index (get_or ops.now.sizes rank []) opened ≤ length (get_or ops.now.by_rank rank []) }
    ensures { result.now ≡ block_from (get_or ops.now.by_rank rank []) (get_or ops.now.sizes rank []) opened }
{
    block_from(calls_of(ops, rank), sizes_of(ops, rank), opened)
}

/// The shard where a rank stands that has opened so many of its calls: that of the last of them, and shard 0 before the first.
#[inline(always)]
fn place_after(geom: Geom, calls: &[Call], opened: u32) -> u32
    requires fits { GeomFits geom }
    requires within { opened ≤ length calls.now }
    ensures { result ≡ place_after geom calls.now opened }
{
    if opened == 0 {
        0
    } else {
        calls[opened as usize - 1].shard(geom)
    }
}

/// Notes where a rank opened its last block.
pub fn note_place(seen: &mut Vec<u32>, at: usize, place: u32) {
    if let Some(last) = seen.get_mut(at) {
        *last = place;
    }
}

impl<C: ShardCore> MachineState<C> {
    /// The shard where the rank stands.
    #[inline(always)]
    pub fn place(&self, rank: u32) -> u32
        requires there { rank < length self.now.ops.by_rank }
        requires good { IsMachine C.says (machine_view self.now) }
        ensures place { result ≡ place_of (running_machine C.says self.now) rank }
        ensures there { result < length self.now.shards.items }
    {
        let at = rank as usize;
        place_after(self.geom, calls_of(&self.ops, rank), self.opened[at])
    }

    /// The shard with this number, with what is true of it.
    #[inline(always)]
    pub fn shard(&self, shard: u32) -> &ShardState<C>
        requires there { shard < length self.now.shards.items }
        requires good { IsMachine C.says (machine_view self.now) }
        ensures has { slice_get (running_machine C.says self.now).shards shard ≡ Some (running_shard C.says result.now) }
        ensures core { slice_get (cores_of (machine_view self.now)) shard ≡ Some result.now.core }
        ensures ranks { length result.now.flat.views.items ≡ length self.now.ops.by_rank }
        ensures few { length result.now.flat.views.items < 2 ^ 32 }
        ensures good { IsGood C.says result.now }
    {
        &self.shards[shard as usize]
    }

    /// The shard where the rank stands, with what is true of it.
    #[inline(always)]
    pub fn shard_of_rank(&self, rank: u32) -> &ShardState<C>
        requires there { rank < length self.now.ops.by_rank }
        requires good { IsMachine C.says (machine_view self.now) }
        ensures has { stands_on (running_machine C.says self.now) rank ≡ Some (running_shard C.says result.now) }
        ensures core { core_there (cores_of (machine_view self.now)) (running_machine C.says self.now) rank ≡ Some result.now.core }
        ensures ranks { length result.now.flat.views.items ≡ length self.now.ops.by_rank }
        ensures good { IsGood C.says result.now }
    {
        self.shard(self.place(rank))
    }

    /// The shard where the rank opened its last block, as it is guessed, where there is one.
    #[inline(always)]
    pub fn seen_place(&self, rank: u32) -> Option<u32>
        ensures { IfSome result (λ place. place < length self.now.shards.items) }
    {
        let place = *self.seen.get(rank as usize)?;
        if (place as usize) < self.shards.len() {
            Some(place)
        } else {
            None
        }
    }

    /// The shard where the rank stands, where a call of it is seen to be open: that of its last block. `None` says nothing of it.
    #[inline(always)]
    fn open_place(&self, rank: u32) -> Option<u32>
        requires there { rank < length self.now.ops.by_rank }
        requires good { IsMachine C.says (machine_view self.now) }
        ensures stands { IfSome result (λ place. place ≡ place_of (running_machine C.says self.now) rank) }
        ensures there { IfSome result (λ place. place < length self.now.shards.items) }
        ensures open { IfSome result (λ _. opens (running_machine C.says self.now) rank ≡ false) }
    {
        let place = self.seen_place(rank)?;
        let shard = self.shard(place);
        if shard.core.is_open(shard.flat.view(rank)) {
            Some(place)
        } else {
            None
        }
    }

    /// Whether a call of the rank is open.
    #[inline(always)]
    pub fn is_open(&self, rank: u32) -> bool
        requires there { rank < length self.now.ops.by_rank }
        requires good { IsMachine C.says (machine_view self.now) }
        ensures { result ≡ has_open_call (running_machine C.says self.now) rank }
    {
        let shard = self.shard_of_rank(rank);
        shard.core.is_open(shard.flat.view(rank))
    }

    /// Whether the rank has a call that it hasn't opened.
    #[inline(always)]
    fn has_left(&self, rank: u32) -> bool
        requires there { rank < length self.now.ops.by_rank }
        requires good { IsMachine C.says (machine_view self.now) }
        ensures { result ≡ nat_lt (slice_index self.now.opened.items rank) (length (get_or self.now.ops.by_rank rank [])) }
    {
        let at = rank as usize;
        (self.opened[at] as usize) < calls_of(&self.ops, rank).len()
    }

    /// Whether the rank's next step opens a block: no call is open, and one is left.
    #[inline(always)]
    pub fn opens(&self, rank: u32) -> bool
        requires there { rank < length self.now.ops.by_rank }
        requires good { IsMachine C.says (machine_view self.now) }
        ensures { result ≡ opens (running_machine C.says self.now) rank }
    {
        !self.is_open(rank) && self.has_left(rank)
    }

    /// How many entries the rank has on all shards, by its views and by the words.
    pub fn done_of(&self, alloc: Global, rank: u32) -> Result<u32, OutOfMemory>
        requires there { rank < length self.now.ops.by_rank }
        requires good { IsMachine C.says (machine_view self.now) }
        ensures { IfOk result (λ done. done ≡ done_of (running_machine C.says self.now) rank) }
    {
        let mut done = 0;
        for shard in &self.shards {
            let told = transcript_of(alloc, shard, rank)?;
            done += told.len() as u32;
        }
        Ok(done)
    }
}

impl<C: TellsAll> MachineState<C> {
    /// How many entries the rank has on all shards.
    pub fn done(&self, rank: u32) -> u32
        requires there { rank < length self.now.ops.by_rank }
        requires good { IsMachine C.says (machine_view self.now) }
        ensures { result ≡ done_of (running_machine C.says self.now) rank }
    {
        let mut done = 0;
        for shard in &self.shards {
            done += shard.core.entries(shard.flat.view(rank)).len() as u32;
        }
        done
    }
}

/// Makes the next atom of the rank, if it has one, on the shard where it stands, and counts the answer.
#[inline(always)]
fn step_at<C: ShardCore>(
    state: &mut MachineState<C>,
    rank: u32,
    place: u32,
) -> Result<FullStep, OutOfMemory>
    requires there { rank < length state.old.ops.by_rank }
    requires good { IsMachine C.says (machine_view state.old) }
    requires few { steps_made state.old.steps < 2 ^ 32 - 1 }
    requires stands { place ≡ place_of (running_machine C.says state.old) rank }
    requires place { place < length state.old.shards.items }
    ensures made { IfOk result (λ _. running_machine C.says state.new ≡ atom_made (running_machine C.says state.old) rank) }
    ensures answer { IfOk result (λ made. made.answer ≡ atom_answer (running_machine C.says state.old) rank) }
    ensures place { IfOk result (λ made. made.place ≡ place_of (running_machine C.says state.new) rank) }
    ensures cores { cores_of (machine_view state.new) ≡ cores_of (machine_view state.old) }
    ensures kept { OnErr result (machine_view state.new ≡ machine_view state.old) }
{
    let step = steps_made(state.steps);
    let answer = atom_at(&mut state.shards[place as usize], rank, step)?;
    state.steps.count(answer);
    Ok(FullStep { place, answer })
}

/// Makes the next atom of the rank, where it stands, if it has one, and counts the answer. Few steps come this way; it is out of line,
/// since a step that held the atom's code twice would be too large to be put in line itself.
#[inline(never)]
pub fn step_there<C: ShardCore>(
    state: &mut MachineState<C>,
    rank: u32,
) -> Result<FullStep, OutOfMemory>
    requires there { rank < length state.old.ops.by_rank }
    requires good { IsMachine C.says (machine_view state.old) }
    requires few { steps_made state.old.steps < 2 ^ 32 - 1 }
    ensures made { IfOk result (λ _. running_machine C.says state.new ≡ atom_made (running_machine C.says state.old) rank) }
    ensures answer { IfOk result (λ made. made.answer ≡ atom_answer (running_machine C.says state.old) rank) }
    ensures place { IfOk result (λ made. made.place ≡ place_of (running_machine C.says state.new) rank) }
    ensures cores { cores_of (machine_view state.new) ≡ cores_of (machine_view state.old) }
    ensures kept { OnErr result (machine_view state.new ≡ machine_view state.old) }
{
    let place = state.place(rank);
    step_at(state, rank, place)
}

/// Opens the rank's next block, on the shard of its calls, makes the next atom there, and counts the answer.
#[inline(never)]
pub fn step_block<C: ShardCore>(
    state: &mut MachineState<C>,
    rank: u32,
) -> Result<FullStep, OutOfMemory>
    requires there { rank < length state.old.ops.by_rank }
    requires good { IsMachine C.says (machine_view state.old) }
    requires few { steps_made state.old.steps < 2 ^ 32 - 1 }
    requires opens { opens (running_machine C.says state.old) rank ≡ true }
    ensures made { IfOk result (λ _. running_machine C.says state.new ≡ stepped (running_machine C.says state.old) rank) }
    ensures answer { IfOk result (λ made. made.answer ≡ answer_of_step (running_machine C.says state.old) rank) }
    ensures place { IfOk result (λ made. made.place ≡ place_of (running_machine C.says state.new) rank) }
    ensures cores { cores_of (machine_view state.new) ≡ cores_of (machine_view state.old) }
    ensures kept { OnErr result (machine_view state.new ≡ machine_view state.old) }
{
    let at = rank as usize;
    let first = state.opened[at];
    let block = next_block(&state.ops, rank, first);
    let place = block_shard(state.geom, block);
    let step = steps_made(state.steps);
    let shard = &mut state.shards[place as usize];
    let answer = block_at(shard, rank, step, block, first)?;
    state.opened[at] = first + block.len() as u32;
    state.steps.count(answer);
    note_place(&mut state.seen, at, place);
    Ok(FullStep { place, answer })
}

/// One step of a rank, made in full: its next block is opened where none is open and one is left; then, where a call is open, one
/// atom is made.
#[inline(always)]
pub fn step<C: ShardCore>(state: &mut MachineState<C>, rank: u32) -> Result<FullStep, OutOfMemory>
    requires there { rank < length state.old.ops.by_rank }
    requires good { IsMachine C.says (machine_view state.old) }
    requires few { steps_made state.old.steps < 2 ^ 32 - 1 }
    ensures made { IfOk result (λ _. running_machine C.says state.new ≡ stepped (running_machine C.says state.old) rank) }
    ensures answer { IfOk result (λ made. made.answer ≡ answer_of_step (running_machine C.says state.old) rank) }
    ensures place { IfOk result (λ made. made.place ≡ place_of (running_machine C.says state.new) rank) }
    ensures cores { cores_of (machine_view state.new) ≡ cores_of (machine_view state.old) }
    ensures kept { OnErr result (machine_view state.new ≡ machine_view state.old) }
{
    if let Some(place) = state.open_place(rank) {
        step_at(state, rank, place)
    } else if state.opens(rank) {
        step_block(state, rank)
    } else {
        step_there(state, rank)
    }
}
