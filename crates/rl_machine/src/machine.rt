//! All shards in plain vectors, stepped one rank at a time.

ghost use Rattle.std.specs.Prelude.{◌≡◌, ◌↔◌, ◌≤◌, ℕ, false, ◌+◌, ◌-◌, ◌<◌, ◌^◌, [], length, map, get_or, slice_get, slice_index, Some, IfOk, OnErr};
ghost use Rattle.std.specs.List.{AllByRecursion};
ghost use Rattle.rl_model.specs.Geom.{GeomFits};
ghost use Rattle.rl_word.specs.Shapes.{IsProper, layout_of};
ghost use Rattle.rl_step.specs.Answers.{steps_made};
ghost use Rattle.rl_ops.specs.Ops.{OpsFit};
ghost use Rattle.rl_machine.specs.Changes.{OnlyWritersEverChange};
ghost use Rattle.rl_machine.specs.Causes.{StepCause, StepTells, IsFinished, OnlyCountsBusy};
ghost use Rattle.rl_machine.specs.Cores.{EachSits};
ghost use Rattle.rl_machine.specs.Promises.{EverKeepsQueues, IsSound, StaysSound};
ghost use Rattle.rl_machine.specs.Records.{journal_at, transcripts_at, owned_by, window_of};
ghost use Rattle.rl_machine.specs.Run.{done_of, stepped, answer_of_step, has_open_call, trace_of, kept_by};
ghost use Rattle.rl_machine.specs.Running.{running, cores_of};
ghost use Rattle.rl_machine.specs.Start.{start_of};
ghost use Rattle.rl_machine.specs.Rest.{RestsWith, RestsIfBusy, counted_more, with_steps};
ghost use Rattle.rl_machine.specs.Rested.{Tells};
ghost use Rattle.rl_machine.specs.Told.{told_by};
ghost use Rattle.rl_machine.specs.RunTransitions.{EverSays};

use crate::records;
use crate::rest::count_more;
use crate::start::{first_shards, none_opened};
use crate::state::{MachineState, step};
use crate::step_end::{StepEnd, what_is_told};
use rl_core::{ShardCore, TellsAll};
use rl_model::{Entry, Geom};
use rl_ops::Ops;
use rl_step::{Event, Stepped, Steps, Words};
use rl_word::{Knobs, Shape};
use std::alloc::{AllocError as OutOfMemory, Global};
use std::marker::Model;

mod ending;
mod guiding;
mod next_atoms;
mod ruled;
mod waiting;
mod whereabouts;

pub use ending::no_dead_end;
pub use next_atoms::NextAtom;
pub use ruled::rules;
pub use waiting::{RestAt, RoundAt};

/// All shards of a table, each behind a lock of its own, with the steps of the ranks one after the other.
///
/// Contracts see its shards, what its ranks ask for, how many calls each has opened and the counts of answers (`TheMachine` of
/// `specs/Running.antt`).
#[derive(Drop)]
pub struct Machine<C: ShardCore> {
    state: MachineState<C>,
}

impl<C: ShardCore> Model for Machine<C> {
    ghost use Rattle.rl_machine.specs.Running.{TheMachine};
    ghost use Rattle.rl_machine.specs.MachineGood.{IsMachine};
    ghost use Rattle.rl_machine.specs.State.{machine_view};

    ghost Value = { TheMachine C C.View };

    ghost view = { λ m. machine_view m.state };

    ghost invariant = { λ m. IsMachine C.says (machine_view m.state) };
}

impl<C: ShardCore> Machine<C> {
    /// The machine before its first step.
    ///
    /// `shape` says where the ranks sit, `knobs` are the settings of each shard's lock, `geom` is the size of the table,
    /// `homes` says for each shard the node that its words live on, and `ops` what each rank asks for, at most 20,000 calls
    /// in all; none is a batch where the cores do none. The table is empty. Refused only for want of memory.
    pub fn new(
        alloc: Global,
        shape: &Shape,
        knobs: Knobs,
        geom: Geom,
        homes: &[u32],
        ops: Ops,
    ) -> Result<Machine<C>, OutOfMemory>
        requires proper { IsProper shape.now }
        requires knobs { C.suits_knobs shape.now knobs }
        requires fits { GeomFits geom }
        requires many { length homes.now ≡ geom.shards }
        requires homes { AllByRecursion (λ home. home < shape.now.nodes) homes.now }
        requires ops { OpsFit (length shape.now.node_of) geom.shards ops }
        requires batches { C.batches ≡ false → (k i : ℕ) → slice_index (get_or ops.sizes k []) i ≤ 1 }
        ensures made { IfOk result (λ m. running C.says m ≡ start_of C.defined shape.now knobs geom homes.now ops) }
        ensures layout { IfOk result (λ m. EachSits C.says (layout_of shape.now) homes.now (cores_of m)) }
        ensures says { IfOk result (λ m. EverSays C.promised shape.now knobs homes.now (length ops.by_rank) (running C.says m)) }
        ensures keeps { IfOk result (λ m. EverKeepsQueues C.name shape.now knobs homes.now (length ops.by_rank) (running C.says m)) }
    {
        let shards = first_shards(alloc, shape, knobs, geom, homes, &ops)?;
        let opened = none_opened(alloc, &ops)?;
        let seen = none_opened(alloc, &ops)?;
        Ok(Machine {
            state: MachineState {
                shards,
                geom,
                ops,
                opened,
                steps: Steps::none(),
                seen,
            },
        })
    }

    /// One step of a rank: its next block is opened, where no call of it is open and one is left; then, where a call is open,
    /// one atom is made.
    ///
    /// The answer is `Busy` where the atom was a Take and another rank was in the card of that node, which changes nothing;
    /// `Lost` where it saw another value than the rank's guess, being the compare of a compare-and-swap, or the second look
    /// of an optimistic get at the version, after which the get begins anew; `Waiting` where it was the last of a waiting
    /// round, whose test isn't met; `Finished` exactly where the rank has no open call and none left, and no atom was made;
    /// and else `Moved`. Every answer counts as a step. The events are kept with the number of the step, from 0; fewer than
    /// 4,294,967,295 steps were made so far. That a card's compare-and-swap is several atoms, between which the home's own
    /// ranks may act, is what remote memory of today does. Refused only for want of memory, and then nothing has changed.
    pub fn step(&mut self, rank: u32) -> Result<Stepped, OutOfMemory>
        requires there { rank < length self.old.calls }
        requires few { steps_made self.old.steps < 2 ^ 32 - 1 }
        ensures cores { cores_of self.new ≡ cores_of self.old }
        ensures stepped { IfOk result (λ _. running C.says self.new ≡ stepped (running C.says self.old) rank) }
        ensures counted { IfOk result (λ _. steps_made self.new.steps ≡ steps_made self.old.steps + 1) }
        ensures calls { IfOk result (λ _. self.new.calls ≡ self.old.calls) }
        ensures answer { IfOk result (λ answer. answer ≡ answer_of_step (running C.says self.old) rank) }
        ensures cause { IfOk result (StepCause C.says (cores_of self.old) (running C.says self.old) rank) }
        ensures tells { IfOk result (StepTells (cores_of self.old) (running C.says self.old) rank) }
        ensures finished { IfOk result (λ answer. (answer ≡ Stepped.Finished) ↔ IsFinished (running C.says self.old) rank) }
        ensures held_off { IfOk result (RestsIfBusy (running C.says self.new) rank) }
        ensures over { IfOk result (λ answer. answer ≡ Stepped.Finished → RestsWith (running C.says self.new) rank answer) }
        ensures busy { IfOk result (OnlyCountsBusy (running C.says self.old) rank (running C.says self.new)) }
        ensures kept { OnErr result (self.new ≡ self.old) }
    {
        let made = step(&mut self.state, rank)?;
        Ok(made.answer)
    }

    /// The same, with what the step's answer tells of the rank in place of the answer.
    #[inline(always)]
    pub fn step_told(&mut self, rank: u32) -> Result<StepEnd, OutOfMemory>
        requires there { rank < length self.old.calls }
        requires few { steps_made self.old.steps < 2 ^ 32 - 1 }
        ensures cores { cores_of self.new ≡ cores_of self.old }
        ensures stepped { IfOk result (λ _. running C.says self.new ≡ stepped (running C.says self.old) rank) }
        ensures answer { IfOk result (λ end. end.told ≡ told_by (answer_of_step (running C.says self.old) rank)) }
        ensures told { IfOk result (λ end. Tells (running C.says self.new) rank end.place end.told) }
        ensures kept { OnErr result (self.new ≡ self.old) }
    {
        let made = step(&mut self.state, rank)?;
        Ok(StepEnd {
            place: made.place,
            told: what_is_told(made.answer),
        })
    }

    /// Counts so many more answers of this kind, and changes nothing else: what so many steps of a rank do that rests with this answer.
    #[inline(always)]
    pub fn count_more(&mut self, answer: Stepped, count: u32)
        requires few { steps_made self.old.steps + count < 2 ^ 32 }
        ensures cores { cores_of self.new ≡ cores_of self.old }
        ensures counted { running C.says self.new ≡ with_steps (running C.says self.old) (counted_more answer count self.old.steps) }
        ensures calls { self.new.calls ≡ self.old.calls }
    {
        count_more(&mut self.state.steps, answer, count);
    }

    /// Whether the rank has an open call: it has until the call's last atom was made, a card's Leave among them.
    pub fn is_open(&self, rank: u32) -> bool
        requires { rank < length self.now.calls }
        ensures { result ≡ has_open_call (running C.says self.now) rank }
    {
        self.state.is_open(rank)
    }

    /// The events of a shard so far, in the order of the steps, each with the number of its step.
    pub fn events(&self, shard: u32) -> &[(u32, Event)]
        requires { shard < length self.now.shards }
        ensures { result.now ≡ trace_of (running C.says self.now) shard }
    {
        self.state.shard(shard).events.as_slice()
    }

    /// How many updates were done on a shard, as the word that counts them says.
    pub fn updates(&self, shard: u32) -> u32
        requires { shard < length self.now.shards }
        ensures { result ≡ length (journal_at (running C.says self.now) shard) }
    {
        records::updates(self.state.shard(shard))
    }

    /// The journal of a shard: its updates in the order in which they were done, as its words say. Refused only for want of
    /// memory.
    pub fn journal(&self, alloc: Global, shard: u32) -> Result<Vec<Entry>, OutOfMemory>
        requires { shard < length self.now.shards }
        ensures { IfOk result (λ entries. entries.items ≡ journal_at (running C.says self.now) shard) }
    {
        records::journal(alloc, self.state.shard(shard))
    }

    /// The rank's entries on a shard, as its own view has them: an entry that is done by the words alone isn't among them yet.
    pub fn kept(&self, shard: u32, rank: u32) -> &[Entry]
        requires shard { shard < length self.now.shards }
        requires rank { rank < length self.now.calls }
        ensures { result.now ≡ owned_by (running C.says self.now) shard rank }
    {
        let kept = self.state.shard(shard);
        kept.core.entries(kept.flat.view(rank))
    }

    /// A copy of every rank's entries on a shard, rank by rank. Refused only for want of memory.
    pub fn transcripts(&self, alloc: Global, shard: u32) -> Result<Vec<Vec<Entry>>, OutOfMemory>
        requires { shard < length self.now.shards }
        ensures { IfOk result (λ copies. map (λ t. t.items) copies.items ≡ transcripts_at (running C.says self.now) shard) }
    {
        let kept = self.state.shard(shard);
        let ranks = self.state.ops.by_rank.as_slice().len() as u32;
        records::transcripts(alloc, kept, ranks)
    }

    /// A copy of the rank's entries on a shard so far, whatever the core, in the order in which they were done: those of its view, and
    /// that of a call that another rank has done and its own hasn't collected yet, which stands in the words alone.
    ///
    /// It is that rank's part of `transcripts`, and over a core whose views hold all entries (`TellsAll`) what `transcript` lends.
    /// `shard` is less than `shards()`, and `rank` less than the number of ranks. Refused only for want of memory.
    pub fn transcript_of(
        &self,
        alloc: Global,
        shard: u32,
        rank: u32,
    ) -> Result<Vec<Entry>, OutOfMemory>
        requires shard { shard < length self.now.shards }
        requires rank { rank < length self.now.calls }
        ensures told { IfOk result (λ told. told.items ≡ get_or (kept_by (running C.says self.now) rank) shard []) }
        ensures among { IfOk result (λ told. slice_get (transcripts_at (running C.says self.now) shard) rank ≡ Some told.items) }
    {
        records::transcript_of(alloc, self.state.shard(shard), rank)
    }

    /// How many of the rank's calls are done on all shards, whatever the core: a call counts as soon as it is done, by whichever rank.
    ///
    /// It is how many entries `transcript_of` has of the rank, shard by shard, and over a core whose views hold all entries
    /// (`TellsAll`) what `done` tells. `rank` is less than the number of ranks. Refused only for want of memory.
    pub fn done_of(&self, alloc: Global, rank: u32) -> Result<u32, OutOfMemory>
        requires { rank < length self.now.calls }
        ensures { IfOk result (λ done. done ≡ done_of (running C.says self.now) rank) }
    {
        self.state.done_of(alloc, rank)
    }

    /// The words and cards of a shard.
    #[inline(always)]
    pub fn words(&self, shard: u32) -> &Words
        requires { shard < length self.now.shards }
        ensures { window_of (running C.says self.now) shard ≡ Some result.now }
    {
        self.state.shard(shard).flat.words()
    }

    /// How many shards there are.
    pub fn shards(&self) -> u32
        ensures { result ≡ length self.now.shards }
    {
        self.state.geom.shards
    }

    /// How often each answer came.
    pub fn steps(&self) -> Steps
        ensures { result ≡ self.now.steps }
    {
        self.state.steps
    }

    /// How many calls the rank was given.
    pub fn given(&self, rank: u32) -> u32
        requires { rank < length self.now.calls }
        ensures { result ≡ length (get_or self.now.calls rank []) }
    {
        self.state.ops.by_rank.as_slice()[rank as usize].len() as u32
    }

    /// How many of its calls the rank has opened.
    pub fn opened(&self, rank: u32) -> u32
        requires { rank < length self.now.calls }
        ensures { result ≡ slice_index self.now.opened rank }
    {
        self.state.opened[rank as usize]
    }

    /// What the ranks ask for.
    pub fn ops(&self) -> &Ops
        ensures calls { result.now.by_rank ≡ self.now.calls }
        ensures sizes { result.now.sizes ≡ self.now.sizes }
    {
        &self.state.ops
    }
}

/// What a machine tells of its ranks, where their views hold all of their entries.
impl<C: TellsAll> Machine<C> {
    /// The rank's entries on a shard so far, in the order in which they were done.
    pub fn transcript(&self, shard: u32, rank: u32) -> &[Entry]
        requires shard { shard < length self.now.shards }
        requires rank { rank < length self.now.calls }
        ensures { result.now ≡ get_or (kept_by (running C.says self.now) rank) shard [] }
    {
        let kept = self.state.shard(shard);
        kept.core.entries(kept.flat.view(rank))
    }

    /// How many of its calls the rank has done: its entries on all shards.
    pub fn done(&self, rank: u32) -> u32
        requires { rank < length self.now.calls }
        ensures { result ≡ done_of (running C.says self.now) rank }
    {
        self.state.done(rank)
    }
}

/// At every moment, whatever the order of the steps: on each shard at most one rank writes, none reads beside it, and only holders come
/// to count, volume and journal, which no step changes but a writer's, whose touch then stands behind the trace; each queue of the lock
/// keeps its promise; a rank's next atom is one of a card, or a local compare-and-swap, only where the lock lets the rank make one;
/// journal and transcripts are legal; and each rank's entries are its first calls, each once, in its order. For every lock. There is
/// nothing to run.
pub fn soundness<C: ShardCore>(machine: &Machine<C>)
    ensures sound { IsSound (running C.says machine.now) }
    ensures stays { StaysSound (running C.says machine.now) }
    ensures changes { OnlyWritersEverChange (running C.says machine.now) }
{
    let _ = &machine.state;
}
