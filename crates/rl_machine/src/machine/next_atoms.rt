//! What a rank's next step is about to do: the block that it opens, the atom that it makes, and what that will find.

ghost use Rattle.std.specs.Prelude.{ℕ, ◌≡◌, ◌<◌, ◌≤◌, true, false, length, sum};
ghost use Rattle.rl_step.specs.Do.{do_got, CanDo};
ghost use Rattle.rl_site.specs.Site.{lock_base};
ghost use Rattle.rl_machine.specs.Running.{running, cores_of};
ghost use Rattle.rl_machine.specs.Run.{opens, opened_if, block_opened, stepped, answer_of_step};
ghost use Rattle.rl_machine.specs.State.{running_shard, machine_view, IsGood, running_machine};
ghost use Rattle.rl_machine.specs.MachineGood.{IsMachine};
ghost use Rattle.rl_machine.specs.NextAtoms.{next_on, next_by, behind_journal};

use crate::machine::Machine;
use crate::shard::{ShardState, open_on};
use crate::state::{MachineState, next_block, note_place};
use rl_core::{ShardCore, block_shard, lock_base};
use rl_step::Words;
use rl_word::Atom;

/// The atom that a rank makes next, and what it will find.
#[derive(Clone, Copy, PartialEq, Eq, Debug)]
pub struct NextAtom {
    /// The atom.
    pub atom: Atom,
    /// The value of its word, or what stands in the card that it takes: 0 where no rank is in it, and else the rank's number and one. It is 0
    /// for an atom that only writes.
    pub found: u64,
}

/// What an atom finds on these words and cards, and 0 where it only writes.
fn found(words: &Words, rank: u32, atom: Atom) -> u64
    requires can { (home : ℕ) × CanDo home rank atom words.now.words words.now.cards }
    ensures { result ≡ do_got atom words.now.words words.now.cards }
{
    match atom {
        Atom::Load { word } | Atom::CardLoad { word } | Atom::LocalCas { word, .. } => {
            words.value(word)
        }
        Atom::Take { node } => words.card(node),
        Atom::Store { .. } | Atom::CardStore { .. } | Atom::Leave { .. } => 0,
    }
}

/// The rank's next atom on a shard.
fn next_on<C: ShardCore>(shard: &ShardState<C>, rank: u32) -> Option<NextAtom>
    requires there { rank < length shard.now.flat.views.items }
    requires good { IsGood C.says shard.now }
    ensures { result ≡ next_on rank (running_shard C.says shard.now) }
{
    match shard.core.next(shard.flat.view(rank)) {
        None => None,
        Some((atom, _)) => Some(NextAtom {
            atom,
            found: found(shard.flat.words(), rank, atom),
        }),
    }
}

/// The number of the first word behind a shard's journal.
fn behind_on<C: ShardCore>(shard: &ShardState<C>) -> u32
    requires good { IsGood C.says shard.now }
    requires few { sum (C.says shard.now.core).table.site.rooms ≤ 20000 }
    ensures { result ≡ lock_base (C.says shard.now.core).table.site }
{
    lock_base(&shard.core)
}

/// Opens the rank's next block, on the shard of its calls.
fn open_there<C: ShardCore>(state: &mut MachineState<C>, rank: u32)
    requires there { rank < length state.old.ops.by_rank }
    requires good { IsMachine C.says (machine_view state.old) }
    requires opens { opens (running_machine C.says state.old) rank ≡ true }
    ensures made { running_machine C.says state.new ≡ opened_if (running_machine C.says state.old) rank true }
    ensures cores { cores_of (machine_view state.new) ≡ cores_of (machine_view state.old) }
{
    let at = rank as usize;
    let first = state.opened[at];
    let block = next_block(&state.ops, rank, first);
    let place = block_shard(state.geom, block);
    let shard = &mut state.shards[place as usize];
    open_on(shard, rank, block, first);
    state.opened[at] = first + block.len() as u32;
    note_place(&mut state.seen, at, place);
}

impl<C: ShardCore> MachineState<C> {
    /// The rank's next atom, where it stands.
    fn next_atom(&self, rank: u32) -> Option<NextAtom>
        requires there { rank < length self.now.ops.by_rank }
        requires good { IsMachine C.says (machine_view self.now) }
        ensures { result ≡ next_by (running_machine C.says self.now) rank }
    {
        next_on(self.shard_of_rank(rank), rank)
    }

    /// The number of the first word behind a shard's journal.
    fn behind_journal(&self, shard: u32) -> u32
        requires there { shard < length self.now.shards.items }
        requires good { IsMachine C.says (machine_view self.now) }
        ensures { result ≡ behind_journal (running_machine C.says self.now) shard }
    {
        behind_on(&self.shards[shard as usize])
    }
}

/// Opens the rank's next block, where no call of it is open and one is left.
fn open_next<C: ShardCore>(state: &mut MachineState<C>, rank: u32)
    requires there { rank < length state.old.ops.by_rank }
    requires good { IsMachine C.says (machine_view state.old) }
    ensures made { running_machine C.says state.new ≡ block_opened (running_machine C.says state.old) rank }
    ensures cores { cores_of (machine_view state.new) ≡ cores_of (machine_view state.old) }
{
    if state.opens(rank) {
        open_there(state, rank);
    }
}

impl<C: ShardCore> Machine<C> {
    /// Opens the rank's next block, as its next step would: where no call of it is open and one is left. That is no step, and the rank's next
    /// step is the one that it was. So its atom can be looked at before it is made.
    pub fn open_next(&mut self, rank: u32)
        requires there { rank < length self.old.calls }
        ensures opened { running C.says self.new ≡ block_opened (running C.says self.old) rank }
        ensures cores { cores_of self.new ≡ cores_of self.old }
        ensures calls { self.new.calls ≡ self.old.calls }
        ensures no_step { self.new.steps ≡ self.old.steps }
        ensures same_step { stepped (running C.says self.new) rank ≡ stepped (running C.says self.old) rank }
        ensures same_answer { answer_of_step (running C.says self.new) rank ≡ answer_of_step (running C.says self.old) rank }
    {
        open_next(&mut self.state, rank);
    }

    /// The atom that the rank's next step makes, with what it will find; none where no call of the rank is open. A block that the step opens
    /// has to be opened before ([`Machine::open_next`]).
    pub fn next_atom(&self, rank: u32) -> Option<NextAtom>
        requires { rank < length self.now.calls }
        ensures { result ≡ next_by (running C.says self.now) rank }
    {
        self.state.next_atom(rank)
    }

    /// The number of the first word behind a shard's journal: the lock's words begin there.
    pub fn behind_journal(&self, shard: u32) -> u32
        requires { shard < length self.now.shards }
        ensures { result ≡ behind_journal (running C.says self.now) shard }
    {
        self.state.behind_journal(shard)
    }
}
