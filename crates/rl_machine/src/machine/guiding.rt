//! Who goes next.

ghost use Rattle.std.specs.Prelude.{◌≡◌, ◌↔◌, ◌<◌, None, length, IfSome};
ghost use Rattle.rl_ending.specs.Guiding.{IsChosen, NoneUrgent};
ghost use Rattle.rl_machine.specs.Choosing.{sooner};
ghost use Rattle.rl_machine.specs.GoesNext.{GoesNext, IsFirst, NoneHas};
ghost use Rattle.rl_machine.specs.MachineEnding.{AllDone, LeavesLess};
ghost use Rattle.rl_machine.specs.MachineGood.{IsMachine};
ghost use Rattle.rl_machine.specs.Run.{has_open_call, opens, IsAllClosed};
ghost use Rattle.rl_machine.specs.Running.{running, cores_of};
ghost use Rattle.rl_machine.specs.State.{machine_view, IsGood, running_machine};

use crate::machine::Machine;
use crate::shard::ShardState;
use crate::state::MachineState;
use rl_core::{ShardCore, ShardGuiding};

/// A rank that goes on, and how urgently: the smaller number goes first.
#[derive(Clone, Copy)]
struct Urgent {
    rank: u32,
    urgency: u32,
}

/// Of the rank that is chosen so far, if one is, and a later one the more urgent, and the first where both are as urgent.
fn sooner(chosen: Option<Urgent>, rank: u32, urgency: Option<u32>) -> Option<Urgent>
    ensures { result ≡ sooner chosen rank urgency }
{
    match urgency {
        None => chosen,
        Some(urgency) => match chosen {
            Some(other) if other.urgency <= urgency => Some(other),
            _ => Some(Urgent { rank, urgency }),
        },
    }
}

/// The chosen one of the ranks of a shard, so many, if one of them is urgent.
fn chosen_on<C: ShardGuiding>(shard: &ShardState<C>, ranks: u32) -> Option<u32>
    requires good { IsGood C.says shard.now }
    requires ranks { length shard.now.flat.views.items ≡ ranks }
    ensures chosen { IfSome result (IsChosen (C.urgent shard.now.core shard.now.flat.words.words) shard.now.flat.views.items) }
    ensures none { result ≡ None → NoneUrgent (C.urgent shard.now.core shard.now.flat.words.words) shard.now.flat.views.items }
{
    let mut chosen = None;
    for rank in 0..ranks {
        let urgency = shard
            .core
            .urgency(shard.flat.view(rank), shard.flat.words());
        chosen = sooner(chosen, rank, urgency);
    }
    match chosen {
        None => None,
        Some(best) => Some(best.rank),
    }
}

impl<C: ShardCore> MachineState<C> {
    /// How many ranks there are.
    fn ranks(&self) -> u32
        requires good { IsMachine C.says (machine_view self.now) }
        ensures { result ≡ length self.now.ops.by_rank }
    {
        self.ops.by_rank.as_slice().len() as u32
    }

    /// The first rank that has a call open.
    fn first_open(&self) -> Option<u32>
        requires good { IsMachine C.says (machine_view self.now) }
        ensures first { IfSome result (IsFirst (has_open_call (running_machine C.says self.now)) (length self.now.ops.by_rank)) }
        ensures none { result ≡ None → IsAllClosed (running_machine C.says self.now) }
    {
        for rank in 0..self.ranks() {
            if self.is_open(rank) {
                return Some(rank);
            }
        }
        None
    }

    /// The first rank whose next step opens a block.
    fn first_to_open(&self) -> Option<u32>
        requires good { IsMachine C.says (machine_view self.now) }
        ensures first { IfSome result (IsFirst (opens (running_machine C.says self.now)) (length self.now.ops.by_rank)) }
        ensures none { result ≡ None → NoneHas (opens (running_machine C.says self.now)) (length self.now.ops.by_rank) }
    {
        for rank in 0..self.ranks() {
            if self.opens(rank) {
                return Some(rank);
            }
        }
        None
    }
}

/// The rank that goes next.
fn who<C: ShardGuiding>(state: &MachineState<C>) -> Option<u32>
    requires good { IsMachine C.says (machine_view state.now) }
    ensures next { IfSome result (GoesNext C.urgent (cores_of (machine_view state.now)) (running_machine C.says state.now)) }
    ensures over { result ≡ None → AllDone (running_machine C.says state.now) }
{
    match state.first_open() {
        Some(rank) => chosen_on(state.shard_of_rank(rank), state.ranks()),
        None => state.first_to_open(),
    }
}

impl<C: ShardGuiding> Machine<C> {
    /// The rank that goes next on the way to the end of all calls, as the cores say. Where a call is open it is the one whose atom leaves less
    /// to do, on the shard where the first rank with an open call stands; else the first rank that has a call left. None where all calls of all
    /// ranks are done.
    ///
    /// Who steps whom this names, again and again, comes to that end: each such step leaves less to do.
    pub fn who(&self) -> Option<u32>
        ensures next { IfSome result (GoesNext C.urgent (cores_of self.now) (running C.says self.now)) }
        ensures there { IfSome result (λ rank. rank < length self.now.calls) }
        ensures less { IfSome result (LeavesLess C.left C.most (cores_of self.now) (running C.says self.now)) }
        ensures over { (result ≡ None) ↔ AllDone (running C.says self.now) }
    {
        who(&self.state)
    }
}
