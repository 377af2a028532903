//! Whether a rank is seen to wait: at a load that leaves it where it is, or in a round of two loads; and the steps of such a round.

ghost use Rattle.std.specs.Prelude.{◌≡◌, ◌-◌, ◌<◌, ◌^◌, length, IfSome};
ghost use Rattle.rl_step.specs.Answers.{steps_made};
ghost use Rattle.rl_core.specs.Rounds.{turned_round};
ghost use Rattle.rl_machine.specs.Running.{running, cores_of};
ghost use Rattle.rl_machine.specs.Run.{stepped};
ghost use Rattle.rl_machine.specs.State.{running_shard, machine_view, running_machine, ViewBecomes, OnlyViewBecomes};
ghost use Rattle.rl_machine.specs.MachineGood.{IsMachine};
ghost use Rattle.rl_machine.specs.Rested.{RestsAt, IsInRound, GoesRound};

use crate::machine::Machine;
use crate::shard::ShardState;
use crate::state::MachineState;
use rl_core::{Resting, Round};
use rl_step::{Flat, Stepped};

/// A shard on which a rank is in a call, and how its next steps there are answered.
#[derive(Clone, Copy, PartialEq, Eq, Debug)]
pub struct RestAt {
    /// The shard on which it stands.
    pub shard: u32,
    /// It is answered so while the word has the value, or the card is held, that this names.
    pub answer: Stepped,
}

/// A shard on which a rank goes in a round of two loads.
#[derive(Clone, Copy)]
pub struct RoundAt<S: Copy> {
    /// The shard on which it stands.
    pub shard: u32,
    /// It goes in it while both words have the values that are named.
    pub round: Round<S>,
}

impl<C: Resting> MachineState<C> {
    /// Where the rank is seen to rest. `None` says nothing of it.
    #[inline(always)]
    fn waits(&self, rank: u32) -> Option<RestAt>
        requires there { rank < length self.now.ops.by_rank }
        requires good { IsMachine C.says (machine_view self.now) }
        ensures { IfSome result (λ at. RestsAt (running_machine C.says self.now) rank at.shard at.answer) }
    {
        let place = self.seen_place(rank)?;
        let shard = self.shard(place);
        let answer = shard.core.waits(shard.flat.view(rank), shard.flat.words())?;
        Some(RestAt {
            shard: place,
            answer,
        })
    }

    /// Where the rank is seen to go in a round. `None` says nothing of it.
    #[inline(always)]
    fn round(&self, rank: u32) -> Option<RoundAt<C::Sight>>
        requires there { rank < length self.now.ops.by_rank }
        requires good { IsMachine C.says (machine_view self.now) }
        ensures { IfSome result (λ at. IsInRound C.with_sight (running_machine C.says self.now) rank at.shard at.round) }
    {
        let place = self.seen_place(rank)?;
        let shard = self.shard(place);
        let round = shard.core.round(shard.flat.view(rank), shard.flat.words())?;
        Some(RoundAt {
            shard: place,
            round,
        })
    }
}

/// Exchanges what a rank sees, where the views of all ranks stand.
#[inline(always)]
fn set_view<C: Resting>(flat: &mut Flat<C>, rank: u32, sight: C::Sight)
    requires there { rank < length flat.old.views.items }
    ensures words { flat.new.words ≡ flat.old.words }
    ensures views { ViewBecomes flat.old flat.new rank (λ x. C.with_sight x sight) }
{
    C::set_sight(flat.view_mut(rank), sight);
}

/// The same, on a shard.
#[inline(always)]
fn set_on<C: Resting>(shard: &mut ShardState<C>, rank: u32, sight: C::Sight)
    requires there { rank < length shard.old.flat.views.items }
    ensures made { OnlyViewBecomes (running_shard C.says shard.old) (running_shard C.says shard.new) rank (λ x. C.with_sight x sight) }
    ensures core { shard.new.core ≡ shard.old.core }
{
    set_view(&mut shard.flat, rank, sight);
}

/// A step of a rank in a round, whose next word has the value that it had: the round goes on with its other load.
#[inline(always)]
fn make_leg<C: Resting>(state: &mut MachineState<C>, rank: u32, shard: u32, round: Round<C::Sight>)
    requires good { IsMachine C.says (machine_view state.old) }
    requires few { steps_made state.old.steps < 2 ^ 32 - 1 }
    requires shows { GoesRound C.with_sight (running_machine C.says state.old) rank shard round 1 }
    ensures made { running_machine C.says state.new ≡ stepped (running_machine C.says state.old) rank }
    ensures in_round { IsInRound C.with_sight (running_machine C.says state.new) rank shard (turned_round round) }
    ensures cores { cores_of (machine_view state.new) ≡ cores_of (machine_view state.old) }
{
    state.steps.count(round.here.answer());
    set_on(&mut state.shards[shard as usize], rank, round.here.sight);
}

impl<C: Resting> Machine<C> {
    /// Where the rank is seen to rest, by its core: its steps are answered so and change nothing while its shard shows it, whatever other
    /// ranks do. `None` says nothing of it.
    #[inline(always)]
    pub fn waits(&self, rank: u32) -> Option<RestAt>
        requires { rank < length self.now.calls }
        ensures { IfSome result (λ at. RestsAt (running C.says self.now) rank at.shard at.answer) }
    {
        self.state.waits(rank)
    }

    /// Where the rank is seen to go in a round of two loads, by its core: its steps are these loads, in turn, while its shard shows it.
    /// `None` says nothing of it.
    #[inline(always)]
    pub fn round(&self, rank: u32) -> Option<RoundAt<C::Sight>>
        requires { rank < length self.now.calls }
        ensures { IfSome result (λ at. IsInRound C.with_sight (running C.says self.now) rank at.shard at.round) }
    {
        self.state.round(rank)
    }

    /// One step of a rank in a round on a shard, whose next word has the value that it had there.
    #[inline(always)]
    pub fn make_leg(&mut self, rank: u32, shard: u32, round: Round<C::Sight>)
        requires there { rank < length self.old.calls }
        requires few { steps_made self.old.steps < 2 ^ 32 - 1 }
        requires shows { GoesRound C.with_sight (running C.says self.old) rank shard round 1 }
        ensures cores { cores_of self.new ≡ cores_of self.old }
        ensures made { running C.says self.new ≡ stepped (running C.says self.old) rank }
        ensures in_round { IsInRound C.with_sight (running C.says self.new) rank shard (turned_round round) }
    {
        make_leg(&mut self.state, rank, shard, round);
    }
}
