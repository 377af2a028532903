//! Where a rank is: on which shard, how it stands to that shard's lock, and in which card.

ghost use Rattle.std.specs.Prelude.{◌≡◌, ◌<◌, length};
ghost use Rattle.rl_machine.specs.Run.{place_of};
ghost use Rattle.rl_machine.specs.Running.{running};
ghost use Rattle.rl_machine.specs.State.{machine_view, running_machine};
ghost use Rattle.rl_machine.specs.MachineGood.{IsMachine};
ghost use Rattle.rl_machine.specs.Whereabouts.{standing_by, card_by};

use crate::machine::Machine;
use crate::state::MachineState;
use rl_core::ShardCore;
use rl_step::Standing;

impl<C: ShardCore> MachineState<C> {
    /// How the rank stands to the lock of its shard.
    fn standing(&self, rank: u32) -> Standing
        requires there { rank < length self.now.ops.by_rank }
        requires good { IsMachine C.says (machine_view self.now) }
        ensures { result ≡ standing_by (running_machine C.says self.now) rank }
    {
        let shard = self.shard_of_rank(rank);
        shard.core.standing(shard.flat.view(rank))
    }

    /// The node of the card that the rank is in.
    fn card(&self, rank: u32) -> Option<u32>
        requires there { rank < length self.now.ops.by_rank }
        requires good { IsMachine C.says (machine_view self.now) }
        ensures { result ≡ card_by (running_machine C.says self.now) rank }
    {
        let shard = self.shard_of_rank(rank);
        shard.core.card(shard.flat.view(rank))
    }
}

impl<C: ShardCore> Machine<C> {
    /// The shard where the rank stands: that of the last of its calls that were opened, and shard 0 before the first.
    pub fn place(&self, rank: u32) -> u32
        requires { rank < length self.now.calls }
        ensures place { result ≡ place_of (running C.says self.now) rank }
        ensures there { result < length self.now.shards }
    {
        self.state.place(rank)
    }

    /// How the rank stands to the lock of the shard where it stands: Out where it has no call open, and also where only the
    /// Leave of a card is left of its last act. A call that is open but isn't at the lock stands as Asking.
    pub fn standing(&self, rank: u32) -> Standing
        requires { rank < length self.now.calls }
        ensures { result ≡ standing_by (running C.says self.now) rank }
    {
        self.state.standing(rank)
    }

    /// The node of the card that the rank is in, from its Take until its Leave.
    pub fn card(&self, rank: u32) -> Option<u32>
        requires { rank < length self.now.calls }
        ensures { result ≡ card_by (running C.says self.now) rank }
    {
        self.state.card(rank)
    }
}
