//! Where ranks were seen to rest last, or to go in a round.

ghost use Rattle.std.specs.Prelude.{◌≡◌, length, IfOk};
ghost use Rattle.rl_machine.specs.Running.{running};
ghost use Rattle.rl_replay.specs.Rested.{AllRested};

use rl_core::{Resting, Round};
use rl_machine::Machine;
use std::alloc::{AllocError as OutOfMemory, Global};

/// What is known of a rank since it was seen to rest last, or to go in a round.
#[derive(Clone, Copy)]
pub enum LastRest<S: Copy> {
    /// Nothing.
    Unknown,
    /// It is about to take the card of a node, on a shard: it rests while another rank is in it.
    HeldOff { shard: u32, node: u32 },
    /// It waits for a word, on a shard: it rests while the word has this value.
    Waits { shard: u32, word: u32, value: u64 },
    /// It goes in this round of two loads on a shard, while the shard shows it.
    Round { shard: u32, round: Round<S> },
    /// All its calls are done, so each further step is answered Finished.
    Finished,
}

/// A list of where the machine's ranks were seen to rest, of none of which anything is known. Refused only for want of memory.
pub fn no_rests<C: Resting>(
    alloc: Global,
    machine: &Machine<C>,
) -> Result<Vec<LastRest<C::Sight>>, OutOfMemory>
    ensures many { IfOk result (λ rests. length rests.items ≡ length machine.now.calls) }
    ensures rested { IfOk result (λ rests. AllRested C.with_sight (running C.says machine.now) rests.items) }
{
    let ranks = machine.ops().by_rank.as_slice().len();
    Ok(vec![in alloc; LastRest::Unknown; ranks]?)
}
