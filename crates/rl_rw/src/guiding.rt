//! RMA-RW says who goes on.

ghost use Rattle.std.specs.Prelude.{ℕ, ◌≡◌, ◌+◌, ◌<◌, ◌^◌, Some, drop, length};
ghost use Rattle.rl_word.specs.declared.acts.Act.{Act as TheAct};
ghost use Rattle.rl_queue.specs.Urgency.{loaded, urgent_at};
ghost use Rattle.rl_rw.specs.Rw.{shared_of};
ghost use Rattle.rl_rw.specs.RwUrgency.{where_some, turn_of as turn_in, rw_urgent};
ghost use Rattle.rl_rw.specs.laws.RwEnding.{guides_of};

use crate::rw::Rw;
use crate::view::RwView;
use rl_counter::Doing;
use rl_ending::Guiding;
use rl_queue::{Phase, queue_urgency};
use rl_step::{Algo, Words};
use rl_word::Act;

/// When a rank goes on in the tree: 0 where it holds the lock, and else 1, as writers do.
fn turn_of(phase: Phase) -> u32
    ensures { result ≡ turn_in phase }
{
    match phase {
        Phase::Granted { .. } => 0,
        _ => 1,
    }
}

/// How urgently a rank goes on at the queue where it is in this phase and plans this act.
#[inline(always)]
fn at_queue(phase: Phase, planned: Option<Act>, words: &Words, base: u32) -> Option<u32>
    requires there { (w : ℕ) → planned ≡ Some (TheAct.Load w) → base + w < length words.now.words }
    requires fits { (w : ℕ) → planned ≡ Some (TheAct.Load w) → base + w < 2 ^ 32 }
    ensures { result ≡ where_some (turn_in phase) (urgent_at phase (loaded (drop base words.now.words) planned)) }
{
    match queue_urgency(phase, planned, words, base) {
        Some(_) => Some(turn_of(phase)),
        None => None,
    }
}

impl Guiding for Rw {
    ghost urgent = { λ s. rw_urgent (shared_of s.tree.rooted s.counters.readers s.group) };

    /// 0 where it holds the lock, or goes out of a counter; 1 for a writer that needn't wait in the tree, or is at the marks; 2 for a reader
    /// that asks. None where it waits in the tree, or is out.
    fn urgency(&self, view: RwView, words: &Words, base: u32) -> Option<u32> {
        match view.counter.doing {
            Doing::Nothing => {
                if view.tree.query {
                    Some(1)
                } else {
                    at_queue(view.tree.phase, self.plan(view), words, base)
                }
            }
            Doing::Inside | Doing::Depart | Doing::Refused { .. } | Doing::Reset { .. } => Some(0),
            Doing::Put { .. }
            | Doing::Count { .. }
            | Doing::Compare { .. }
            | Doing::TakeOut { .. }
            | Doing::TakeOff { .. } => Some(1),
            Doing::Arrive
            | Doing::SeeTail { .. }
            | Doing::Swap
            | Doing::Round
            | Doing::RoundTail { .. } => Some(2),
        }
    }

    ghost guides = { λ s. guides_of s.tree.rooted s.counters.readers s.group s.tree.laid s.limited s.few s.grouped s.served };
}
