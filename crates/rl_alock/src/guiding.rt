//! ALock says who goes on.

ghost use Rattle.std.specs.Prelude.{◌≡◌, ◌+◌, ◌^◌, ◌≤◌, length};
ghost use Rattle.rl_alock.specs.Alock.{cohorts_of};
ghost use Rattle.rl_alock.specs.AlockUrgency.{head_urgent_in, alock_urgent};
ghost use Rattle.rl_alock.specs.laws.AlockGuiding.{alock_guides};

use crate::alock::{Alock, VICTIM};
use crate::cohort::Cohort;
use crate::view::{AlockView, SettleStage};
use rl_ending::Guiding;
use rl_queue::{Phase, queue_plan, queue_urgency};
use rl_step::Words;

/// How urgently a head of a cohort goes on at the entry; the lock's words are those of `words` from number `base` on.
fn head_urgency(cohort: Cohort, entry: SettleStage, words: &Words, base: u32) -> Option<u32>
    requires there { base + 3 ≤ length words.now.words }
    requires fits { base + 3 ≤ 2 ^ 32 }
    ensures { result ≡ head_urgent_in words.now.words base cohort entry }
{
    match entry {
        SettleStage::Announce | SettleStage::Victim => Some(0),
        SettleStage::Tail => {
            if words.value(base + cohort.other().queue()) == 0 {
                Some(0)
            } else if words.value(base + VICTIM) == cohort.number() as u64 {
                None
            } else {
                Some(0)
            }
        }
    }
}

impl Guiding for Alock {
    ghost urgent = { λ s. alock_urgent (cohorts_of s.home s.node_of.items s.local s.remote) };

    fn urgency(&self, view: AlockView, words: &Words, base: u32) -> Option<u32> {
        let cohort = self.cohort_of(view.queue.member);
        match view.queue.phase {
            Phase::Settle => head_urgency(cohort, view.entry, words, base),
            _ => {
                let planned = queue_plan(view.queue, self.names_of(cohort));
                queue_urgency(view.queue.phase, planned, words, base)
            }
        }
    }

    ghost guides = { λ s. alock_guides (cohorts_of s.home s.node_of.items s.local s.remote) };
}
