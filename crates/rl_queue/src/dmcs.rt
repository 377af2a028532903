//! D-MCS: the lock that is one queue of all ranks, without limit.

ghost use Rattle.std.proofs.Common.{rules};
ghost use Rattle.std.specs.Prelude.{◌≡◌, ◌<◌, ◌≤◌, length, refl, IfOk};
ghost use Rattle.rl_word.specs.declared.locks.LockName.TheVariants as TheName;
ghost use Rattle.rl_step.specs.Lock.{no_more};
ghost use Rattle.rl_queue.specs.Dmcs.{dmcs_table, dmcs_names, DmcsGood};
ghost use Rattle.rl_queue.specs.RankWords.{Seated};
ghost use Rattle.rl_queue.specs.laws.DmcsLaws.{dmcs_laws};

use crate::queue::{
    QueueNames, queue_idle, queue_join, queue_learn, queue_leave, queue_plan, queue_settled,
    queue_stage, queue_standing,
};
use crate::ranks::rank_words;
use crate::view::{QueueView, Stage};
use rl_step::{Algo, Event, Events, Standing};
use rl_word::{Act, Class, Knobs, LockName, Mode, Shape, Spot};
use std::alloc::{AllocError as OutOfMemory, Global};

/// D-MCS, the queue lock of Mellor-Crummey and Scott over remote memory, as Schmid, Besta and Hoefler use it: one queue of all
/// ranks, whose number is the member's.
///
/// Word 0 is the tail, a card word on the shard's home. Words 1 + 2r and 2 + 2r are the next word and the status word of rank r,
/// plain words on its node, so that a rank waits on its own node. A head settles at once. Readers are writers to it.
#[derive(Drop)]
pub struct Dmcs {
    home: u32,
    node_of: Vec<u32>,
    nodes: u32,
    names: QueueNames,
    ghost seated: { Seated (record { node_of = node_of.items; nodes = nodes }) },
    ghost homed: { home < nodes },
    ghost named: { names ≡ dmcs_names (length node_of.items) },
}

/// The words of the queue of so many ranks.
fn names_for(alloc: Global, ranks: u32) -> Result<QueueNames, OutOfMemory>
    requires { ranks ≤ 32 }
    ensures { IfOk result (λ q. q ≡ dmcs_names ranks) }
{
    let next = rank_words(alloc, 1, ranks)?;
    let status = rank_words(alloc, 2, ranks)?;
    Ok(QueueNames {
        queue: 0,
        tail: 0,
        tail_class: Class::Card,
        next,
        status,
        budget: None,
    })
}

impl Algo for Dmcs {
    type View = QueueView;

    ghost table = { λ s. dmcs_table s.home s.node_of.items };

    ghost good = { λ s. DmcsGood (length s.node_of.items) };

    ghost further = { λ s. no_more };

    ghost layout = { λ s. record { node_of = s.node_of.items; nodes = s.nodes } };

    ghost defined = { λ shape home knobs. dmcs_table home shape.node_of };

    ghost promised = { λ shape home knobs. no_more };

    ghost name = { TheName.Dmcs };

    ghost has_queues = { λ shape home knobs. refl };

    ghost has_shares = { λ shape home knobs. refl };

    ghost has_cohorts = { λ shape home knobs. refl };

    ghost suits_knobs = { λ shape knobs. Unit {0} };

    fn lock_name() -> LockName {
        LockName::Dmcs
    }

    /// Makes the lock. It reads no setting.
    fn make(alloc: Global, shape: &Shape, home: u32, _knobs: Knobs) -> Result<Self, OutOfMemory> {
        let names = names_for(alloc, shape.node_of.len() as u32)?;
        let node_of = shape.node_of.clone()?;
        Ok(Dmcs {
            home,
            node_of,
            nodes: shape.nodes,
            names,
        })
    }

    fn words(&self) -> u32 {
        1 + 2 * self.node_of.len() as u32
    }

    fn spot(&self, word: u32) -> Spot {
        if word == 0 {
            Spot {
                class: Class::Card,
                home: self.home,
            }
        } else {
            Spot {
                class: Class::Plain,
                home: self.node_of[((word - 1) / 2) as usize],
            }
        }
    }

    fn first(&self, rank: u32) -> QueueView {
        queue_idle(rank)
    }

    fn ask(&self, view: QueueView, _mode: Mode) -> QueueView {
        queue_join(view)
    }

    #[inline(always)]
    fn plan(&self, view: QueueView) -> Option<Act> {
        queue_plan(view, &self.names)
    }

    #[inline(always)]
    fn learn(&self, view: &mut QueueView, got: u64, events: &mut Events) -> bool {
        let turn = queue_learn(*view, &self.names, got, events);
        *view = turn.view;
        match queue_stage(turn.view) {
            Stage::Settle => {
                events.push(Event::Settle {
                    queue: 0,
                    member: view.member,
                });
                events.push(Event::EnterW { rank: view.member });
                *view = queue_settled(turn.view, &self.names);
            }
            Stage::Granted { .. } => events.push(Event::EnterW { rank: view.member }),
            Stage::Idle | Stage::Joining | Stage::Leaving | Stage::Above => {}
        }
        turn.waits
    }

    fn leave(&self, view: QueueView) -> QueueView {
        queue_leave(view, false)
    }

    fn standing(&self, view: QueueView) -> Standing {
        queue_standing(view)
    }

    ghost same_views = { λ x y e. Prim.search rules };

    ghost laws = { λ s. dmcs_laws s.home (record { node_of = s.node_of.items; nodes = s.nodes }) s.seated s.homed };
}
