//! The ticket lock's acts, and what a rank learns from them.

ghost use Rattle.std.proofs.Common.{rules};
ghost use Rattle.std.specs.Prelude.{◌≡◌, ◌<◌, ◌^◌, length, refl};
ghost use Rattle.rl_word.specs.declared.locks.LockName.TheVariants as TheName;
ghost use Rattle.rl_step.specs.Lock.{no_more};
ghost use Rattle.ticket_lock.specs.Ticket.{ticket_table, TicketGood};
ghost use Rattle.ticket_lock.specs.laws.TicketLaws.{ticket_laws};

use crate::view::{Phase, TicketView};
use rl_step::{Algo, Event, Events, Standing};
use rl_word::{Act, Class, Knobs, LockName, Mode, Shape, Spot};
use std::alloc::{AllocError as OutOfMemory, Global};

/// A ticket lock: two words on the shard's home. Word 0 is the next ticket, and word 1 the ticket that is served.
#[derive(Drop)]
pub struct Ticket {
    home: u32,
    node_of: Vec<u32>,
    nodes: u32,
    ghost homed: { home < nodes },
    ghost few: { length node_of.items < 2 ^ 64 },
}

/// The view of a rank in a phase.
fn at(rank: u32, phase: Phase) -> TicketView
    ensures { result ≡ record { rank = rank; phase = phase } }
{
    TicketView { rank, phase }
}

impl Algo for Ticket {
    type View = TicketView;

    ghost table = { λ s. ticket_table s.home };

    ghost good = { λ s t. TicketGood (length s.node_of.items) t.words t.views t.modes };

    ghost further = { λ s. no_more };

    ghost layout = { λ s. record { node_of = s.node_of.items; nodes = s.nodes } };

    ghost defined = { λ shape home knobs. ticket_table home };

    ghost promised = { λ shape home knobs. no_more };

    ghost name = { TheName.Spin };

    ghost has_queues = { λ shape home knobs. refl };

    ghost has_shares = { λ shape home knobs. refl };

    ghost has_cohorts = { λ shape home knobs. refl };

    ghost suits_knobs = { λ shape knobs. Unit {0} };

    fn lock_name() -> LockName {
        LockName::Spin
    }

    /// Makes the lock. It reads no setting.
    fn make(alloc: Global, shape: &Shape, home: u32, _knobs: Knobs) -> Result<Self, OutOfMemory> {
        Ok(Ticket {
            home,
            node_of: shape.node_of.clone()?,
            nodes: shape.nodes,
        })
    }

    fn words(&self) -> u32 {
        2
    }

    fn spot(&self, word: u32) -> Spot {
        let class = if word == 0 { Class::Card } else { Class::Plain };
        Spot {
            class,
            home: self.home,
        }
    }

    fn first(&self, rank: u32) -> TicketView {
        at(rank, Phase::Out)
    }

    fn ask(&self, view: TicketView, _mode: Mode) -> TicketView {
        at(view.rank, Phase::Drawing)
    }

    fn plan(&self, view: TicketView) -> Option<Act> {
        match view.phase {
            Phase::Drawing => Some(Act::CardAdd { word: 0, by: 1 }),
            Phase::Waiting { .. } => Some(Act::Load { word: 1 }),
            Phase::Releasing { ticket } => Some(Act::Store {
                word: 1,
                value: ticket.wrapping_add(1),
            }),
            Phase::Out | Phase::Inside { .. } => None,
        }
    }

    fn learn(&self, view: &mut TicketView, got: u64, events: &mut Events) -> bool {
        match view.phase {
            Phase::Drawing => view.phase = Phase::Waiting { ticket: got },
            Phase::Waiting { ticket } => {
                if got != ticket {
                    return true;
                }
                events.push(Event::EnterW { rank: view.rank });
                view.phase = Phase::Inside { ticket };
            }
            Phase::Releasing { .. } => view.phase = Phase::Out,
            Phase::Out | Phase::Inside { .. } => {}
        }
        false
    }

    fn leave(&self, view: TicketView) -> TicketView {
        match view.phase {
            Phase::Inside { ticket } => at(view.rank, Phase::Releasing { ticket }),
            _ => view,
        }
    }

    fn standing(&self, view: TicketView) -> Standing {
        match view.phase {
            Phase::Out => Standing::Out,
            Phase::Drawing | Phase::Waiting { .. } => Standing::Asking,
            Phase::Inside { .. } => Standing::Writer,
            Phase::Releasing { .. } => Standing::Leaving,
        }
    }

    ghost same_views = { λ x y e. Prim.search rules };

    ghost laws = { λ s. ticket_laws s.home (record { node_of = s.node_of.items; nodes = s.nodes }) s.homed s.few };
}
