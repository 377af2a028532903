//! The spin lock's acts, and what a rank learns from them.

ghost use Rattle.std.proofs.Common.{rules};
ghost use Rattle.std.specs.Prelude.{◌≡◌, ◌<◌, length, refl};
ghost use Rattle.rl_word.specs.declared.locks.LockName.TheVariants as TheName;
ghost use Rattle.rl_step.specs.Lock.{no_more};
ghost use Rattle.rl_spin.specs.Spin.{spin_table, SpinGood};
ghost use Rattle.rl_spin.specs.laws.SpinLaws.{spin_laws};

use crate::view::{SpinPhase, SpinView};
use rl_step::{Algo, Event, Events, Standing};
use rl_word::{Act, Class, Knobs, LockName, Mode, Shape, Spot};
use std::alloc::{AllocError as OutOfMemory, Global};

/// A spin lock: one card word on the shard's home.
#[derive(Drop)]
pub struct Spin {
    home: u32,
    node_of: Vec<u32>,
    nodes: u32,
    ghost homed: { home < nodes },
}

/// The view of a rank in a phase.
fn at(rank: u32, phase: SpinPhase) -> SpinView
    ensures { result ≡ record { rank = rank; phase = phase } }
{
    SpinView { rank, phase }
}

impl Algo for Spin {
    type View = SpinView;

    ghost table = { λ s. spin_table s.home };

    ghost good = { λ s. SpinGood (length s.node_of.items) };

    ghost further = { λ s. no_more };

    ghost layout = { λ s. record { node_of = s.node_of.items; nodes = s.nodes } };

    ghost defined = { λ shape home knobs. spin_table home };

    ghost promised = { λ shape home knobs. no_more };

    ghost name = { TheName.Spin };

    ghost has_queues = { λ shape home knobs. refl };

    ghost has_shares = { λ shape home knobs. refl };

    ghost has_cohorts = { λ shape home knobs. refl };

    ghost suits_knobs = { λ shape knobs. Unit {0} };

    fn lock_name() -> LockName {
        LockName::Spin
    }

    /// Makes the lock. It reads no setting.
    fn make(alloc: Global, shape: &Shape, home: u32, _knobs: Knobs) -> Result<Self, OutOfMemory> {
        Ok(Spin {
            home,
            node_of: shape.node_of.clone()?,
            nodes: shape.nodes,
        })
    }

    fn words(&self) -> u32 {
        1
    }

    fn spot(&self, _word: u32) -> Spot {
        Spot {
            class: Class::Card,
            home: self.home,
        }
    }

    fn first(&self, rank: u32) -> SpinView {
        at(rank, SpinPhase::Out)
    }

    fn ask(&self, view: SpinView, _mode: Mode) -> SpinView {
        at(view.rank, SpinPhase::Trying)
    }

    fn plan(&self, view: SpinView) -> Option<Act> {
        match view.phase {
            SpinPhase::Trying => Some(Act::CardCas {
                word: 0,
                old: 0,
                new: view.rank as u64 + 1,
            }),
            SpinPhase::Releasing => Some(Act::CardSwap { word: 0, value: 0 }),
            SpinPhase::Out | SpinPhase::Inside => None,
        }
    }

    fn learn(&self, view: &mut SpinView, got: u64, events: &mut Events) -> bool {
        match view.phase {
            SpinPhase::Trying => {
                if got == 0 {
                    events.push(Event::EnterW { rank: view.rank });
                    view.phase = SpinPhase::Inside;
                }
            }
            SpinPhase::Releasing => view.phase = SpinPhase::Out,
            SpinPhase::Out | SpinPhase::Inside => {}
        }
        false
    }

    fn leave(&self, view: SpinView) -> SpinView {
        at(view.rank, SpinPhase::Releasing)
    }

    fn standing(&self, view: SpinView) -> Standing {
        match view.phase {
            SpinPhase::Out => Standing::Out,
            SpinPhase::Trying => Standing::Asking,
            SpinPhase::Inside => Standing::Writer,
            SpinPhase::Releasing => Standing::Leaving,
        }
    }

    ghost same_views = { λ x y e. Prim.search rules };

    ghost laws = { λ s. spin_laws s.home (record { node_of = s.node_of.items; nodes = s.nodes }) s.homed };
}
