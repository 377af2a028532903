//! ALock's acts, and what a rank learns from them.

ghost use Rattle.std.specs.Prelude.{◌≡◌, ◌<◌, ◌≤◌, [], ◌∷◌, ◌++◌, false, if◌then◌else◌, length, refl, IfOk};
ghost use Rattle.rl_word.specs.declared.locks.LockName.TheVariants as TheName;
ghost use Rattle.rl_step.specs.Lock.{told_as};
ghost use Rattle.rl_step.specs.LockQueues.{sits_at};
ghost use Rattle.rl_queue.specs.Queue.{full_budget};
ghost use Rattle.rl_queue.specs.RankWords.{Seated};
ghost use Rattle.rl_alock.specs.declared.cohort.Cohort.TheVariants.{Local, Remote};
ghost use Rattle.rl_alock.specs.Alock.{cohort_names, cohort_no, cohorts_of, cohorts_in, names_of, entry_act as the_entry_act, settles_now, entry_told, entry_events, alock_table, BoundsOvertaking};
ghost use Rattle.rl_alock.specs.laws.SameViews.{same_alock};
ghost use Rattle.rl_alock.specs.Overtakes.{AlockBounded};
ghost use Rattle.rl_alock.specs.laws.AlockBounded.{bounded_laws};

use crate::cohort::Cohort;
use crate::view::{AlockView, SettleStage};
use rl_queue::{
    Phase, QueueNames, QueueView, queue_idle, queue_join, queue_learn, queue_leave, queue_plan,
    queue_settled, queue_standing, rank_words,
};
use rl_step::{Algo, Event, Events, Learnt, Standing};
use rl_word::{Act, Class, Knobs, LockName, Mode, Shape, Spot};
use std::alloc::{AllocError as OutOfMemory, Global};

/// The word that says which cohort yields.
pub(crate) const VICTIM: u32 = 2;

/// ALock, the lock of Baran, Nelson-Slivon, Tseng and Palmieri for memory that some ranks reach without the network: the ranks on the
/// shard's home have a queue of their own, and all others have one. The heads of both meet in an entry for two after Peterson.
///
/// Words 0 and 1 are the tails of the local and of the remote queue, and word 2 is the victim, all on the shard's home: a local word,
/// which the ranks there compare by themselves, a card word and a plain one. Words 3 + 2r and 4 + 2r are the next word and the status
/// word of rank r, plain words on its node. Each queue has a budget of its own: so often it is passed on before its head must settle
/// again. Readers are writers to it.
#[derive(Drop)]
pub struct Alock {
    home: u32,
    node_of: Vec<u32>,
    nodes: u32,
    local: QueueNames,
    remote: QueueNames,
    ghost seated: { Seated (record { node_of = node_of.items; nodes = nodes }) },
    ghost homed: { home < nodes },
    ghost local_named: { local ≡ cohort_names Local (length node_of.items) (full_budget local.budget) },
    ghost remote_named: { remote ≡ cohort_names Remote (length node_of.items) (full_budget remote.budget) },
    ghost local_modest: { full_budget local.budget ≤ 1000 },
    ghost remote_modest: { full_budget remote.budget ≤ 1000 },
}

/// The queue of a cohort of so many ranks in all.
fn names_for(
    alloc: Global,
    cohort: Cohort,
    ranks: u32,
    budget: u32,
) -> Result<QueueNames, OutOfMemory>
    requires { ranks ≤ 32 }
    ensures { IfOk result (λ names. names ≡ cohort_names cohort ranks budget) }
{
    let next = rank_words(alloc, 3, ranks)?;
    let status = rank_words(alloc, 4, ranks)?;
    let tail_class = match cohort {
        Cohort::Local => Class::Local,
        Cohort::Remote => Class::Card,
    };
    Ok(QueueNames {
        queue: cohort.queue(),
        tail: cohort.queue(),
        tail_class,
        next,
        status,
        budget: Some(budget),
    })
}

/// Where the ranks sit.
fn seats(shape: &Shape) -> Result<Vec<u32>, OutOfMemory>
    ensures { IfOk result (λ seats. seats.items ≡ shape.now.node_of) }
{
    shape.node_of.clone()
}

/// The act of a head that must settle.
fn entry_act(cohort: Cohort, entry: SettleStage) -> Act
    ensures { result ≡ the_entry_act cohort entry }
{
    match entry {
        SettleStage::Announce => Act::Store {
            word: VICTIM,
            value: cohort.number() as u64,
        },
        SettleStage::Tail => Act::Load {
            word: cohort.other().queue(),
        },
        SettleStage::Victim => Act::Load { word: VICTIM },
    }
}

/// A head has settled, and enters.
fn settle(view: &mut AlockView, names: &QueueNames, events: &mut Events)
    requires head { view.old.queue.phase ≡ Phase.Settle }
    requires none { events.old.items ≡ [] }
    ensures { record { view = view.new; events = events.new.items; waits = false } ≡ settles_now names.now view.old.queue.member }
{
    let head = view.queue;
    events.push(Event::Settle {
        queue: names.queue,
        member: head.member,
    });
    events.push(Event::EnterW { rank: head.member });
    *view = AlockView {
        queue: queue_settled(head, names),
        entry: SettleStage::Announce,
    };
}

/// A head has named its cohort the victim, and looks at the other's tail next.
fn announce(view: &mut AlockView, cohort: Cohort, events: &mut Events)
    requires { events.old.items ≡ [] }
    ensures view { view.new ≡ record { queue = view.old.queue; entry = SettleStage.Tail } }
    ensures events { events.new.items ≡ Event.Announce (cohort_no cohort) ∷ [] }
{
    events.push(Event::Announce {
        cohort: cohort.number(),
    });
    view.entry = SettleStage::Tail;
}

/// What a head learns in the entry, where its act told `got`. Whether it has to make its round again.
fn entry_turn(
    view: &mut AlockView,
    cohort: Cohort,
    names: &QueueNames,
    got: u64,
    events: &mut Events,
) -> bool
    requires head { view.old.queue.phase ≡ Phase.Settle }
    requires none { events.old.items ≡ [] }
    ensures { told_as view.new events.new.items result ≡ entry_told names.now cohort view.old.queue.member view.old.entry got }
{
    match view.entry {
        SettleStage::Announce => announce(view, cohort, events),
        SettleStage::Tail => {
            if got == 0 {
                settle(view, names, events);
            } else {
                view.entry = SettleStage::Victim;
            }
        }
        SettleStage::Victim => {
            if got == cohort.number() as u64 {
                view.entry = SettleStage::Tail;
                return true;
            }
            settle(view, names, events);
        }
    }
    false
}

/// Who has been given its queue enters. Whether it has to make a load again.
fn enter(view: &mut AlockView, turn: Learnt<QueueView>, events: &mut Events) -> bool
    requires { length events.old.items ≤ 1 }
    ensures view { view.new ≡ record { queue = turn.view; entry = SettleStage.Announce } }
    ensures waits { result ≡ turn.waits }
    ensures events { events.new.items ≡ events.old.items ++ entry_events turn.view.member turn.view.phase }
{
    if matches!(turn.view.phase, Phase::Granted { .. }) {
        events.push(Event::EnterW {
            rank: turn.view.member,
        });
    }
    *view = AlockView {
        queue: turn.view,
        entry: SettleStage::Announce,
    };
    turn.waits
}

impl Alock {
    /// The cohort of a rank, which is there.
    pub(crate) fn cohort_of(&self, rank: u32) -> Cohort
        requires { rank < length self.now.node_of.items }
        ensures { result ≡ (if sits_at self.now.home self.now.node_of.items rank then Local else Remote) }
    {
        if self.node_of[rank as usize] == self.home {
            Cohort::Local
        } else {
            Cohort::Remote
        }
    }

    /// The queue of a cohort.
    pub(crate) fn names_of(&self, cohort: Cohort) -> &QueueNames
        ensures { result.now ≡ names_of (cohorts_of self.now.home self.now.node_of.items self.now.local self.now.remote) cohort }
    {
        match cohort {
            Cohort::Local => &self.local,
            Cohort::Remote => &self.remote,
        }
    }
}

impl Algo for Alock {
    type View = AlockView;

    ghost table = { λ s. alock_table (cohorts_of s.home s.node_of.items s.local s.remote) };

    ghost good = { λ s. AlockBounded (cohorts_of s.home s.node_of.items s.local s.remote) };

    ghost further = { λ s. BoundsOvertaking (cohorts_of s.home s.node_of.items s.local s.remote) };

    ghost layout = { λ s. record { node_of = s.node_of.items; nodes = s.nodes } };

    ghost defined = { λ shape home knobs. alock_table (cohorts_in home shape knobs) };

    ghost promised = { λ shape home knobs. BoundsOvertaking (cohorts_in home shape knobs) };

    ghost name = { TheName.Alock };

    ghost has_queues = { λ shape home knobs. refl };

    ghost has_shares = { λ shape home knobs. refl };

    ghost has_cohorts = { λ shape home knobs. refl };

    ghost suits_knobs = { λ shape knobs. (knobs.local ≤ 1000) × (knobs.remote ≤ 1000) };

    fn lock_name() -> LockName {
        LockName::Alock
    }

    /// Makes the lock. Of the settings it reads `local` and `remote`: the budget of each queue, 0 to 1000.
    fn make(alloc: Global, shape: &Shape, home: u32, knobs: Knobs) -> Result<Self, OutOfMemory> {
        let ranks = shape.node_of.len() as u32;
        let local = names_for(alloc, Cohort::Local, ranks, knobs.local)?;
        let remote = names_for(alloc, Cohort::Remote, ranks, knobs.remote)?;
        let node_of = seats(shape)?;
        Ok(Alock {
            home,
            node_of,
            nodes: shape.nodes,
            local,
            remote,
        })
    }

    fn words(&self) -> u32 {
        3 + 2 * self.node_of.len() as u32
    }

    fn spot(&self, word: u32) -> Spot {
        let home = self.home;
        match word {
            0 => Spot {
                class: Class::Local,
                home,
            },
            1 => Spot {
                class: Class::Card,
                home,
            },
            VICTIM => Spot {
                class: Class::Plain,
                home,
            },
            _ => Spot {
                class: Class::Plain,
                home: self.node_of[((word - 3) / 2) as usize],
            },
        }
    }

    fn first(&self, rank: u32) -> AlockView {
        AlockView {
            queue: queue_idle(rank),
            entry: SettleStage::Announce,
        }
    }

    fn ask(&self, view: AlockView, _mode: Mode) -> AlockView {
        AlockView {
            queue: queue_join(view.queue),
            entry: SettleStage::Announce,
        }
    }

    #[inline(always)]
    fn plan(&self, view: AlockView) -> Option<Act> {
        let cohort = self.cohort_of(view.queue.member);
        match view.queue.phase {
            Phase::Settle => Some(entry_act(cohort, view.entry)),
            _ => queue_plan(view.queue, self.names_of(cohort)),
        }
    }

    #[inline(always)]
    fn learn(&self, view: &mut AlockView, got: u64, events: &mut Events) -> bool {
        let cohort = self.cohort_of(view.queue.member);
        let names = self.names_of(cohort);
        match view.queue.phase {
            Phase::Settle => entry_turn(view, cohort, names, got, events),
            _ => {
                let turn = queue_learn(view.queue, names, got, events);
                enter(view, turn, events)
            }
        }
    }

    fn leave(&self, view: AlockView) -> AlockView {
        AlockView {
            queue: queue_leave(view.queue, false),
            entry: SettleStage::Announce,
        }
    }

    fn standing(&self, view: AlockView) -> Standing {
        queue_standing(view.queue)
    }

    ghost same_views = { same_alock };

    ghost laws = { λ s. bounded_laws (cohorts_of s.home s.node_of.items s.local s.remote) s.nodes s.seated s.homed };
}
