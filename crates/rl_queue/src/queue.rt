//! The acts of one queue: what a member plans in each phase, what it learns, and the moves that are no acts.

ghost use Rattle.std.specs.Prelude.{◌≡◌, ◌↔◌, ℕ, ◌+◌, ◌-◌, ◌<◌, ◌^◌, [], Some, None, length, drop};
ghost use Rattle.rl_word.specs.declared.acts.Act.{Act as TheAct};
ghost use Rattle.rl_queue.specs.Queue.{MakesActs, PlanFits, GotFits, swap_act, status_code, code_left, look_at, plan_at, turn_at, told_by, at_phase, IsGranted, settled_at, leave_at, resume_at, stage_at, TheNames as TheQueueNames};
ghost use Rattle.rl_step.specs.Lock.{told_with};
ghost use Rattle.rl_queue.specs.Standings.{standing_of};
ghost use Rattle.rl_queue.specs.Urgency.{loaded, urgent_at};

use crate::view::{Phase, QueueView, Stage};
use rl_step::{Event, Events, Learnt, Standing, Words};
use rl_word::{Act, Class};
use std::marker::Model;

/// A queue's number, the words of its members, and its budget. Members have numbers from 0; a number that isn't a member's may
/// stand in the lists all the same, and its words are left alone.
#[derive(Drop)]
pub struct QueueNames {
    /// The queue's number among those of its lock, which its events name.
    pub queue: u32,
    /// The tail: 0 where the queue is empty, else one more than its last member.
    pub tail: u32,
    /// How the tail is compared: by local compare-and-swaps, or through the card of its home.
    pub tail_class: Class,
    /// The next word of each member: 0, or one more than the member behind it.
    pub next: Vec<u32>,
    /// The status word of each member: 0 while it waits, 1 for "settle first", and 2 + b once it has the queue with b passes left.
    pub status: Vec<u32>,
    /// How often the queue may be passed on before it is given up above; none is no limit.
    pub budget: Option<u32>,
}

impl Model for QueueNames {
    ghost Value = { TheQueueNames };

    ghost view = { λ a.
        record {
          queue = a.queue;
          tail = a.tail;
          tail_class = a.tail_class;
          next = a.next.items;
          status = a.status.items;
          budget = a.budget;
        } };
}

/// The view of a member in a phase.
fn at(member: u32, phase: Phase) -> QueueView
    ensures { result ≡ at_phase member phase }
{
    QueueView { member, phase }
}

/// A compare-and-swap of a word of this class.
fn swap(class: Class, word: u32, old: u64, new: u64) -> Act
    ensures { result ≡ swap_act class word old new }
{
    match class {
        Class::Local => Act::LocalCas { word, old, new },
        Class::Card | Class::Plain | Class::Fixed => Act::CardCas { word, old, new },
    }
}

/// The code that a member with so many passes left hands to its successor.
fn code(budget: Option<u32>, left: u32) -> u64
    ensures { result ≡ status_code budget left }
{
    match budget {
        None => 2,
        Some(_) => if left == 0 { 1 } else { left as u64 + 1 },
    }
}

/// The act that a member makes next; none where it is idle, must settle, has the queue, or waits for what is above it.
///
/// The view's member, the successor that it hands the queue to, and the member before it, `guess - 1`, that it links itself to
/// have words in `names`, which has as many status words as next words. The queue is the one of Mellor-Crummey and Scott,
/// with budgets as in cohort locks.
#[tactic(auto, using(crate::specs::laws::QueueFits::plans_where))]
#[inline(always)]
pub fn queue_plan(view: QueueView, names: &QueueNames) -> Option<Act>
    requires { PlanFits names.now view.member view.phase }
    ensures plan { result ≡ plan_at names.now view.member view.phase }
    ensures acts { (result ≡ None) ↔ (MakesActs (stage_at view.phase) → ⊥) }
{
    let me = view.member as usize;
    match view.phase {
        Phase::Clear => Some(Act::Store {
            word: names.next[me],
            value: 0,
        }),
        Phase::Reset => Some(Act::Store {
            word: names.status[me],
            value: 0,
        }),
        Phase::Swing { guess } => Some(swap(
            names.tail_class,
            names.tail,
            guess,
            view.member as u64 + 1,
        )),
        Phase::Link { guess } => Some(Act::Store {
            word: names.next[(guess - 1) as usize],
            value: view.member as u64 + 1,
        }),
        Phase::Wait => Some(Act::Load {
            word: names.status[me],
        }),
        Phase::Look { .. } | Phase::Await { .. } => Some(Act::Load {
            word: names.next[me],
        }),
        Phase::Close { .. } => Some(swap(names.tail_class, names.tail, view.member as u64 + 1, 0)),
        Phase::Hand { successor, left } => Some(Act::Store {
            word: names.status[successor as usize],
            value: code(names.budget, left),
        }),
        Phase::Idle | Phase::Settle | Phase::Granted { .. } | Phase::Above { .. } => None,
    }
}

/// How urgently a member in this phase goes on that plans this act; the words of its lock are those of `words` from number `base` on.
///
/// 0 where it needn't wait. None where it is idle, and where it waits for a word that is still 0: its status, by which it is handed the
/// queue, or its next word, by which its follower links itself.
#[inline(always)]
pub fn queue_urgency(phase: Phase, planned: Option<Act>, words: &Words, base: u32) -> Option<u32>
    requires there { (w : ℕ) → planned ≡ Some (TheAct.Load w) → base + w < length words.now.words }
    requires fits { (w : ℕ) → planned ≡ Some (TheAct.Load w) → base + w < 2 ^ 32 }
    ensures { result ≡ urgent_at phase (loaded (drop base words.now.words) planned) }
{
    let found = match planned {
        Some(Act::Load { word }) => words.value(base + word),
        _ => 0,
    };
    match phase {
        Phase::Idle => None,
        Phase::Wait | Phase::Await { .. } if found == 0 => None,
        _ => Some(0),
    }
}

/// Where the first load of the next word leads a leaver.
fn look(left: u32, upper: bool, got: u64) -> Phase
    requires { got < 2 ^ 32 + 1 }
    ensures { result ≡ look_at left upper got }
{
    if upper {
        if got == 0 {
            Phase::Above { successor: None }
        } else if left == 0 {
            Phase::Above {
                successor: Some((got - 1) as u32),
            }
        } else {
            Phase::Hand {
                successor: (got - 1) as u32,
                left,
            }
        }
    } else if got == 0 {
        Phase::Close { left }
    } else {
        Phase::Hand {
            successor: (got - 1) as u32,
            left,
        }
    }
}

/// How many passes a code of 2 or more leaves.
fn left_of(budget: Option<u32>, code: u64) -> u32
    requires high { code < 2 ^ 32 + 2 }
    requires low { 1 < code }
    ensures { result ≡ code_left budget code }
{
    match budget {
        None => 0,
        Some(_) => (code - 2) as u32,
    }
}

/// What a member learns where its planned act told `got`: its view, and whether a waiting load has to be made again. The Join or
/// Pass event of this queue is put into `events`, which is empty; the Settle event is the layer's that calls `queue_settled`.
///
/// Beside the condition of `queue_plan`, a status that was loaded is below 2^32 + 2, and a next word below 2^32 + 1.
#[inline(always)]
pub fn queue_learn(
    view: QueueView,
    names: &QueueNames,
    got: u64,
    events: &mut Events,
) -> Learnt<QueueView>
    requires named { PlanFits names.now view.member view.phase }
    requires fits { GotFits view.phase got }
    requires none { events.old.items ≡ [] }
    ensures { told_with result events.new.items ≡ told_by view.member (turn_at names.now view.member view.phase got) }
{
    let mut waits = false;
    let mut phase = view.phase;
    match view.phase {
        Phase::Clear => phase = Phase::Reset,
        Phase::Reset => phase = Phase::Swing { guess: 0 },
        Phase::Swing { guess } => {
            if got == guess {
                events.push(Event::Join {
                    queue: names.queue,
                    member: view.member,
                });
                phase = if guess == 0 {
                    Phase::Settle
                } else {
                    Phase::Link { guess }
                };
            } else {
                phase = Phase::Swing { guess: got };
            }
        }
        Phase::Link { .. } => phase = Phase::Wait,
        Phase::Wait => {
            if got == 0 {
                waits = true;
            } else if got == 1 {
                phase = Phase::Settle;
            } else {
                phase = Phase::Granted {
                    left: left_of(names.budget, got),
                };
            }
        }
        Phase::Look { left, upper } => phase = look(left, upper, got),
        Phase::Close { left } => {
            phase = if got == view.member as u64 + 1 {
                Phase::Idle
            } else {
                Phase::Await { left }
            };
        }
        Phase::Await { left } => {
            if got == 0 {
                waits = true;
            } else {
                phase = Phase::Hand {
                    successor: (got - 1) as u32,
                    left,
                };
            }
        }
        Phase::Hand { successor, left } => {
            if names.budget.is_none() || left > 0 {
                events.push(Event::Pass {
                    queue: names.queue,
                    member: successor,
                });
            }
            phase = Phase::Idle;
        }
        Phase::Idle | Phase::Settle | Phase::Granted { .. } | Phase::Above { .. } => {}
    }
    Learnt {
        view: at(view.member, phase),
        waits,
    }
}

/// Where a member stands. `queue_plan` gives an act exactly where it is joining or leaving.
#[inline(always)]
pub fn queue_stage(view: QueueView) -> Stage
    ensures { result ≡ stage_at view.phase }
{
    match view.phase {
        Phase::Idle => Stage::Idle,
        Phase::Clear | Phase::Reset | Phase::Swing { .. } | Phase::Link { .. } | Phase::Wait =>
            Stage::Joining,
        Phase::Settle => Stage::Settle,
        Phase::Granted { left } => Stage::Granted { left },
        Phase::Look { .. } | Phase::Close { .. } | Phase::Await { .. } | Phase::Hand { .. } =>
            Stage::Leaving,
        Phase::Above { .. } => Stage::Above,
    }
}

/// How a rank stands to a lock that it has exactly where it has this queue.
#[inline(always)]
pub fn queue_standing(view: QueueView) -> Standing
    ensures { result ≡ standing_of view.phase }
{
    match queue_stage(view) {
        Stage::Idle => Standing::Out,
        Stage::Joining | Stage::Settle => Standing::Asking,
        Stage::Granted { .. } => Standing::Writer,
        Stage::Leaving | Stage::Above => Standing::Leaving,
    }
}

/// The view of a member that doesn't use the queue.
pub fn queue_idle(member: u32) -> QueueView
    ensures { result ≡ at_phase member Phase.Idle }
{
    at(member, Phase::Idle)
}

/// The view of a member that has the queue, with so many passes left: for one whose status was loaded on its behalf.
pub fn queue_holder(member: u32, left: u32) -> QueueView
    ensures { result ≡ at_phase member (Phase.Granted left) }
{
    at(member, Phase::Granted { left })
}

/// A member that is idle begins to join.
pub fn queue_join(view: QueueView) -> QueueView
    requires { view.phase ≡ Phase.Idle }
    ensures { result ≡ at_phase view.member Phase.Clear }
{
    at(view.member, Phase::Clear)
}

/// A head that had to settle has done so: it has the queue, with the whole budget.
pub fn queue_settled(view: QueueView, names: &QueueNames) -> QueueView
    requires { view.phase ≡ Phase.Settle }
    ensures { result ≡ at_phase view.member (settled_at names.now.budget) }
{
    let left = match names.budget {
        None => 0,
        Some(budget) => budget,
    };
    at(view.member, Phase::Granted { left })
}

/// A member that has the queue begins to leave it. `upper` says that something is above the queue, which it gives up before it
/// empties the tail or hands on "settle first".
pub fn queue_leave(view: QueueView, upper: bool) -> QueueView
    requires { IsGranted view.phase }
    ensures { result ≡ at_phase view.member (leave_at view.phase upper) }
{
    match view.phase {
        Phase::Granted { left } => at(view.member, Phase::Look { left, upper }),
        _ => view,
    }
}

/// What is above the queue was given up: the member goes on leaving, with no pass left.
pub fn queue_resume(view: QueueView) -> QueueView
    requires { stage_at view.phase ≡ Stage.Above }
    ensures { result ≡ at_phase view.member (resume_at view.phase) }
{
    match view.phase {
        Phase::Above { successor: None } => at(view.member, Phase::Close { left: 0 }),
        Phase::Above {
            successor: Some(successor),
        } => at(view.member, Phase::Hand { successor, left: 0 }),
        _ => view,
    }
}
