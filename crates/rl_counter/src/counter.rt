//! The acts of a rank at the counters: what it plans, what it learns, and the tasks that it begins.

ghost use Rattle.std.specs.Prelude.{◌≡◌, ◌↔◌, ◌+◌, ◌^◌, ◌<◌, nat_lt, false, true, None, [], length};
ghost use Rattle.rl_word.specs.declared.acts.Act.TheVariants.{Load, CardSwap, CardAdd};
ghost use Rattle.rl_counter.specs.Counter.{off, busy, begun, NamesCounters, unseen as nobody_seen, counter_act, counter_turn};

use crate::names::CounterNames;
use crate::view::{CounterView, Doing, Task};
use rl_step::Learnt;
use rl_word::Act;

/// What a writer's mark adds to an arrive word.
const MARK: u64 = 1 << 32;

/// The sum that takes so much off a word.
fn less(by: u64) -> u64
    ensures { result ≡ off by }
{
    0u64.wrapping_sub(by)
}

/// A sum through the card.
fn add(word: u32, by: u64) -> Act
    ensures { result ≡ CardAdd word by }
{
    Act::CardAdd { word, by }
}

/// A swap through the card that leaves 0.
fn empty(word: u32) -> Act
    ensures { result ≡ CardSwap word 0 }
{
    Act::CardSwap { word, value: 0 }
}

/// A load.
fn load(word: u32) -> Act
    ensures { result ≡ Load word }
{
    Act::Load { word }
}

/// Whether a reader has seen no writer: neither a mark in arrive nor a member of the root's queue.
fn unseen(found: u64, tail: u64) -> bool
    ensures { result ≡ nobody_seen found tail }
{
    tail == 0 && found < MARK
}

/// A rank without a task, of the group that has this counter.
#[inline(always)]
pub fn counter_idle(counter: u32) -> CounterView
    ensures { result ≡ record { counter = counter; doing = Doing.Nothing } }
{
    CounterView {
        counter,
        doing: Doing::Nothing,
    }
}

/// Begins a task. No other is under way.
#[inline(always)]
pub fn counter_begin(view: CounterView, task: Task) -> CounterView
    requires { busy view.doing ≡ false }
    ensures { result ≡ record { counter = view.counter; doing = begun task } }
{
    let doing = match task {
        Task::Enter => Doing::Arrive,
        Task::Exit => Doing::Depart,
        Task::Up => Doing::Put { at: 0 },
        Task::Down => Doing::TakeOut { at: 0 },
    };
    CounterView {
        counter: view.counter,
        doing,
    }
}

/// Whether a task is under way.
#[inline(always)]
pub fn counter_busy(view: CounterView) -> bool
    ensures { result ≡ busy view.doing }
{
    !matches!(view.doing, Doing::Nothing | Doing::Inside)
}

/// The act that a rank makes next; none exactly where no task is under way.
///
/// There are as many depart words as arrive words, fewer than 2^32, and the rank's counter and the one at which its task stands are
/// among them.
#[inline(always)]
pub fn counter_plan(view: CounterView, names: &CounterNames) -> Option<Act>
    requires { NamesCounters names.now view.counter view.doing }
    ensures plan { result ≡ counter_act names.now view.counter view.doing }
    ensures acts { (result ≡ None) ↔ (busy view.doing ≡ false) }
{
    let own = view.counter as usize;
    match view.doing {
        Doing::Nothing | Doing::Inside => None,
        Doing::Arrive => Some(add(names.arrive[own], 1)),
        Doing::Refused { .. } => Some(add(names.arrive[own], less(1))),
        Doing::Reset { taken } => Some(add(names.arrive[own], less(taken))),
        Doing::Swap => Some(empty(names.depart[own])),
        Doing::Depart => Some(add(names.depart[own], 1)),
        Doing::Round => Some(load(names.arrive[own])),
        Doing::SeeTail { .. } | Doing::RoundTail { .. } => Some(load(names.root_tail)),
        Doing::Put { at } => Some(add(names.arrive[at as usize], MARK)),
        Doing::Count { at } => Some(load(names.arrive[at as usize])),
        Doing::Compare { at, .. } => Some(load(names.depart[at as usize])),
        Doing::TakeOut { at } => Some(empty(names.depart[at as usize])),
        Doing::TakeOff { at, taken } => {
            Some(add(names.arrive[at as usize], less(MARK.wrapping_add(taken))))
        }
    }
}

/// The view of a rank that goes on, and whether it has to make its round again.
#[inline(always)]
fn goes_on(view: CounterView, doing: Doing, waits: bool) -> Learnt<CounterView>
    ensures view { result.view ≡ record { counter = view.counter; doing = doing } }
    ensures waits { result.waits ≡ waits }
{
    Learnt {
        view: CounterView {
            counter: view.counter,
            doing,
        },
        waits,
    }
}

/// A reader has added itself to arrive, and found so many there: it is in, or refused.
#[inline(always)]
fn has_arrived(names: &CounterNames, got: u64) -> Doing
    ensures doing { result ≡ (counter_turn names.now Doing.Arrive got).doing }
    ensures waits { (counter_turn names.now Doing.Arrive got).waits ≡ false }
{
    if got < names.readers as u64 {
        Doing::Inside
    } else {
        Doing::Refused { found: got }
    }
}

/// A refused reader has looked at the root's tail: it makes a reset where it has seen no writer, and else waits.
#[inline(always)]
fn has_seen(found: u64, tail: u64, names: &CounterNames) -> Doing
    ensures doing { result ≡ (counter_turn names.now (Doing.SeeTail found) tail).doing }
    ensures waits { (counter_turn names.now (Doing.SeeTail found) tail).waits ≡ false }
{
    if unseen(found, tail) {
        Doing::Swap
    } else {
        Doing::Round
    }
}

/// A reader that waits has looked at arrive: it tries again where there is room, and else looks at the root's tail.
#[inline(always)]
fn has_looked(names: &CounterNames, got: u64) -> Doing
    ensures doing { result ≡ (counter_turn names.now Doing.Round got).doing }
    ensures waits { (counter_turn names.now Doing.Round got).waits ≡ false }
{
    if got >= names.readers as u64 {
        Doing::RoundTail { found: got }
    } else {
        Doing::Arrive
    }
}

/// Whether there is a counter behind this one.
#[inline(always)]
fn has_next(at: u32, names: &CounterNames) -> bool
    ensures { result ≡ nat_lt (at + 1) (length names.now.arrive) }
{
    (at as u64) + 1 < names.arrive.len() as u64
}

/// A writer has put a mark on a counter: it goes on to the next, and from the last to the first again, to wait there.
#[inline(always)]
fn has_put(at: u32, names: &CounterNames, got: u64) -> Doing
    requires { length names.now.arrive < 2 ^ 32 }
    ensures doing { result ≡ (counter_turn names.now (Doing.Put at) got).doing }
    ensures waits { (counter_turn names.now (Doing.Put at) got).waits ≡ false }
{
    if has_next(at, names) {
        Doing::Put { at: at + 1 }
    } else {
        Doing::Count { at: 0 }
    }
}

/// A writer has seen that so many have gone from a counter: where these are all that had come it goes on to the next, and else looks
/// at the counter again.
#[inline(always)]
fn compared(
    view: CounterView,
    at: u32,
    found: u64,
    names: &CounterNames,
    got: u64,
) -> Learnt<CounterView>
    requires { length names.now.arrive < 2 ^ 32 }
    ensures view { result.view ≡ record { counter = view.counter; doing = (counter_turn names.now (Doing.Compare at found) got).doing } }
    ensures waits { result.waits ≡ (counter_turn names.now (Doing.Compare at found) got).waits }
{
    if got != found.saturating_sub(MARK) {
        goes_on(view, Doing::Count { at }, true)
    } else if has_next(at, names) {
        goes_on(view, Doing::Count { at: at + 1 }, false)
    } else {
        goes_on(view, Doing::Nothing, false)
    }
}

/// A writer has taken the mark off a counter: it goes on to the next.
#[inline(always)]
fn has_taken_off(at: u32, taken: u64, names: &CounterNames, got: u64) -> Doing
    requires { length names.now.arrive < 2 ^ 32 }
    ensures doing { result ≡ (counter_turn names.now (Doing.TakeOff at taken) got).doing }
    ensures waits { (counter_turn names.now (Doing.TakeOff at taken) got).waits ≡ false }
{
    if has_next(at, names) {
        Doing::TakeOut { at: at + 1 }
    } else {
        Doing::Nothing
    }
}

/// What a rank learns where its planned act told `got`: what it does next, and whether a round has to be made again. There are no
/// events: that a reader is in shows in its view alone. The condition is that of `counter_plan`.
#[inline(always)]
pub fn counter_learn(view: CounterView, names: &CounterNames, got: u64) -> Learnt<CounterView>
    requires { NamesCounters names.now view.counter view.doing }
    ensures view { result.view ≡ record { counter = view.counter; doing = (counter_turn names.now view.doing got).doing } }
    ensures waits { result.waits ≡ (counter_turn names.now view.doing got).waits }
{
    match view.doing {
        Doing::Nothing | Doing::Depart => goes_on(view, Doing::Nothing, false),
        Doing::Inside => goes_on(view, Doing::Inside, false),
        Doing::Arrive => goes_on(view, has_arrived(names, got), false),
        Doing::Refused { found } => goes_on(view, Doing::SeeTail { found }, false),
        Doing::SeeTail { found } => goes_on(view, has_seen(found, got, names), false),
        Doing::Swap => goes_on(view, Doing::Reset { taken: got }, false),
        Doing::Reset { .. } => goes_on(view, Doing::Arrive, false),
        Doing::Round => goes_on(view, has_looked(names, got), false),
        Doing::RoundTail { found } => {
            if unseen(found, got) {
                goes_on(view, Doing::Arrive, false)
            } else {
                goes_on(view, Doing::Round, true)
            }
        }
        Doing::Put { at } => goes_on(view, has_put(at, names, got), false),
        Doing::Count { at } => goes_on(view, Doing::Compare { at, found: got }, false),
        Doing::Compare { at, found } => compared(view, at, found, names, got),
        Doing::TakeOut { at } => goes_on(view, Doing::TakeOff { at, taken: got }, false),
        Doing::TakeOff { at, taken } => {
            goes_on(view, has_taken_off(at, taken, names, got), false)
        }
    }
}
