//! A reader's way in and out and a writer's way over two counters, act by act, worked out by hand.

ghost use Rattle.std.specs.Prelude.{◌≡◌, ◌∷◌, [], IfOk};
ghost use Rattle.rl_counter.specs.Counter.{NamesCounters};

use rl_counter::{
    CounterNames, CounterView, Doing, Task, counter_begin, counter_busy, counter_idle,
    counter_laws, counter_learn, counter_plan,
};
use rl_word::Act;
use std::alloc::{AllocError as OutOfMemory, Global};

const MARK: u64 = 4_294_967_296;

/// Two counters, with the arrive words 4 and 6 and the depart words 5 and 7; the bound is 2.
fn two_counters(alloc: Global) -> Result<CounterNames, OutOfMemory>
    ensures { IfOk result (λ names. names ≡ record { arrive = 4 ∷ 6 ∷ []; depart = 5 ∷ 7 ∷ []; root_tail = 0; readers = 2 }) }
{
    let arrive = vec![in alloc; 4, 6]?;
    let depart = vec![in alloc; 5, 7]?;
    Ok(CounterNames {
        arrive,
        depart,
        root_tail: 0,
        readers: 2,
    })
}

/// The act of a rank of group 1 that does this, what it does next where the act told `got`, and whether it waits.
fn step(names: &CounterNames, doing: Doing, got: u64) -> (Option<Act>, Doing, bool)
    requires { NamesCounters names.now 1 doing }
{
    let view = CounterView { counter: 1, doing };
    let act = counter_plan(view, names);
    let turn = counter_learn(view, names, got);
    (act, turn.view.doing, turn.waits)
}

fn adds(word: u32, by: u64) -> Option<Act> {
    Some(Act::CardAdd { word, by })
}

fn empties(word: u32) -> Option<Act> {
    Some(Act::CardSwap { word, value: 0 })
}

fn loads(word: u32) -> Option<Act> {
    Some(Act::Load { word })
}

#[test]
fn tasks_begin_and_end(rt: HostRuntime) {
    let idle = counter_idle(1);
    assert_eq!(rt; idle.counter, 1);
    assert!(rt; !counter_busy(idle));
    let entering = counter_begin(idle, Task::Enter);
    assert!(rt; counter_busy(entering));
    assert_eq!(rt; entering.doing, Doing::Arrive);
    let inside = CounterView {
        counter: 1,
        doing: Doing::Inside,
    };
    assert!(rt; !counter_busy(inside));
    assert_eq!(rt; counter_begin(inside, Task::Exit).doing, Doing::Depart);
    assert_eq!(rt; counter_begin(idle, Task::Up).doing, Doing::Put { at: 0 });
    assert_eq!(rt;
        counter_begin(idle, Task::Down).doing,
        Doing::TakeOut { at: 0 }
    );
    counter_laws();
}

#[test]
fn a_reader_comes_in_and_goes_out(rt: HostRuntime) -> Result<(), OutOfMemory> {
    let names = two_counters(rt.alloc())?;
    let arrived = step(&names, Doing::Arrive, 1);
    assert_eq!(rt; arrived, (adds(6, 1), Doing::Inside, false));
    let rests = step(&names, Doing::Inside, 0);
    assert_eq!(rt; rests, (None, Doing::Inside, false));
    let departed = step(&names, Doing::Depart, 0);
    assert_eq!(rt; departed, (adds(7, 1), Doing::Nothing, false));
    Ok(())
}

#[test]
fn a_refused_reader_resets_the_counter(rt: HostRuntime) -> Result<(), OutOfMemory> {
    let names = two_counters(rt.alloc())?;
    let arrived = step(&names, Doing::Arrive, 2);
    assert_eq!(rt; arrived, (adds(6, 1), Doing::Refused { found: 2 }, false));
    let gone = step(&names, Doing::Refused { found: 2 }, 3);
    let less = 18_446_744_073_709_551_615;
    assert_eq!(rt; gone, (adds(6, less), Doing::SeeTail { found: 2 }, false));
    let seen = step(&names, Doing::SeeTail { found: 2 }, 0);
    assert_eq!(rt; seen, (loads(0), Doing::Swap, false));
    let swapped = step(&names, Doing::Swap, 2);
    assert_eq!(rt; swapped, (empties(7), Doing::Reset { taken: 2 }, false));
    let reset = step(&names, Doing::Reset { taken: 2 }, 2);
    let less = 18_446_744_073_709_551_614;
    assert_eq!(rt; reset, (adds(6, less), Doing::Arrive, false));
    Ok(())
}

#[test]
fn a_reader_waits_for_a_writer(rt: HostRuntime) -> Result<(), OutOfMemory> {
    let names = two_counters(rt.alloc())?;
    let seen = step(&names, Doing::SeeTail { found: MARK }, 0);
    assert_eq!(rt; seen, (loads(0), Doing::Round, false));
    let looked = step(&names, Doing::Round, 2);
    assert_eq!(rt; looked, (loads(6), Doing::RoundTail { found: 2 }, false));
    let waits = step(&names, Doing::RoundTail { found: 2 }, 1);
    assert_eq!(rt; waits, (loads(0), Doing::Round, true));
    let marked = step(&names, Doing::RoundTail { found: MARK }, 0);
    assert_eq!(rt; marked, (loads(0), Doing::Round, true));
    let alone = step(&names, Doing::RoundTail { found: 2 }, 0);
    assert_eq!(rt; alone, (loads(0), Doing::Arrive, false));
    let room = step(&names, Doing::Round, 1);
    assert_eq!(rt; room, (loads(6), Doing::Arrive, false));
    Ok(())
}

#[test]
fn a_writer_puts_the_marks_up(rt: HostRuntime) -> Result<(), OutOfMemory> {
    let names = two_counters(rt.alloc())?;
    let first = step(&names, Doing::Put { at: 0 }, 2);
    assert_eq!(rt; first, (adds(4, MARK), Doing::Put { at: 1 }, false));
    let last = step(&names, Doing::Put { at: 1 }, 0);
    assert_eq!(rt; last, (adds(6, MARK), Doing::Count { at: 0 }, false));
    let found = MARK + 2;
    let counted = step(&names, Doing::Count { at: 0 }, found);
    assert_eq!(rt; counted, (loads(4), Doing::Compare { at: 0, found }, false));
    let waits = step(&names, Doing::Compare { at: 0, found }, 1);
    assert_eq!(rt; waits, (loads(5), Doing::Count { at: 0 }, true));
    let clear = step(&names, Doing::Compare { at: 0, found }, 2);
    assert_eq!(rt; clear, (loads(5), Doing::Count { at: 1 }, false));
    let ended = step(&names, Doing::Compare { at: 1, found: MARK }, 0);
    assert_eq!(rt; ended, (loads(7), Doing::Nothing, false));
    Ok(())
}

#[test]
fn a_writer_takes_the_marks_down(rt: HostRuntime) -> Result<(), OutOfMemory> {
    let names = two_counters(rt.alloc())?;
    let first = step(&names, Doing::TakeOut { at: 0 }, 2);
    assert_eq!(rt;
        first,
        (empties(5), Doing::TakeOff { at: 0, taken: 2 }, false)
    );
    let off = step(&names, Doing::TakeOff { at: 0, taken: 2 }, MARK + 2);
    let less = 18_446_744_069_414_584_318;
    assert_eq!(rt; off, (adds(4, less), Doing::TakeOut { at: 1 }, false));
    let last = step(&names, Doing::TakeOff { at: 1, taken: 0 }, MARK);
    let less = 18_446_744_069_414_584_320;
    assert_eq!(rt; last, (adds(6, less), Doing::Nothing, false));
    Ok(())
}
