//! Each kind of table step, in an order worked out by hand, and by two threads.

ghost use Rattle.std.specs.Prelude.{◌≡◌, ℕ, ◌+◌, List, length, Option, None, Some, IfOk, vec_len};
ghost use Rattle.rl_window.specs.Seats.{IsSeatOf, IsKept, IsAll, AreKept, seat_rank};
ghost use Rattle.lock_tests.specs.Rounds.{rounds_table, rounds_rule, after_found, StaysSeated};
ghost use Rattle.lock_tests.specs.laws.Rounds.{rounds_laws};

use rl_step::{Core, Events, Plan, Stepped, advance};
use rl_window::{WinSeat, Window};
use rl_word::Atom;
use std::alloc::{AllocError as OutOfMemory, Global};
use std::test::Fail;
use std::thread::{Threads, join_mut};

/// A core whose ranks make round after round; a view is the atom that comes next. A round adds one to word 0 through the
/// card of node 0, then adds one to word 1 by compare-and-swap, and stores the sum into word 2.
#[derive(Drop)]
struct Rounds;

/// What a view becomes after its atom found `got`, and the answer.
fn went_on(view: Option<Atom>, got: u64) -> (Option<Atom>, Stepped)
    ensures { (result.0 ≡ (after_found view got).view) × (result.1 ≡ (after_found view got).stepped) }
{
    let Some(atom) = view else {
        return (None, Stepped::Moved);
    };
    match atom {
        Atom::Take { node } => {
            if got == 0 {
                (Some(Atom::CardLoad { word: 0 }), Stepped::Moved)
            } else {
                let lost = Stepped::Lost {
                    guess: 0,
                    seen: got,
                };
                (Some(Atom::Take { node }), lost)
            }
        }
        Atom::CardLoad { word } => {
            let value = got.wrapping_add(1);
            (Some(Atom::CardStore { word, value }), Stepped::Moved)
        }
        Atom::CardStore { .. } => (Some(Atom::Leave { node: 0 }), Stepped::Moved),
        Atom::Leave { .. } => (Some(Atom::Load { word: 1 }), Stepped::Moved),
        Atom::Load { word } => {
            let new = got.wrapping_add(1);
            let next = Atom::LocalCas {
                word,
                old: got,
                new,
            };
            (Some(next), Stepped::Moved)
        }
        Atom::LocalCas { word, old, new } => {
            if got == old {
                (
                    Some(Atom::Store {
                        word: 2,
                        value: new,
                    }),
                    Stepped::Moved,
                )
            } else {
                let next = Atom::LocalCas {
                    word,
                    old: got,
                    new: got.wrapping_add(1),
                };
                let lost = Stepped::Lost {
                    guess: old,
                    seen: got,
                };
                (Some(next), lost)
            }
        }
        Atom::Store { .. } => (None, Stepped::Moved),
    }
}

impl Core for Rounds {
    type View = Option<Atom>;

    ghost table = { λ c. rounds_table };

    ghost plan_of = { λ c v. record { act = None; home = 0 } };

    ghost rule = { rounds_rule };

    fn next(&self, view: &Option<Atom>) -> Option<(Atom, Plan)> {
        let atom = (*view)?;
        Some((atom, Plan { act: None, home: 0 }))
    }

    fn after(
        &self,
        view: &mut Option<Atom>,
        _plan: Plan,
        got: u64,
        _events: &mut Events,
    ) -> Stepped {
        let (next, stepped) = went_on(*view, got);
        *view = next;
        stepped
    }

    fn home(&self, _word: u32) -> u32 {
        0
    }

    ghost laws = { λ c. rounds_laws };
}

/// Three words of 0, a card, and two ranks between rounds.
fn opened(alloc: Global) -> Result<(Window<Rounds>, Vec<WinSeat<Rounds>>), OutOfMemory>
    ensures all { IfOk result (λ p. IsAll rounds_rule p.0 p.1.items × AreKept rounds_rule p.0 p.1.items) }
    ensures two { IfOk result (λ p. vec_len p.1 ≡ 2) }
{
    let views = vec![in alloc; None, None]?;
    Window::new(alloc, Rounds, &[0, 0, 0], 1, views)
}

/// Makes one atom of the seat's rank, if it is in a round.
fn step(window: &Window<Rounds>, seat: &mut WinSeat<Rounds>) -> Stepped
    requires seat { IsSeatOf rounds_rule window.now seat.old }
    requires kept { IsKept rounds_rule window.now seat.old }
    ensures seat { IsSeatOf rounds_rule window.now seat.new }
    ensures kept { IsKept rounds_rule window.now seat.new }
    ensures rank { seat_rank seat.new ≡ seat_rank seat.old }
{
    let mut port = window.port(seat);
    advance(window.core(), &mut port, &mut Events::new())
}

/// Begins a round, where none is under way, and says whether it did.
fn begin(window: &Window<Rounds>, seat: &mut WinSeat<Rounds>) -> bool
    requires seat { IsSeatOf rounds_rule window.now seat.old }
    requires kept { IsKept rounds_rule window.now seat.old }
    ensures seat { IsSeatOf rounds_rule window.now seat.new }
    ensures kept { IsKept rounds_rule window.now seat.new }
    ensures rank { seat_rank seat.new ≡ seat_rank seat.old }
{
    let _ = window;
    if seat.view().is_some() {
        return false;
    }
    *seat.view_mut() = Some(Atom::Take { node: 0 });
    true
}

/// One step of one of two seats, and its rank's view after it.
fn step_either(
    window: &Window<Rounds>,
    first: &mut WinSeat<Rounds>,
    second: &mut WinSeat<Rounds>,
    is_second: bool,
) -> (Stepped, Option<Atom>)
    requires first { IsSeatOf rounds_rule window.now first.old × IsKept rounds_rule window.now first.old }
    requires second { IsSeatOf rounds_rule window.now second.old × IsKept rounds_rule window.now second.old }
    ensures first { StaysSeated window.now first.old first.new }
    ensures second { StaysSeated window.now second.old second.new }
{
    if is_second {
        (step(window, second), *second.view())
    } else {
        (step(window, first), *first.view())
    }
}

/// One step of one of two ranks, with its answer and the rank's view after it, worked out by hand.
#[derive(Drop)]
struct Turn {
    is_second: bool,
    stepped: Stepped,
    view: Option<Atom>,
}

fn first_moves(view: Atom) -> Turn {
    Turn {
        is_second: false,
        stepped: Stepped::Moved,
        view: Some(view),
    }
}

fn second_moves(view: Atom) -> Turn {
    Turn {
        is_second: true,
        stepped: Stepped::Moved,
        view: Some(view),
    }
}

/// Guessed 0 and saw 1.
fn loses(is_second: bool, view: Atom) -> Turn {
    Turn {
        is_second,
        stepped: Stepped::Lost { guess: 0, seen: 1 },
        view: Some(view),
    }
}

/// Is between two rounds then.
fn between(is_second: bool, stepped: Stepped) -> Turn {
    Turn {
        is_second,
        stepped,
        view: None,
    }
}

/// The compare-and-swap of word 1.
fn compare(old: u64, new: u64) -> Atom {
    Atom::LocalCas { word: 1, old, new }
}

/// Makes these turns, and gives the number of the first one that went otherwise.
fn first_difference(
    window: &Window<Rounds>,
    first: &mut WinSeat<Rounds>,
    second: &mut WinSeat<Rounds>,
    turns: &[Turn],
) -> Option<usize>
    requires first { IsSeatOf rounds_rule window.now first.old × IsKept rounds_rule window.now first.old }
    requires second { IsSeatOf rounds_rule window.now second.old × IsKept rounds_rule window.now second.old }
    ensures first { StaysSeated window.now first.old first.new }
    ensures second { StaysSeated window.now second.old second.new }
{
    for (number, turn) in turns.iter().enumerate() {
        let (stepped, view) = step_either(window, first, second, turn.is_second);
        if stepped != turn.stepped || view != turn.view {
            return Some(number);
        }
    }
    None
}

/// Two ranks begin a round and make these turns; gives the number of the first turn that went otherwise, and the words at
/// the end.
fn played(alloc: Global, turns: &[Turn]) -> Result<Option<(Option<usize>, Vec<u64>)>, OutOfMemory> {
    let (window, mut seats) = opened(alloc)?;
    let Some(mut second) = seats.pop() else {
        return Ok(None);
    };
    let Some(mut first) = seats.pop() else {
        return Ok(None);
    };
    begin(&window, &mut first);
    begin(&window, &mut second);
    let difference = first_difference(&window, &mut first, &mut second, turns);
    seats.push_reserved(first);
    seats.push_reserved(second);
    match window.close(seats) {
        Ok((_core, words, _views)) => Ok(Some((difference, words))),
        Err(_) => Ok(None),
    }
}

#[test]
fn each_kind_of_step_finds_what_stands_there(rt: HostRuntime) -> Result<(), Fail> {
    let turns = [
        first_moves(Atom::CardLoad { word: 0 }),
        loses(true, Atom::Take { node: 0 }),
        first_moves(Atom::CardStore { word: 0, value: 1 }),
        first_moves(Atom::Leave { node: 0 }),
        loses(true, Atom::Take { node: 0 }),
        first_moves(Atom::Load { word: 1 }),
        second_moves(Atom::CardLoad { word: 0 }),
        first_moves(compare(0, 1)),
        second_moves(Atom::CardStore { word: 0, value: 2 }),
        second_moves(Atom::Leave { node: 0 }),
        second_moves(Atom::Load { word: 1 }),
        second_moves(compare(0, 1)),
        second_moves(Atom::Store { word: 2, value: 1 }),
        loses(false, compare(1, 2)),
        first_moves(Atom::Store { word: 2, value: 2 }),
        between(false, Stepped::Moved),
        between(false, Stepped::Finished),
        between(true, Stepped::Moved),
    ];
    match played(rt.alloc(), turns.as_slice())? {
        Some((difference, words)) => {
            assert_eq!(rt; difference, None);
            assert_eq!(rt; words.as_slice(), [2, 2, 1].as_slice());
        }
        None => panic!(rt; "the window is closed"),
    }
    Ok(())
}

/// Makes so many steps, each round after the other, and tells how many rounds it began.
fn go_round(window: &Window<Rounds>, seat: &mut WinSeat<Rounds>, steps: u32) -> u64
    requires seat { IsSeatOf rounds_rule window.now seat.old }
    requires kept { IsKept rounds_rule window.now seat.old }
    ensures seat { IsSeatOf rounds_rule window.now seat.new }
    ensures kept { IsKept rounds_rule window.now seat.new }
    ensures rank { seat_rank seat.new ≡ seat_rank seat.old }
{
    let mut begun: u64 = 0;
    for _ in 0..steps {
        if begin(window, seat) {
            begun = begun.wrapping_add(1);
        }
        step(window, seat);
    }
    begun
}

/// Both ranks make so many steps, each in a thread of its own; tells how many rounds they began.
fn go_both<R: Threads>(
    rt: &R,
    window: &Window<Rounds>,
    first: &mut WinSeat<Rounds>,
    second: &mut WinSeat<Rounds>,
    steps: u32,
) -> u64
    requires first { IsSeatOf rounds_rule window.now first.old × IsKept rounds_rule window.now first.old }
    requires second { IsSeatOf rounds_rule window.now second.old × IsKept rounds_rule window.now second.old }
    ensures first { StaysSeated window.now first.old first.new }
    ensures second { StaysSeated window.now second.old second.new }
{
    let (ones, others) = join_mut(
        rt,
        &mut ||
            requires { IsSeatOf rounds_rule window.now first.now × IsKept rounds_rule window.now first.now }
            ensures { StaysSeated window.entry.now first.entry.now first.exit.now }
        { go_round(window, first, steps) },
        &mut ||
            requires { IsSeatOf rounds_rule window.now second.now × IsKept rounds_rule window.now second.now }
            ensures { StaysSeated window.entry.now second.entry.now second.exit.now }
        { go_round(window, second, steps) },
    );
    ones.wrapping_add(others)
}

/// Ends the rounds that are under way, by turns: 40 steps of each rank are more than they need.
fn end_rounds(window: &Window<Rounds>, first: &mut WinSeat<Rounds>, second: &mut WinSeat<Rounds>)
    requires first { IsSeatOf rounds_rule window.now first.old × IsKept rounds_rule window.now first.old }
    requires second { IsSeatOf rounds_rule window.now second.old × IsKept rounds_rule window.now second.old }
    ensures first { StaysSeated window.now first.old first.new }
    ensures second { StaysSeated window.now second.old second.new }
{
    for _ in 0..40 {
        step(window, first);
        step(window, second);
    }
}

/// Two ranks go round in threads; tells how many rounds they began, and the words at the end.
fn two_ranks<R: Threads>(
    rt: &R,
    alloc: Global,
    steps: u32,
) -> Result<Option<(u64, Vec<u64>)>, OutOfMemory> {
    let (window, mut seats) = opened(alloc)?;
    let Some(mut second) = seats.pop() else {
        return Ok(None);
    };
    let Some(mut first) = seats.pop() else {
        return Ok(None);
    };
    let begun = go_both(rt, &window, &mut first, &mut second, steps);
    end_rounds(&window, &mut first, &mut second);
    seats.push_reserved(first);
    seats.push_reserved(second);
    match window.close(seats) {
        Ok((_core, words, _views)) => Ok(Some((begun, words))),
        Err(_) => Ok(None),
    }
}

#[test]
fn two_threads_lose_no_round(rt: HostRuntime) -> Result<(), Fail> {
    let steps = 20_000;
    match two_ranks(&rt, rt.alloc(), steps)? {
        Some((begun, words)) => {
            assert!(rt; begun >= 2);
            assert_eq!(rt; words.first(), Some(&begun));
            assert_eq!(rt; words.get(1), Some(&begun));
        }
        None => panic!(rt; "the window is closed"),
    }
    Ok(())
}
