//! Atoms on a window without classes, counts of answers, and a flat machine.

ghost use Rattle.std.specs.Prelude.{◌≡◌, length, None};
ghost use Rattle.lock_tests.specs.Loader.{loader_table};
ghost use Rattle.lock_tests.specs.laws.Loader.{loader_laws};

use rl_step::{Core, Events, Flat, Plan, Stepped, Steps, Words, advance, advance_flat};
use rl_word::Atom;
use std::alloc::AllocError;

#[test]
fn card_and_local_compare_find_the_same_zero(rt: HostRuntime) -> Result<(), AllocError> {
    let mut window = Words::new(rt.alloc(), 1, 1)?;
    assert_eq!(rt; window.apply(0, 0, Atom::Take { node: 0 }), 0);
    assert_eq!(rt; window.apply(0, 0, Atom::CardLoad { word: 0 }), 0);
    let local = Atom::LocalCas {
        word: 0,
        old: 0,
        new: 2,
    };
    assert_eq!(rt; window.apply(0, 1, local), 0);
    assert_eq!(rt; window.value(0), 2);
    assert_eq!(rt;
        window.apply(0, 0, Atom::CardStore { word: 0, value: 1 }),
        0
    );
    assert_eq!(rt; window.apply(0, 0, Atom::Leave { node: 0 }), 0);
    assert_eq!(rt; window.value(0), 1);
    Ok(())
}

#[test]
fn a_take_finds_who_is_in_the_card(rt: HostRuntime) -> Result<(), AllocError> {
    let mut window = Words::new(rt.alloc(), 2, 2)?;
    assert_eq!(rt; window.apply(0, 1, Atom::Take { node: 1 }), 0);
    assert_eq!(rt; window.apply(0, 0, Atom::Take { node: 1 }), 2);
    assert_eq!(rt; window.apply(0, 0, Atom::Take { node: 0 }), 0);
    assert_eq!(rt; window.apply(0, 1, Atom::Leave { node: 1 }), 0);
    assert_eq!(rt; window.apply(0, 0, Atom::Take { node: 1 }), 0);
    assert_eq!(rt; window.apply(0, 0, Atom::Store { word: 1, value: 7 }), 0);
    assert_eq!(rt; window.apply(0, 1, Atom::Load { word: 1 }), 7);
    Ok(())
}

#[test]
fn each_answer_is_counted_as_its_own(rt: HostRuntime) {
    let mut steps = Steps::none();
    steps.count(Stepped::Moved);
    steps.count(Stepped::Moved);
    steps.count(Stepped::Waiting { word: 3, value: 0 });
    steps.count(Stepped::Lost { guess: 0, seen: 1 });
    steps.count(Stepped::Busy { node: 0, holder: 1 });
    steps.count(Stepped::Finished);
    steps.count(Stepped::Finished);
    steps.count(Stepped::Finished);
    let want = Steps {
        moved: 2,
        waiting: 1,
        lost: 1,
        busy: 1,
        finished: 3,
    };
    assert_eq!(rt; steps, want);
}

/// A core whose ranks load the window's one word again and again; a view is the value last loaded.
#[derive(Drop)]
struct Loader;

impl Core for Loader {
    type View = u64;

    ghost table = { λ c. loader_table };

    ghost plan_of = { λ c v. record { act = None; home = 0 } };

    ghost rule = { λ c h vs. length h.words ≡ 1 };

    fn next(&self, _view: &u64) -> Option<(Atom, Plan)> {
        let plan = Plan { act: None, home: 0 };
        Some((Atom::Load { word: 0 }, plan))
    }

    fn after(&self, view: &mut u64, _plan: Plan, got: u64, _events: &mut Events) -> Stepped {
        *view = got;
        Stepped::Moved
    }

    fn home(&self, _word: u32) -> u32 {
        0
    }

    ghost laws = { λ c. loader_laws };
}

#[test]
fn each_rank_of_a_flat_machine_has_its_view(rt: HostRuntime) -> Result<(), AllocError> {
    let mut window = Words::new(rt.alloc(), 1, 1)?;
    assert_eq!(rt; window.apply(0, 0, Atom::Store { word: 0, value: 6 }), 0);
    let mut flat: Flat<Loader> = Flat::new(window, vec![in rt.alloc(); 5, 7]?);
    *flat.view_mut(0) = 9;
    assert_eq!(rt; *flat.view(0), 9);
    let mut events = Events::new();
    let stepped = advance_flat(&Loader, &mut flat, 1, &mut events);
    assert_eq!(rt; stepped, Stepped::Moved);
    assert_eq!(rt; *flat.view(0), 9);
    assert_eq!(rt; *flat.view(1), 6);
    let mut port = flat.port(0);
    let stepped = advance(&Loader, &mut port, &mut events);
    assert_eq!(rt; stepped, Stepped::Moved);
    assert_eq!(rt; *flat.view(0), 6);
    assert_eq!(rt; flat.words().value(0), 6);
    Ok(())
}
