//! How each lock is made, which words it has, and where ranks stand before and after they ask.

ghost use Rattle.std.specs.Prelude.{◌<◌, length};

use crate::shapes::{four_ranks, one_node, two_nodes};
use rl_alock::{Alock, Cohort, SettleStage, two_domains};
use rl_counter::{CounterView, Doing};
use rl_mcs::Mcs;
use rl_queue::{Dmcs, Phase};
use rl_rw::{Rw, RwView};
use rl_spin::Spin;
use rl_step::{Algo, Standing};
use rl_word::{Class, Knobs, Mode, Spot};
use std::process::Abort;
use std::test::*;

/// Settings that suit every lock; each test names those that its lock reads.
const KNOBS: Knobs = Knobs {
    local: 1,
    remote: 3,
    writers: 2,
    readers: 8,
    group: 3,
};

/// The lock's words have these classes and homes.
fn has_spots<A: Algo>(rt: &impl Abort, lock: &A, spots: &[(Class, u32)]) {
    assert_eq!(rt; lock.words() as usize, spots.len());
    for word in 0..lock.words() {
        let (class, home) = spots[word as usize];
        assert_eq!(rt; lock.spot(word), Spot { class, home }, "of word {word}");
    }
}

/// The view of a rank that was out and has asked.
fn asks<A: Algo>(rt: &impl Abort, lock: &A, rank: u32, mode: Mode) -> A::View
    requires { rank < length (A.layout lock.now).node_of }
{
    let view = lock.first(rank);
    let Standing::Out = lock.standing(view) else {
        panic!(rt; "a rank is out at first");
    };
    let view = lock.ask(view, mode);
    assert_eq!(rt; lock.standing(view), Standing::Asking);
    view
}

#[test]
fn a_spin_lock_is_one_word(rt: HostRuntime) -> Result<(), Fail> {
    let shape = one_node(rt.alloc())?;
    let lock = Spin::make(rt.alloc(), &shape, 0, KNOBS)?;
    has_spots(&rt, &lock, &[(Class::Card, 0)]);
    let view = asks(&rt, &lock, 1, Mode::Read);
    assert_eq!(rt; view.phase, rl_spin::SpinPhase::Trying);
    Ok(())
}

#[test]
fn dmcs_is_a_tail_and_two_words_of_each_rank(rt: HostRuntime) -> Result<(), Fail> {
    let shape = one_node(rt.alloc())?;
    let lock = Dmcs::make(rt.alloc(), &shape, 0, KNOBS)?;
    let plain = (Class::Plain, 0);
    has_spots(&rt, &lock, &[(Class::Card, 0), plain, plain, plain, plain]);
    let view = asks(&rt, &lock, 1, Mode::Read);
    assert_eq!(rt; view.phase, Phase::Clear);
    Ok(())
}

#[test]
fn alock_has_a_rank_at_home_and_one_away(rt: HostRuntime) -> Result<(), Fail> {
    let shape = two_nodes(rt.alloc())?;
    let lock = Alock::make(rt.alloc(), &shape, 0, KNOBS)?;
    let spots = [
        (Class::Local, 0),
        (Class::Card, 0),
        (Class::Plain, 0),
        (Class::Plain, 0),
        (Class::Plain, 0),
        (Class::Plain, 1),
        (Class::Plain, 1),
    ];
    has_spots(&rt, &lock, &spots);
    let view = asks(&rt, &lock, 1, Mode::Read);
    assert_eq!(rt; view.queue.phase, Phase::Clear);
    assert_eq!(rt; view.entry, SettleStage::Announce);
    two_domains();
    Ok(())
}

#[test]
fn cohorts_have_these_numbers(rt: HostRuntime) {
    for (cohort, number, queue) in [(Cohort::Local, 1, 0), (Cohort::Remote, 2, 1)] {
        assert_eq!(rt; cohort.number(), number);
        assert_eq!(rt; cohort.queue(), queue);
        assert_ne!(rt; cohort.other(), cohort);
    }
}

/// The words of a tree over two ranks on each of two nodes, at home on node 1: three tails, then two words of each member.
const TREE_WORDS: [(Class, u32); 15] = [
    (Class::Card, 1),
    (Class::Card, 0),
    (Class::Card, 1),
    (Class::Plain, 0),
    (Class::Plain, 0),
    (Class::Plain, 1),
    (Class::Plain, 1),
    (Class::Plain, 0),
    (Class::Plain, 0),
    (Class::Plain, 0),
    (Class::Plain, 0),
    (Class::Plain, 1),
    (Class::Plain, 1),
    (Class::Plain, 1),
    (Class::Plain, 1),
];

#[test]
fn mcs_is_a_tree(rt: HostRuntime) -> Result<(), Fail> {
    let shape = four_ranks(rt.alloc())?;
    let lock = Mcs::make(rt.alloc(), &shape, 1, KNOBS)?;
    has_spots(&rt, &lock, &TREE_WORDS);
    let view = asks(&rt, &lock, 2, Mode::Read);
    assert_eq!(rt; view.leaf, 2);
    assert_eq!(rt; view.phase, Phase::Clear);
    assert_eq!(rt; view.level, 0);
    Ok(())
}

#[test]
fn rw_is_a_tree_and_a_counter_on_each_node(rt: HostRuntime) -> Result<(), Fail> {
    let shape = four_ranks(rt.alloc())?;
    let lock = Rw::make(rt.alloc(), &shape, 1, KNOBS)?;
    let mut spots = Vec::from_slice(rt.alloc(), &TREE_WORDS)?;
    for home in [0, 0, 1, 1] {
        spots.push((Class::Card, home))?;
    }
    has_spots(&rt, &lock, &spots);
    let writer = asks(&rt, &lock, 2, Mode::Write);
    assert_eq!(rt; writer.tree.phase, Phase::Clear);
    assert_eq!(rt; writer.counter.doing, Doing::Nothing);
    let reader = asks(&rt, &lock, 3, Mode::Read);
    assert_eq!(rt; reader.tree.phase, Phase::Idle);
    assert_eq!(rt; reader.counter.counter, 1);
    assert_eq!(rt; reader.counter.doing, Doing::Arrive);
    let view = lock.first(2);
    let inside = RwView {
        tree: view.tree,
        counter: CounterView {
            counter: 0,
            doing: Doing::Inside,
        },
    };
    assert_eq!(rt; view.counter.counter, 0);
    assert_eq!(rt; lock.standing(inside), Standing::Reader);
    let leaving = lock.leave(inside);
    assert_eq!(rt; lock.standing(leaving), Standing::Leaving);
    assert_eq!(rt; leaving.counter.doing, Doing::Depart);
    Ok(())
}
