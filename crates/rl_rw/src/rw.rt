//! RMA-RW: what a rank does in the tree and at the counters.

ghost use Rattle.std.specs.Prelude.{◌≡◌, ◌++◌, Bool, ◌+◌, ◌-◌, ◌/◌, ◌<◌, ◌≤◌, ◌∷◌, [], List, length, refl, true, false, IfOk, is_some};
ghost use Rattle.rl_step.specs.declared.events.Event.{Event as TheEvent};
ghost use Rattle.rl_word.specs.declared.locks.LockName.TheVariants as TheName;
ghost use Rattle.rl_step.specs.Lock.{told_as};
ghost use Rattle.rl_word.specs.Shapes.{layout_of};
ghost use Rattle.rl_tree.specs.Tree.{entry_if};
ghost use Rattle.rl_tree.specs.TreeShape.{levels_of};
ghost use Rattle.rl_rw.specs.Rw.{shared_of, shared_in, SuitsRw, counters_of, from_tree, after_hook, from_counter, rw_table, BoundsBatches, KeepsBatches};
ghost use Rattle.rl_rw.specs.Fits.{MayLeaveHook, Ends};
ghost use Rattle.rl_rw.specs.RwGood.{RwGood};
ghost use Rattle.rl_rw.specs.laws.SameViews.{same_rw};
ghost use Rattle.rl_rw.specs.laws.RwLaws.{laws_of};

use crate::view::RwView;
use rl_counter::{
    CounterNames, CounterView, Doing, Task, counter_begin, counter_busy, counter_idle,
    counter_learn, counter_plan,
};
use rl_queue::{Phase, rank_words};
use rl_step::{Algo, Event, Events, Standing};
use rl_tree::{Tree, tree_enter};
use rl_word::{Act, Class, Knobs, LockName, Mode, Shape, Spot};
use std::alloc::{AllocError as OutOfMemory, Global};

/// RMA-RW, the lock of Schmid, Besta and Hoefler for remote memory that readers share: writers queue in the tree of elements, whose root
/// has a budget too; readers count themselves in and out, at a counter for each group of ranks. A writer that comes to the hook above
/// the root puts a mark on each counter and waits until nobody is in any; one that leaves takes the marks down there.
///
/// The words of the tree come first, a queue for each element; then the arrive word and the depart word of each counter, card words on
/// the node of the group's first rank. Rank r is of group r / group.
#[derive(Drop)]
pub struct Rw {
    tree: Tree,
    counters: CounterNames,
    /// The node of each rank.
    node_of: Vec<u32>,
    group: u32,
    ghost seated: { node_of.items ≡ tree.rooted.shape.node_of },
    ghost counted: { counters ≡ counters_of (shared_of tree.rooted counters.readers group) },
    ghost limited: { is_some tree.rooted.root ≡ true },
    ghost served: { 0 < counters.readers },
    ghost few: { counters.readers ≤ 1000 },
    ghost grouped: { 0 < group },
    ghost modest: { group ≤ 32 },
}

/// Where the ranks sit.
fn seats(shape: &Shape) -> Result<Vec<u32>, OutOfMemory>
    ensures { IfOk result (λ seats. seats.items ≡ shape.now.node_of) }
{
    shape.node_of.clone()
}

/// How many groups of this size so many ranks make; the last may be short.
fn groups_of(ranks: u32, group: u32) -> u32
    requires ranks { ranks ≤ 32 }
    requires some { 0 < group }
    requires modest { group ≤ 32 }
    ensures groups { result ≡ (ranks + group - 1) / group }
    ensures few { result ≤ 32 }
{
    (ranks + group - 1) / group
}

/// What a rank learnt in the tree, where it now stands so: its entry, where it came in.
#[inline(always)]
fn within_tree(view: &mut RwView, events: &mut Events)
    requires { length (events.old.items ++ entry_if view.old.tree.query view.old.tree.phase view.old.tree.rank) ≤ 8 }
    ensures { (waits : Bool) → told_as view.new events.new.items waits ≡
        from_tree view.old false (told_as view.old.tree events.old.items waits) }
{
    tree_enter(&view.tree, events);
    view.counter = counter_idle(view.counter.counter);
}

/// A rank has come to the hook: it begins to put the marks up, or to take them down.
#[inline(always)]
fn comes_to_hook(view: &mut RwView)
    ensures { (told : List TheEvent) (waits : Bool) → told_as view.new told waits ≡
        from_tree view.old true (told_as view.old.tree told waits) }
{
    let task = match view.tree.phase {
        Phase::Settle => Task::Up,
        _ => Task::Down,
    };
    view.counter = counter_begin(counter_idle(view.counter.counter), task);
}

impl Rw {
    /// A task at the marks has ended: the tree goes on from the hook.
    #[inline(never)]
    fn leaves_hook(&self, view: &mut RwView, events: &mut Events)
        requires may { MayLeaveHook self.now.tree.rooted view.old.tree }
        requires none { events.old.items ≡ [] }
        ensures { told_as view.new events.new.items false ≡
            after_hook (shared_of self.now.tree.rooted self.now.counters.readers self.now.group) view.old }
    {
        self.tree.resume(&mut view.tree, events);
        within_tree(view, events);
    }

    /// What a rank has learnt at the counters, where it does this next: whether a waiting load has to be made again.
    #[inline(always)]
    fn at_counters(
        &self,
        view: &mut RwView,
        counter: CounterView,
        waits: bool,
        events: &mut Events,
    ) -> bool
        requires same { counter.counter ≡ view.old.counter.counter }
        requires ends { Ends self.now.tree.rooted view.old.tree view.old.counter.doing counter.doing }
        requires none { events.old.items ≡ [] }
        ensures { told_as view.new events.new.items result ≡
            from_counter (shared_of self.now.tree.rooted self.now.counters.readers self.now.group) view.old view.old.counter.doing counter.doing waits }
    {
        match counter.doing {
            Doing::Inside => {
                events.push(Event::EnterR {
                    rank: view.tree.rank,
                });
                view.counter = counter;
                waits
            }
            Doing::Nothing => match view.counter.doing {
                Doing::Depart => {
                    view.counter = counter;
                    waits
                }
                _ => {
                    self.leaves_hook(view, events);
                    false
                }
            },
            _ => {
                view.counter = counter;
                waits
            }
        }
    }
}

impl Algo for Rw {
    type View = RwView;

    ghost table = { λ s. rw_table (shared_of s.tree.rooted s.counters.readers s.group) };

    ghost good = { λ s. RwGood (shared_of s.tree.rooted s.counters.readers s.group) (levels_of s.tree.rooted.shape) };

    ghost further = { λ s. KeepsBatches (shared_of s.tree.rooted s.counters.readers s.group) };

    ghost layout = { λ s. layout_of s.tree.rooted.shape };

    ghost defined = { λ shape home knobs. rw_table (shared_in home shape knobs) };

    ghost promised = { λ shape home knobs. BoundsBatches (shared_in home shape knobs) };

    ghost name = { TheName.Rw };

    ghost has_queues = { λ shape home knobs. refl };

    ghost has_shares = { λ shape home knobs. refl };

    ghost has_cohorts = { λ shape home knobs. refl };

    ghost suits_knobs = { SuitsRw };

    fn lock_name() -> LockName {
        LockName::Rw
    }

    /// Makes the lock. Of the settings it reads `writers`, the budget of the root, 0 to 1000; `readers`, how many readers may come to a
    /// counter, 1 to 1000; and `group`, how many ranks share a counter, 1 to 32.
    fn make(alloc: Global, shape: &Shape, home: u32, knobs: Knobs) -> Result<Self, OutOfMemory> {
        let tree = Tree::new(alloc, shape, home, Some(knobs.writers))?;
        let groups = groups_of(shape.node_of.len() as u32, knobs.group);
        let of_tree = tree.words();
        let arrive = rank_words(alloc, of_tree, groups)?;
        let depart = rank_words(alloc, of_tree + 1, groups)?;
        let node_of = seats(shape)?;
        let counters = CounterNames {
            arrive,
            depart,
            root_tail: 0,
            readers: knobs.readers,
        };
        Ok(Rw {
            tree,
            counters,
            node_of,
            group: knobs.group,
        })
    }

    fn words(&self) -> u32 {
        self.tree.words() + 2 * groups_of(self.node_of.len() as u32, self.group)
    }

    fn spot(&self, word: u32) -> Spot {
        let of_tree = self.tree.words();
        if word < of_tree {
            self.tree.spot(word)
        } else {
            let first = (word - of_tree) / 2 * self.group;
            Spot {
                class: Class::Card,
                home: self.node_of[first as usize],
            }
        }
    }

    fn first(&self, rank: u32) -> RwView {
        RwView {
            tree: self.tree.first(rank),
            counter: counter_idle(rank / self.group),
        }
    }

    fn ask(&self, view: RwView, mode: Mode) -> RwView {
        match mode {
            Mode::Read => RwView {
                tree: view.tree,
                counter: counter_begin(view.counter, Task::Enter),
            },
            Mode::Write => RwView {
                tree: view.tree.join(),
                counter: counter_idle(view.counter.counter),
            },
        }
    }

    #[inline(always)]
    fn plan(&self, view: RwView) -> Option<Act> {
        if counter_busy(view.counter) {
            counter_plan(view.counter, &self.counters)
        } else {
            self.tree.plan(view.tree)
        }
    }

    #[inline(always)]
    fn learn(&self, view: &mut RwView, got: u64, events: &mut Events) -> bool {
        if counter_busy(view.counter) {
            let turn = counter_learn(view.counter, &self.counters, got);
            return self.at_counters(view, turn.view, turn.waits, events);
        }
        let waits = self.tree.learn(&mut view.tree, got, events);
        if view.tree.is_at_hook() {
            comes_to_hook(view);
        } else {
            within_tree(view, events);
        }
        waits
    }

    fn leave(&self, view: RwView) -> RwView {
        match view.counter.doing {
            Doing::Inside => RwView {
                tree: view.tree,
                counter: counter_begin(view.counter, Task::Exit),
            },
            _ => RwView {
                tree: view.tree.leave(),
                counter: view.counter,
            },
        }
    }

    #[inline(always)]
    fn standing(&self, view: RwView) -> Standing {
        match view.counter.doing {
            Doing::Nothing => view.tree.standing(),
            Doing::Inside => Standing::Reader,
            Doing::Depart | Doing::TakeOut { .. } | Doing::TakeOff { .. } => Standing::Leaving,
            _ => Standing::Asking,
        }
    }

    ghost same_views = { same_rw };

    ghost laws = { λ s. laws_of s.tree.rooted s.counters.readers s.group s.tree.laid s.limited s.few s.grouped };
}
