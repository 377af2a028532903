//! What a rank does in the queues on its path.

ghost use Rattle.std.specs.Prelude.{◌≡◌, ◌↔◌, ◌⊎◌, ℕ, None, true, false, ◌+◌, ◌<◌, ◌≤◌, ◌++◌, [], List, length};
ghost use Rattle.rl_step.specs.declared.events.Event.{Event as TheEvent};
ghost use Rattle.rl_step.specs.Lock.{Rests, told_as};
ghost use Rattle.rl_queue.specs.Queue.{full_budget, resume_at};
ghost use Rattle.rl_queue.specs.Lane.{told_left};
ghost use Rattle.rl_tree.specs.Tree.{path, behind_at, leaves_behind, member_at as the_member, inside_from, settles_below, comes_in as the_entry, goes_up as the_rise, gives_up as the_release, goes_down as the_descent, tree_walk as the_walk, tree_plan, tree_standing, tree_learn, at_hook, resume_by, entry_if};
ghost use Rattle.rl_tree.specs.Elements.{how_many, tree_of};
ghost use Rattle.rl_tree.specs.Fits.{IsPlaced, MayPlan, TreeMayLearn, StatusFits};

use crate::tree::Tree;
use crate::view::TreeView;
use rl_queue::{Phase, QueueView, queue_learn, queue_plan, queue_resume};
use rl_step::{Event, Events};
use rl_word::Act;

/// The passes that a member has that has settled.
fn full(budget: Option<u32>) -> u32
    ensures { result ≡ full_budget budget }
{
    match budget {
        None => 0,
        Some(passes) => passes,
    }
}

/// How many passes a status leaves.
fn passes_told(budget: Option<u32>, status: u64) -> u32
    requires { StatusFits budget status }
    ensures { result ≡ told_left budget status }
{
    if status < 2 {
        full(budget)
    } else {
        match budget {
            None => 0,
            Some(_) => (status - 2) as u32,
        }
    }
}

/// The phase of one that has given up what is above.
fn resumed(successor: Option<u32>) -> Phase
    ensures { result ≡ resume_at (Phase.Above successor) }
{
    queue_resume(QueueView {
        member: 0,
        phase: Phase::Above { successor },
    })
    .phase
}

/// The successor that a rank has found at a level below.
fn behind(view: &TreeView, level: u32) -> Option<u32>
    requires { level < 3 }
    ensures { result ≡ behind_at view.now.behind level }
{
    view.behind[level as usize]
}

/// One that has left the queue at a level goes on in the queue below.
fn goes_down(view: &mut TreeView, level: u32)
    requires { level ≤ 3 }
    ensures { (told : List TheEvent) → the_descent view.old level told ≡ record { view = view.new; events = told; waits = false } }
{
    if level == 0 {
        view.go_to(0, Phase::Idle);
    } else {
        let below = level - 1;
        let phase = resumed(behind(view, below));
        view.go_to(below, phase);
    }
}

/// One that must settle works for its element one level up, but at the root it stands at the hook.
fn goes_up(top: bool, view: &mut TreeView, level: u32)
    requires { level ≤ 3 }
    ensures { (told : List TheEvent) → the_rise top view.old level told ≡ record { view = view.new; events = told; waits = false } }
{
    if top {
        view.go_to(level, Phase::Settle);
    } else {
        view.go_to(level + 1, Phase::Clear);
    }
}

/// Notes the successor that a rank has found at a level.
fn leave_behind(view: &mut TreeView, level: u32, successor: Option<u32>)
    ensures { view.new ≡ leaves_behind view.old level successor }
{
    if level < 3 {
        view.behind[level as usize] = successor;
    }
}

/// One that gives up what is above loads the status of its element one level up, but at the root it stands at the hook.
fn gives_up(top: bool, view: &mut TreeView, level: u32, successor: Option<u32>)
    requires { level ≤ 3 }
    ensures { (told : List TheEvent) → the_release top view.old level successor told ≡ told_as view.new told false }
{
    leave_behind(view, level, successor);
    if top {
        view.go_to(level, Phase::Above { successor });
    } else {
        view.go_to(level + 1, Phase::Idle);
        view.query = true;
    }
}

/// Who is inside enters: this stands behind what was told before.
#[inline(always)]
pub fn tree_enter(view: &TreeView, events: &mut Events)
    requires { length (events.old.items ++ entry_if view.now.query view.now.phase view.now.rank) ≤ 8 }
    ensures { events.new.items ≡ events.old.items ++ entry_if view.now.query view.now.phase view.now.rank }
{
    if !view.query && matches!(view.phase, Phase::Granted { .. }) {
        events.push(Event::EnterW { rank: view.rank });
    }
}

impl Tree {
    /// The member for which a rank works at a level.
    #[inline(always)]
    fn member_at(&self, rank: u32, leaf: u32, level: u32) -> u32
        requires low { level ≤ 3 }
        requires there { leaf < how_many self.now.rooted }
        ensures { result ≡ the_member (tree_of self.now.rooted) rank leaf level }
    {
        if level == 0 {
            rank
        } else {
            self.element_at(leaf, level - 1)
        }
    }

    /// The rank settles in all queues below a level, from the upper one down.
    fn settle_below(&self, view: &TreeView, level: u32, events: &mut Events)
        requires low { level ≤ 3 }
        requires room { length events.old.items ≤ 4 }
        requires there { (j : ℕ) → j < level → path (tree_of self.now.rooted) view.now.leaf j < how_many self.now.rooted }
        ensures { events.new.items ≡ events.old.items ++ settles_below (tree_of self.now.rooted) view.now level }
    {
        for step in 0..level {
            let below = level - 1 - step;
            let element = self.element_at(view.leaf, below);
            let member = self.member_at(view.rank, view.leaf, below);
            events.push(Event::Settle {
                queue: self.names(element).queue,
                member,
            });
        }
    }

    /// The phase in its node's queue of a rank that has come in from a level.
    fn inside(&self, view: &TreeView, level: u32, left: u32) -> Phase
        requires { view.now.leaf < how_many self.now.rooted }
        ensures { result ≡ inside_from (tree_of self.now.rooted) view.now level left }
    {
        if level == 0 {
            Phase::Granted { left }
        } else {
            Phase::Granted {
                left: full(self.names(view.leaf).budget),
            }
        }
    }

    /// A rank that has been given the queue at a level settles in all queues below, and is inside.
    #[inline(never)]
    fn comes_in(&self, view: &mut TreeView, level: u32, left: u32, told: &mut Events)
        requires low { level ≤ 3 }
        requires room { length told.old.items ≤ 4 }
        requires there { (j : ℕ) → j ≤ level → path (tree_of self.now.rooted) view.old.leaf j < how_many self.now.rooted }
        ensures { the_entry (tree_of self.now.rooted) view.old level left told.old.items ≡ told_as view.new told.new.items false }
    {
        self.settle_below(view, level, told);
        let phase = self.inside(view, level, left);
        view.go_to(0, phase);
    }

    /// Goes on from what a rank's turn at a level led to: the phase there, and whether the load has to be made again.
    #[inline(always)]
    fn walk(
        &self,
        view: &mut TreeView,
        level: u32,
        phase: Phase,
        waits: bool,
        told: &mut Events,
    ) -> bool
        requires low { level ≤ 3 }
        requires room { length told.old.items ≤ 4 }
        requires there { (j : ℕ) → j ≤ level → path (tree_of self.now.rooted) view.old.leaf j < how_many self.now.rooted }
        ensures { told_as view.new told.new.items result ≡ the_walk (tree_of self.now.rooted) view.old level phase told.old.items waits }
    {
        match phase {
            Phase::Settle => goes_up(self.is_top(view.leaf, level), view, level),
            Phase::Granted { left } => self.comes_in(view, level, left, told),
            Phase::Above { successor } => {
                gives_up(self.is_top(view.leaf, level), view, level, successor);
            }
            Phase::Idle => goes_down(view, level),
            _ => {
                view.go_to(level, phase);
                return waits;
            }
        }
        false
    }

    /// The act that a rank makes next; none where it is out, inside, or at the hook.
    #[inline(always)]
    pub fn plan(&self, view: TreeView) -> Option<Act>
        requires { MayPlan self.now.rooted view }
        ensures is { result ≡ tree_plan (tree_of self.now.rooted) view }
        ensures acts { (result ≡ None) ↔ (Rests (tree_standing view) ⊎ (at_hook view ≡ true)) }
    {
        let member = self.member_at(view.rank, view.leaf, view.level);
        let names = self.names(self.element_at(view.leaf, view.level));
        if view.query {
            Some(Act::Load {
                word: names.status[member as usize],
            })
        } else {
            queue_plan(
                QueueView {
                    member,
                    phase: view.phase,
                },
                names,
            )
        }
    }

    /// What a rank learns where its planned act told `got`: its view changes, and a waiting load may have to be made again. The joins,
    /// passes and settlements in all its queues are put into `events`, which is empty. The rank may come to the hook.
    #[inline(always)]
    pub fn learn(&self, view: &mut TreeView, got: u64, events: &mut Events) -> bool
        requires fits { MayPlan self.now.rooted view.old }
        requires got { TreeMayLearn self.now.rooted view.old got }
        requires none { events.old.items ≡ [] }
        ensures { told_as view.new events.new.items result ≡ tree_learn (tree_of self.now.rooted) view.old got }
    {
        let level = view.level;
        let member = self.member_at(view.rank, view.leaf, level);
        let names = self.names(self.element_at(view.leaf, level));
        if view.query {
            let left = passes_told(names.budget, got);
            let upper = names.budget.is_some();
            view.go_to(level, Phase::Look { left, upper });
            false
        } else {
            let queue = QueueView {
                member,
                phase: view.phase,
            };
            let turn = queue_learn(queue, names, got, events);
            self.walk(view, level, turn.view.phase, turn.waits, events)
        }
    }

    /// Goes on from the hook: a head of the root settles, and with it all queues below; a leaver hands the root over. What was told
    /// before stands first among the events, for a lock that goes on in the same act. The rank's round is over with it.
    #[inline(never)]
    pub fn resume(&self, view: &mut TreeView, told: &mut Events)
        requires hooked { at_hook view.old ≡ true }
        requires placed { IsPlaced self.now.rooted view.old }
        requires room { length told.old.items ≤ 3 }
        ensures { resume_by (tree_of self.now.rooted) view.old view.old.phase told.old.items ≡ told_as view.new told.new.items false }
    {
        let level = view.level;
        match view.phase {
            Phase::Above { successor } => view.go_to(level, resumed(successor)),
            _ => {
                let names = self.names(self.element_at(view.leaf, level));
                told.push(Event::Settle {
                    queue: names.queue,
                    member: self.member_at(view.rank, view.leaf, level),
                });
                self.comes_in(view, level, full(names.budget), told)
            }
        }
    }
}
