//! What a lock is: one shard's lock, as every layer above sees it.

ghost use Rattle.std.specs.Prelude.{◌≡◌, ◌<◌, ℕ, true, [], length, List, IfOk};
ghost use Rattle.rl_step.specs.declared.events.Event.{Event as TheEvent};
ghost use Rattle.rl_word.specs.declared.locks.LockName.{LockName as TheName};
ghost use Rattle.rl_word.specs.declared.shapes.Knobs.{Knobs as TheKnobs};
ghost use Rattle.rl_word.specs.Acts.{Layout};
ghost use Rattle.rl_word.specs.Shapes.{TheShape, IsProper, layout_of};
ghost use Rattle.rl_step.specs.LockQueues.{AreQueuesOf, readers_share, cohorts_of};
ghost use Rattle.rl_step.specs.Lock.{LockTable, LockState, LockLaws, Deed, MayStep, MayLearn, IsHolder};
ghost use Rattle.rl_step.specs.Transitions.{Transition as TheTransition};
ghost use Rattle.rl_step.specs.Batches.{HandsOn};

use crate::event_list::Events;
use crate::events::Standing;
use rl_word::{Act, Knobs, LockName, Mode, Shape, Spot};
use std::alloc::{AllocError as OutOfMemory, Global};

/// One shard's lock, in words numbered from 0 that are all 0 at first.
///
/// A rank keeps a view of it, which is a value: it asks, makes the acts that its view plans and learns what each told,
/// until it holds the lock; once its work is done it leaves, and makes acts again until it is out. A lock knows nothing
/// of cards: an act through a card counts as one step, at the moment of its store, or of its load where it writes nothing.
///
/// Which events it tells of its queues (Join, Announce, Settle, Pass) is the lock's own word: the laws ask that they agree with one
/// another, with the queues of its name and with who holds it. What ties them to the words of a queue is proved of each lock apart.
pub trait Algo: Sized + Drop {
    type View: Copy + PartialEq;

    /// The lock as plain functions, which the methods compute.
    ghost table: { Self → LockTable Self.View };

    /// Which states the lock can come to, and more that are as good.
    ghost good: { Self → LockState Self.View → Type 0 };

    /// What the lock says of all events and acts so far, beyond the laws of every lock. It is the lock's own way to say it: what is promised
    /// (`promised`) speaks of no act.
    ghost further: { Self → List TheEvent → List Deed → Type 0 };

    /// Where the ranks sit.
    ghost layout: { Self → Layout };

    /// The lock as it is defined: by a shape, the home of the shard, and the settings.
    ghost defined: { TheShape → ℕ → TheKnobs → LockTable Self.View };

    /// What is promised beyond the laws of every lock, by the same three: of all events so far, and of all atoms, of each its words before and
    /// after it and what it told.
    ghost promised: { TheShape → ℕ → TheKnobs → List TheEvent → List TheTransition → Type 0 };

    /// The lock's name.
    ghost name: { TheName };

    /// Its queues are those of the lock of that name: so their members and budgets are the placement's, and not the lock's own
    /// word.
    ghost has_queues: { AreQueuesOf name (λ shape home knobs. (defined shape home knobs).queues) };

    /// And readers share it where the lock of that name is shared.
    ghost has_shares: { (shape : TheShape) (home : ℕ) (knobs : TheKnobs) → (defined shape home knobs).shares ≡ readers_share name };

    /// And its cohorts are those of the lock of that name.
    ghost has_cohorts: { (shape : TheShape) (home : ℕ) (knobs : TheKnobs) → (defined shape home knobs).cohort ≡ cohorts_of name };

    /// The settings that the lock reads are in their ranges, and the shape has what it needs.
    ghost suits_knobs: { TheShape → TheKnobs → Type 0 };

    /// The lock's name: by it others know what queues it has.
    fn lock_name() -> LockName
        ensures { result ≡ name };

    /// Makes the lock of a shard whose home is this node of a proper shape.
    fn make(alloc: Global, shape: &Shape, home: u32, knobs: Knobs) -> Result<Self, OutOfMemory>
        requires proper { IsProper shape.now }
        requires home { home < shape.now.nodes }
        requires knobs { suits_knobs shape.now knobs }
        ensures defined { IfOk result (λ a. table a ≡ defined shape.now home knobs) }
        ensures promised { IfOk result (λ a. HandsOn (further a) (promised shape.now home knobs)) }
        ensures layout { IfOk result (λ a. layout a ≡ layout_of shape.now) };

    /// How many words the lock has.
    fn words(&self) -> u32
        ensures { result ≡ (table self.now).size };

    /// The class and home of a word, one of the lock's.
    fn spot(&self, word: u32) -> Spot
        requires { word < (table self.now).size }
        ensures { result ≡ (table self.now).spot word };

    /// The view of a rank, one of the shape's, before its first call.
    fn first(&self, rank: u32) -> Self::View
        requires { rank < length (layout self.now).node_of }
        ensures { result ≡ (table self.now).first rank };

    /// The view once the rank has asked for the lock. It stands Out.
    fn ask(&self, view: Self::View, mode: Mode) -> Self::View
        requires { (table self.now).standing view ≡ Standing.Out }
        ensures { result ≡ (table self.now).ask view mode };

    /// The act that the rank makes next; none exactly where it is out or holds the lock.
    fn plan(&self, view: Self::View) -> Option<Act>
        requires { MayStep (good self.now) view }
        ensures { result ≡ (table self.now).plan view };

    /// What the rank learns, by which its view changes: `got` is what its planned act found before it wrote, and 0 for a store. What
    /// happened with the act is put into `events`, which is empty. Whether it waits: the act was the last of a round that has to be made
    /// again.
    fn learn(&self, view: &mut Self::View, got: u64, events: &mut Events) -> bool
        requires may { MayLearn (table self.now) (good self.now) view.old got }
        requires none { events.old.items ≡ [] }
        ensures { record { view = view.new; events = events.new.items; waits = result } ≡ (table self.now).learn view.old got };

    /// The view once a holder's work is done.
    fn leave(&self, view: Self::View) -> Self::View
        requires { IsHolder ((table self.now).standing view) }
        ensures { result ≡ (table self.now).leave view };

    /// How the rank stands.
    fn standing(&self, view: Self::View) -> Standing
        ensures { result ≡ (table self.now).standing view };

    /// Views that `==` finds equal are one: so it is seen where a rank that waits stands still.
    ghost same_views: { (x y : Self.View) → Self.View.eq x y ≡ true → x ≡ y };

    /// The laws of a lock.
    ghost laws: { (a : Self) → LockLaws (table a) (good a) (further a) (layout a) };
}
