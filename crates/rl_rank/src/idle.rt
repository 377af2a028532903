//! Atoms of which it is seen beforehand that they change nothing.

ghost use Rattle.std.specs.Prelude.{◌≡◌, Some, None, IfSome};
ghost use Rattle.rl_word.specs.declared.acts.Act.{Act as TheAct};
ghost use Rattle.rl_core.specs.Idle.{SeenWaiting};
ghost use Rattle.rl_step.specs.Core.{MayBe};
ghost use Rattle.rl_rank.specs.Running.{tables, goods};
ghost use Rattle.rl_rank.specs.Whole.{rule_of};
ghost use Rattle.rl_rank.specs.WholeShards.{shard_at};

use crate::card_state::CardState;
use crate::whole::{Whole, WholeView};
use rl_step::{Algo, Core, Events, Stepped, Words};
use rl_word::{Act, Atom};
use rl_work::Work;

/// The answer of a load of the lock, where its test isn't met, and the lock's view stays as it was: it changes nothing, and is answered by
/// Waiting. `None` says nothing of the atom.
#[inline(always)]
fn lock_waits<A: Algo, W: Work>(
    core: &Whole<A, W>,
    view: &WholeView<A::View, W::Side>,
    words: &Words,
    word: u32,
) -> Option<Stepped>
    requires may { (s : MayBe (rule_of (tables A.table W.table) (goods A.good W.good) A.layout core.now) view.now) × (s.held ≡ words.now) }
    requires free { view.now.side.card ≡ CardState.Free }
    requires planned { (A.table core.now.algo).plan view.now.side.view ≡ Some (TheAct.Load word) }
    ensures { IfSome result (SeenWaiting (shard_at (tables A.table W.table) core.now) words.now view.now) }
{
    let at = core.base + word;
    let value = words.value(at);
    let mut events = Events::new();
    let mut lock = view.side.view;
    let waits = core.algo.learn(&mut lock, value, &mut events);
    if waits && events.is_empty() && lock == view.side.view {
        Some(Stepped::Waiting { word: at, value })
    } else {
        None
    }
}

/// The answer of the work's next atom, where the lock plans nothing, and it is seen to be a load by which the rank waits on: it changes
/// nothing, and is answered by Waiting. `None` says nothing of the atom.
#[inline(always)]
fn work_waits<A: Algo, W: Work>(
    core: &Whole<A, W>,
    view: &WholeView<A::View, W::Side>,
    words: &Words,
) -> Option<Stepped>
    requires may { (s : MayBe (rule_of (tables A.table W.table) (goods A.good W.good) A.layout core.now) view.now) × (s.held ≡ words.now) }
    requires free { view.now.side.card ≡ CardState.Free }
    requires planned { (A.table core.now.algo).plan view.now.side.view ≡ None }
    ensures { IfSome result (SeenWaiting (shard_at (tables A.table W.table) core.now) words.now view.now) }
{
    let next = core.next(view)?;
    let Atom::Load { word } = next.0 else {
        return None;
    };
    let value = words.value(word);
    if core.work.waits_on(view.rank, &view.work, word, value) {
        Some(Stepped::Waiting { word, value })
    } else {
        None
    }
}

/// The answer of a view's next atom on these words and cards, where it is seen that the atom is a load, of the lock or of the work, by
/// which its rank waits on as it stands. `None` says nothing of the atom.
#[inline(always)]
pub fn waits<A: Algo, W: Work>(
    core: &Whole<A, W>,
    view: &WholeView<A::View, W::Side>,
    words: &Words,
) -> Option<Stepped>
    requires { (s : MayBe (rule_of (tables A.table W.table) (goods A.good W.good) A.layout core.now) view.now) × (s.held ≡ words.now) }
    ensures { IfSome result (SeenWaiting (shard_at (tables A.table W.table) core.now) words.now view.now) }
{
    let CardState::Free = view.side.card else {
        return None;
    };
    match core.algo.plan(view.side.view) {
        Some(Act::Load { word }) => lock_waits(core, view, words, word),
        Some(_) => None,
        None => work_waits(core, view, words),
    }
}
