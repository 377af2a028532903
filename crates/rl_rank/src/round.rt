//! How it is seen that a rank goes in a round of two loads of the lock.

ghost use Rattle.std.specs.Prelude.{◌≡◌, length, IfSome};
ghost use Rattle.rl_core.specs.Rounds.{IsRoundOfAll};
ghost use Rattle.rl_step.specs.Core.{MayBe};
ghost use Rattle.rl_rank.specs.Running.{lock_at, tables, goods};
ghost use Rattle.rl_rank.specs.SeenLoads.{with_lock, IsAtLoad, IsSeenLoad};
ghost use Rattle.rl_rank.specs.Whole.{rule_of};
ghost use Rattle.rl_rank.specs.WholeShards.{shard_at};

use crate::card_state::CardState;
use crate::whole::{Whole, WholeView};
use rl_core::{Leg, Round};
use rl_step::{Algo, Events, Words};
use rl_word::Act;
use rl_work::Work;

/// The load that a rank with this view of the lock, in no card, makes next on these words, where it makes one with which nothing
/// happens.
#[inline(always)]
fn seen_leg<A: Algo, W: Work>(
    core: &Whole<A, W>,
    view: A::View,
    words: &Words,
) -> Option<Leg<A::View>>
    requires { IsAtLoad (rule_of (tables A.table W.table) (goods A.good W.good) A.layout core.now) words.now view }
    ensures { IfSome result (IsSeenLoad (lock_at (tables A.table W.table) core.now) words.now view) }
{
    let Act::Load { word } = core.algo.plan(view)? else {
        return None;
    };
    let at = core.base + word;
    let value = words.value(at);
    let mut events = Events::new();
    let mut next = view;
    let waits = core.algo.learn(&mut next, value, &mut events);
    if events.is_empty() {
        Some(Leg {
            word: at,
            value,
            waits,
            sight: next,
        })
    } else {
        None
    }
}

/// The round of two loads in which a rank with this view goes on these words, if it is in one: after both its view is the same again.
#[inline(always)]
pub fn seen_round<A: Algo, W: Work>(
    core: &Whole<A, W>,
    view: &WholeView<A::View, W::Side>,
    words: &Words,
) -> Option<Round<A::View>>
    requires { (s : MayBe (rule_of (tables A.table W.table) (goods A.good W.good) A.layout core.now) view.now) × (s.held ≡ words.now) }
    ensures { IfSome result (IsRoundOfAll (shard_at (tables A.table W.table) core.now) with_lock (length words.now.words) view.now) }
{
    let CardState::Free = view.side.card else {
        return None;
    };
    let here = seen_leg(core, view.side.view, words)?;
    let there = seen_leg(core, here.sight, words)?;
    if there.sight == view.side.view {
        Some(Round { here, there })
    } else {
        None
    }
}
