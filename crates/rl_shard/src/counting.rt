//! A rank's machine on one shard, with the rank's tallies of the queues.

ghost use Rattle.std.specs.Prelude.{◌≡◌, ◌≤◌, [], false, length};
ghost use Rattle.rl_step.specs.Core.{MayBe};
ghost use Rattle.rl_shard.specs.Counting.{counted_table, counting_rule};
ghost use Rattle.rl_shard.specs.laws.CountingLaws.{counting_laws};

use crate::tallies::Tallies;
use rl_core::ShardCore;
use rl_model::Call;
use rl_step::{Core, Events, Plan, Stepped};
use rl_word::Atom;

/// What a rank knows between two of its atoms, and what it has counted.
#[derive(Drop)]
pub struct CountedView<V: Drop> {
    /// Its view of the shard's core.
    pub whole: V,
    /// How often its acts settled and passed each queue.
    pub tallies: Tallies,
}

/// A rank's machine for one shard, which counts what its atoms do to the queues. All else is as the shard's core does it.
#[derive(Drop)]
pub struct Counting<C: ShardCore> {
    /// The shard's core.
    pub whole: C,
}

impl<C: ShardCore> Core for Counting<C> {
    type View = CountedView<C::View>;

    ghost table = { λ c. counted_table (C.says c.whole).table.core };

    ghost plan_of = { λ c x. C.plan_of c.whole x.whole };

    ghost rule = { counting_rule C.says };

    #[inline(always)]
    fn next(&self, view: &CountedView<C::View>) -> Option<(Atom, Plan)> {
        self.whole.next(&view.whole)
    }

    #[inline(always)]
    fn after(
        &self,
        view: &mut CountedView<C::View>,
        plan: Plan,
        got: u64,
        events: &mut Events,
    ) -> Stepped {
        let stepped = self.whole.after(&mut view.whole, plan, got, events);
        view.tallies.count(events.as_slice());
        stepped
    }

    fn home(&self, word: u32) -> u32 {
        self.whole.home(word)
    }

    ghost laws = { counting_laws C.says C.shard_laws C.rule C.ruled C.table C.same_table C.laws };
}

impl<C: ShardCore> Counting<C> {
    /// Whether a block of the view is open.
    pub fn is_open(&self, view: &CountedView<C::View>) -> bool
        requires { MayBe (counting_rule C.says self.now) view.now }
        ensures { result ≡ ((C.says self.now.whole).table.own view.now.whole).is_open }
    {
        self.whole.is_open(&view.whole)
    }

    /// Opens a block, where none is open; `seq` is the number of its first call. It counts nothing and takes no memory.
    pub fn open_block(&self, view: &mut CountedView<C::View>, calls: &[Call], seq: u32)
        requires few { length calls.now ≤ 8 }
        requires closed { ((C.says self.now.whole).table.own view.old.whole).is_open ≡ false }
        requires possible { MayBe (counting_rule C.says self.now) view.old }
        ensures { view.new ≡ record view.old { whole = (C.says self.now.whole).table.opened calls.now seq view.old.whole } }
    {
        self.whole.open_block(&mut view.whole, calls, seq);
    }
}
