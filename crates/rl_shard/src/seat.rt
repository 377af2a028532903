//! A rank's seat at a shard.

ghost use Rattle.std.specs.Prelude.{◌≡◌, ◌∷◌, [], false, length};
ghost use Rattle.rl_core.specs.Desks.{OpensBlock};
ghost use Rattle.rl_shard.specs.Tallies.{tally_at};
ghost use Rattle.rl_shard.specs.Shards.{IsOf, IsClosed, FitsSeat, table_at, view_at, desk_at, tallies_at, entries_at, rank_at, steps_at};
ghost use Rattle.rl_shard.specs.Steps.{IsSeatStep};

use crate::counting::Counting;
use crate::shard::Shard;
use crate::stepping::step;
use rl_core::ShardCore;
use rl_model::{Call, Entry};
use rl_step::{Events, Stepped, Tally};
use rl_window::WinSeat;

/// The seat of a rank at a shard: the one right to act as the rank there.
///
/// It goes to whatever thread acts for the rank, and the shard is shared by all. A seat that is dropped leaves its shard as it is; the
/// shard can't be closed any more.
#[derive(Drop)]
pub struct Seat<C: ShardCore> {
    pub(crate) seat: WinSeat<Counting<C>>,
}

impl<C: ShardCore> Seat<C> {
    /// The number of the rank.
    pub fn rank(&self) -> u32
        ensures { result ≡ rank_at self.now }
    {
        self.seat.rank()
    }

    /// The rank's entries on the shard, as its view has them, in the order in which they were done.
    ///
    /// The shard is the seat's.
    pub fn transcript<'a>(&'a self, shard: &Shard<C>) -> &'a [Entry]
        ensures { result.now ≡ entries_at C.says shard.now self.now }
    {
        shard.core().entries(&self.seat.view().whole)
    }

    /// How often the rank's acts settled and passed a queue of the lock. One that isn't there was never settled or passed.
    pub fn tally(&self, queue: usize) -> Tally
        ensures { result ≡ tally_at queue (tallies_at self.now) }
    {
        self.seat.view().tallies.tally(queue)
    }

    /// How many queues have a tally.
    pub(crate) fn queues(&self) -> usize
        ensures { result ≡ length (tallies_at self.now) }
    {
        self.seat.view().tallies.len()
    }

    /// Whether a block is open: it is from `begin` on until its last atom was made, that of leaving a card among them.
    ///
    /// The seat is the shard's.
    pub fn is_open(&self, shard: &Shard<C>) -> bool
        requires { IsOf C.says shard.now self.now }
        ensures { result ≡ (desk_at C.says shard.now self.now).is_open }
    {
        shard.window.core().is_open(self.seat.view())
    }

    /// Opens a call alone, where no block is open: it is open then. It makes no table step and takes no memory.
    ///
    /// The seat is the shard's. The call is one of the shard, its number `seq` greater than those of all the rank's entries here, and
    /// the seat has room for it: for one more entry, and where it is an update, for one more update.
    pub fn begin(&mut self, shard: &Shard<C>, call: Call, seq: u32)
        requires seat { IsOf C.says shard.now self.old }
        requires closed { IsClosed C.says shard.now self.old }
        requires open { FitsSeat C.says shard.now self.old (call ∷ []) seq }
        ensures seat { IsOf C.says shard.now self.new }
        ensures rank { rank_at self.new ≡ rank_at self.old }
        ensures opened { view_at self.new ≡ (table_at C.says shard.now).opened (call ∷ []) seq (view_at self.old) }
        ensures desk { OpensBlock (call ∷ []) seq (desk_at C.says shard.now self.old) (desk_at C.says shard.now self.new) }
        ensures tallies { tallies_at self.new ≡ tallies_at self.old }
        ensures no_step { steps_at self.new ≡ steps_at self.old }
    {
        self.begin_batch(shard, &[call], seq);
    }

    /// Opens a block, where none is open: a call alone, or a batch, whose calls are done as one: all of them, or none where one is
    /// answered that it can't be done. It makes no table step and takes no memory.
    ///
    /// The seat is the shard's, and so are the calls. A batch has 2 to 8 calls, all updates; where the shard's core does no batches, the
    /// block is a call alone. The first call has the number `seq`, and the others the numbers after it, which are below 2^32; `seq` is
    /// greater than the numbers of all the rank's entries here; and the seat has room for them: for so many more entries and updates.
    pub fn begin_batch(&mut self, shard: &Shard<C>, calls: &[Call], seq: u32)
        requires seat { IsOf C.says shard.now self.old }
        requires closed { IsClosed C.says shard.now self.old }
        requires open { FitsSeat C.says shard.now self.old calls.now seq }
        requires takes { (table_at C.says shard.now).batches ≡ false → length calls.now ≡ 1 }
        ensures seat { IsOf C.says shard.now self.new }
        ensures rank { rank_at self.new ≡ rank_at self.old }
        ensures opened { view_at self.new ≡ (table_at C.says shard.now).opened calls.now seq (view_at self.old) }
        ensures desk { OpensBlock calls.now seq (desk_at C.says shard.now self.old) (desk_at C.says shard.now self.new) }
        ensures tallies { tallies_at self.new ≡ tallies_at self.old }
        ensures no_step { steps_at self.new ≡ steps_at self.old }
    {
        shard
            .window
            .core()
            .open_block(self.seat.view_mut(), calls, seq);
    }

    /// Makes one step of the rank: Finished exactly where no block is open, and then nothing has changed; else its next atom, in
    /// exactly one table step. It takes no memory and never waits.
    ///
    /// The seat is the shard's. Other answers:
    ///
    /// - Waiting: the atom was the last load of a waiting round and gave this value of this word, and the round's test isn't met.
    /// - Lost: the atom compared this guess with the word and saw another value; or a get that reads without the lock began with
    ///   this version and saw another one at its end.
    /// - Busy: the atom would take this node's card, and this rank was in it.
    /// - Moved: none of these.
    ///
    /// A rank that is alone on the shard is never answered Waiting, Lost or Busy.
    pub fn step(&mut self, shard: &Shard<C>) -> Stepped
        requires seat { IsOf C.says shard.now self.old }
        ensures step { IsSeatStep C.says shard.now self.old self.new result }
    {
        self.step_with(shard, &mut Events::new())
    }

    /// The same step with a list for its events, which is empty before and after: who makes many steps makes the list but once.
    #[inline(always)]
    pub fn step_with(&mut self, shard: &Shard<C>, events: &mut Events) -> Stepped
        requires seat { IsOf C.says shard.now self.old }
        requires none { events.old.items ≡ [] }
        ensures none { events.new.items ≡ [] }
        ensures step { IsSeatStep C.says shard.now self.old self.new result }
    {
        let stepped = step(&shard.window, &mut self.seat, events);
        events.clear();
        stepped
    }
}
