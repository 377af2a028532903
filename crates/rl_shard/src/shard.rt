//! A shard that threads share.

ghost use Rattle.std.specs.Prelude.{◌≡◌, ◌≤◌, ◌<◌, ◌^◌, length, map, replicate, sum, IfOk, IfErr, vec_len};
ghost use Rattle.rl_model.specs.Geom.{GeomFits};
ghost use Rattle.rl_word.specs.Shapes.{IsProper, layout_of};
ghost use Rattle.rl_step.specs.LockQueues.{queues_of};
ghost use Rattle.rl_core.specs.ShardTables.{site_with};
ghost use Rattle.rl_window.specs.Seats.{HasSeats};
ghost use Rattle.rl_shard.specs.Counting.{counting_rule};
ghost use Rattle.rl_shard.specs.Shards.{IsShardOf, AreOf, AreClosed, AreFirst, core_at, table_at, counting_at, counted_at};
ghost use Rattle.rl_shard.specs.Starts.{IsStart};
ghost use Rattle.rl_shard.specs.Ends.{IsEnd};

use crate::closed::Closed;
use crate::closing::{Parts, finish, give_seats, take_parts, take_seats};
use crate::counting::{CountedView, Counting};
use crate::opening::first_views;
use crate::seat::Seat;
use rl_core::{ShardCore, first_words};
use rl_model::Geom;
use rl_ops::Room;
use rl_site::Site;
use rl_step::queue_count;
use rl_window::Window;
use rl_word::{Knobs, Shape};
use std::alloc::{AllocError as OutOfMemory, Global};

/// One shard of the table, whose window threads share. Its ranks act on it by their seats.
#[derive(Drop)]
pub struct Shard<C: ShardCore> {
    pub(crate) window: Window<Counting<C>>,
    pub(crate) alloc: Global,
}

impl<C: ShardCore> Shard<C> {
    /// A shard before its first block, and a seat for each rank, in the order of the ranks.
    ///
    /// The shape is proper, and `home` one of its nodes, where the shard's words live; the settings suit the lock. `shard` is the
    /// shard's number. `room` says for each rank how many entries and how many updates it may make here; the updates are at most 20,000
    /// in all. No block is open, and transcripts and tallies are empty.
    ///
    /// # Errors
    ///
    /// Want of memory.
    pub fn new(
        alloc: Global,
        shape: &Shape,
        knobs: Knobs,
        home: u32,
        geom: Geom,
        shard: u32,
        room: Room,
    ) -> Result<(Shard<C>, Vec<Seat<C>>), OutOfMemory>
        requires proper { IsProper shape.now }
        requires knobs { C.suits_knobs shape.now knobs }
        requires home { home < shape.now.nodes }
        requires fits { GeomFits geom }
        requires calls { vec_len room.calls ≡ length shape.now.node_of }
        requires updates { (vec_len room.updates ≡ length shape.now.node_of) × (sum room.updates.items ≤ 20000) }
        ensures core { IfOk result (λ p. table_at C.says p.0 ≡ C.defined shape.now home knobs (site_with geom shard room.updates.items)) }
        ensures layout { IfOk result (λ p. (C.says (core_at p.0)).layout ≡ layout_of shape.now) }
        ensures shard { IfOk result (λ p. IsShardOf C.says (length shape.now.node_of) p.0) }
        ensures seats { IfOk result (λ p. AreOf C.says p.0 p.1.items) }
        ensures views { IfOk result (λ p. AreFirst C.says p.0 p.1.items (length (queues_of C.name shape.now home knobs)) room.calls.items) }
        ensures closed { IfOk result (λ p. AreClosed C.says p.0 p.1.items) }
    {
        let Room { calls, updates } = room;
        let site = Site {
            geom,
            shard,
            rooms: updates,
        };
        let core = C::make(alloc, shape, knobs, home, site)?;
        let queues = queue_count(C::lock_name(), shape);
        Shard::start(alloc, core, shape.nodes, calls.as_slice(), queues)
    }

    /// A shard of a core before its first block, and a seat for each rank, which may make so many entries; with so many nodes and queues.
    fn start(
        alloc: Global,
        core: C,
        nodes: u32,
        rooms: &[u32],
        queues: usize,
    ) -> Result<(Shard<C>, Vec<Seat<C>>), OutOfMemory>
        requires start { IsStart C.says core nodes queues rooms.now }
        ensures core { IfOk result (λ p. core_at p.0 ≡ core) }
        ensures shard { IfOk result (λ p. IsShardOf C.says (length rooms.now) p.0) }
        ensures seats { IfOk result (λ p. AreOf C.says p.0 p.1.items) }
        ensures views { IfOk result (λ p. AreFirst C.says p.0 p.1.items queues rooms.now) }
        ensures closed { IfOk result (λ p. AreClosed C.says p.0 p.1.items) }
    {
        let words = first_words(alloc, &core)?;
        let views = first_views(alloc, &core, rooms, queues)?;
        Shard::open(
            alloc,
            Counting { whole: core },
            words.as_slice(),
            nodes,
            views,
        )
    }

    /// The machine of the shard's ranks.
    pub(crate) fn core(&self) -> &C
        ensures { result.now ≡ core_at self.now }
    {
        &self.window.core().whole
    }

    /// A shard with these words and free cards, and a seat for each view.
    fn open(
        alloc: Global,
        core: Counting<C>,
        words: &[u64],
        nodes: u32,
        views: Vec<CountedView<C::View>>,
    ) -> Result<(Shard<C>, Vec<Seat<C>>), OutOfMemory>
        requires rule { counting_rule C.says core (record { words = words.now; cards = replicate nodes 0 }) views.items }
        requires some { (0 < length words.now) × (0 < vec_len views) × (vec_len views < 2 ^ 32) }
        ensures core { IfOk result (λ p. counting_at p.0 ≡ core) }
        ensures seats { IfOk result (λ p. HasSeats p.0.window (vec_len views) × AreOf C.says p.0 p.1.items) }
        ensures views { IfOk result (λ p. map counted_at p.1.items ≡ views.items) }
    {
        let mut seats = Vec::with_capacity(alloc, views.len())?;
        let (window, inner) = Window::new(alloc, core, words, nodes, views)?;
        give_seats(inner, &mut seats);
        Ok((Shard { window, alloc }, seats))
    }

    /// Closes the shard, and gives what it leaves: a legal journal, the table after it, the ranks' transcripts, and the tallies of the
    /// queues. Some order of the ranks' openings and atoms, each of the core's machine, leaves just this.
    ///
    /// These are all the shard's seats, in the order of their ranks, and no block is open.
    ///
    /// # Errors
    ///
    /// Want of memory, which is taken before anything is closed; a count that doesn't fit 64 bits is treated so too. Shard and seats
    /// are handed back as they were.
    pub fn close(self, mut seats: Vec<Seat<C>>) -> Result<Closed, (Shard<C>, Vec<Seat<C>>)>
        requires shard { IsShardOf C.says (vec_len seats) self }
        requires seats { AreOf C.says self seats.items }
        requires closed { AreClosed C.says self seats.items }
        ensures end { IfOk result (λ e. IsEnd C.says self seats.items e) }
        ensures refused { IfErr result (λ p. (p.0 ≡ self) × (p.1.items ≡ seats.items)) }
    {
        let Ok(parts) = take_parts(&self, seats.as_slice()) else {
            return Err((self, seats));
        };
        let Parts { closed, mut inner } = parts;
        take_seats(&mut seats, &mut inner);
        let Shard { window, alloc } = self;
        match window.close(inner) {
            Ok((core, words, views)) => Ok(finish(&core.whole, words.as_slice(), views, closed)),
            Err((window, inner)) => {
                give_seats(inner, &mut seats);
                Err((Shard { window, alloc }, seats))
            }
        }
    }
}
