//! A rank's caller.

ghost use Rattle.std.specs.Prelude.{◌≡◌, ◌↔◌, ◌<◌, false, length};
ghost use Rattle.rl_step.specs.declared.events.Stepped.TheVariants.{Finished};
ghost use Rattle.rl_run.specs.Callers.{IsCaller, IsReady, IsAtEnd, AllClosed, HasNone, HasNothingLeft, Opens, OpensDue, StepsSeat, IsStep, who, seats_of};

use crate::waiting::Patience;
use rl_core::{ShardCore, block_from, block_shard};
use rl_io::{Gate, OpenGate};
use rl_model::{Call, Geom};
use rl_shard::{Seat, Shard};
use rl_step::{Events, Stepped};
use std::sync::Wait;

/// Makes the calls of a rank, in their order, each on its shard.
#[derive(Drop)]
pub struct Caller<C: ShardCore> {
    pub(crate) rank: u32,
    pub(crate) calls: Vec<Call>,
    /// Of each call that begins a block, how many calls the block has; of the others 0.
    pub(crate) sizes: Vec<u32>,
    pub(crate) geom: Geom,
    /// How many calls were opened.
    pub(crate) opened: u32,
    /// The shard of the last of them; 0 before the first.
    pub(crate) at: u32,
    /// The rank's seats, one at each shard.
    pub(crate) seats: Vec<Seat<C>>,
}

// The number of an answer, as a gate is told it.
fn answer_number(stepped: &Stepped) -> u32 {
    match stepped {
        Stepped::Moved => 1,
        Stepped::Waiting { .. } => 2,
        Stepped::Lost { .. } => 3,
        Stepped::Busy { .. } => 4,
        Stepped::Finished => 5,
    }
}

impl<C: ShardCore> Caller<C> {
    /// The caller of a rank on some shards, which has opened no call yet.
    ///
    /// There are fewer than 2^32 calls, with the sizes of their blocks. There is one seat of the rank for each shard, in the order of
    /// the shards, with no open block, no entry, and room for the rank's calls on that shard and for the updates among them.
    pub fn new(
        rank: u32,
        calls: Vec<Call>,
        sizes: Vec<u32>,
        geom: Geom,
        seats: Vec<Seat<C>>,
    ) -> Caller<C>
        ensures caller { (shards : _) → IsReady C.says shards geom rank calls.items sizes.items seats.items →
            IsCaller C.says shards result }
        ensures who { who result ≡ (rank, calls.items, sizes.items, geom) }
        ensures seats { seats_of result ≡ seats.items }
        ensures none { result.opened ≡ 0 }
    {
        Caller {
            rank,
            calls,
            sizes,
            geom,
            opened: 0,
            at: 0,
            seats,
        }
    }

    /// The seats, in the order of the shards.
    pub fn seats(self) -> Vec<Seat<C>>
        ensures { result.items ≡ seats_of self }
    {
        let Caller {
            rank: _,
            calls: _,
            sizes: _,
            geom: _,
            opened: _,
            at: _,
            seats,
        } = self;
        seats
    }

    // Whether a block is open: it would be at the shard of the last call that was opened.
    fn is_open(&self, shards: &[Shard<C>]) -> bool
        requires caller { IsCaller C.says shards.now self.now }
        ensures { (result ≡ false) ↔ AllClosed C.says shards.now self.now.seats.items }
    {
        let at = self.at as usize;
        let seat = &self.seats[at];
        seat.is_open(&shards[at])
    }

    // Opens the next block on the shard of its calls.
    fn open_next(&mut self, shards: &[Shard<C>])
        requires caller { IsCaller C.says shards.now self.old }
        requires closed { AllClosed C.says shards.now self.old.seats.items }
        requires left { self.old.opened < length self.old.calls.items }
        ensures caller { IsCaller C.says shards.now self.new }
        ensures same { who self.new ≡ who self.old }
        ensures opens { Opens C.says shards.now self.old self.new }
        ensures is_open { AllClosed C.says shards.now self.new.seats.items → ⊥ }
    {
        let first = self.opened;
        let block = block_from(self.calls.as_slice(), self.sizes.as_slice(), first);
        let at = block_shard(self.geom, block);
        let place = at as usize;
        let seat = &mut self.seats[place];
        seat.begin_batch(&shards[place], block, first);
        self.opened = first + block.len() as u32;
        self.at = at;
    }

    // Opens the next block, of which the gate is told, where none is open and one is left. Whether it did.
    #[inline(never)]
    fn open_due<G: Gate>(&mut self, shards: &[Shard<C>], gate: &G) -> bool
        requires caller { IsCaller C.says shards.now self.old }
        ensures caller { IsCaller C.says shards.now self.new }
        ensures same { who self.new ≡ who self.old }
        ensures due { OpensDue C.says shards.now self.old self.new }
        ensures none { result ≡ false → HasNone C.says shards.now self.old self.new }
        ensures all { AllClosed C.says shards.now self.new.seats.items → self.new.opened ≡ length self.new.calls.items }
    {
        if self.opened as usize >= self.calls.len() {
            return false;
        }
        if self.is_open(shards) {
            return false;
        }
        gate.before(self.rank, self.opened);
        self.open_next(shards);
        true
    }

    // A step at the shard of the last call that was opened.
    fn step_last(&mut self, shards: &[Shard<C>]) -> Stepped
        requires caller { IsCaller C.says shards.now self.old }
        ensures caller { IsCaller C.says shards.now self.new }
        ensures same { who self.new ≡ who self.old }
        ensures steps { StepsSeat C.says shards.now self.old self.new result }
        ensures finished { result ≡ Finished → AllClosed C.says shards.now self.old.seats.items }
        ensures still { AllClosed C.says shards.now self.old.seats.items → AllClosed C.says shards.now self.new.seats.items }
        ensures closed { AllClosed C.says shards.now self.old.seats.items → result ≡ Finished }
    {
        let at = self.at as usize;
        let seat = &mut self.seats[at];
        seat.step(&shards[at])
    }

    // Steps at the shard of the last call that was opened, until no block is open there. The gate is told of each step after it was made.
    #[inline(always)]
    fn finish_block<G: Gate, R: Wait>(
        &mut self,
        rt: &R,
        shards: &[Shard<C>],
        gate: &G,
        patience: &mut Patience,
    )
        requires caller { IsCaller C.says shards.now self.old }
        ensures caller { IsCaller C.says shards.now self.new }
        ensures same { who self.new ≡ who self.old }
        ensures closed { AllClosed C.says shards.now self.new.seats.items }
    {
        let rank = self.rank;
        let at = self.at as usize;
        let seat = &mut self.seats[at];
        let shard = &shards[at];
        let mut events = Events::new();
        for _ in rt.forever() {
            match seat.step_with(shard, &mut events) {
                Stepped::Finished => break,
                stepped => {
                    gate.after(rank, answer_number(&stepped));
                    if !patience.is_calm(&stepped) {
                        patience.after(&stepped);
                    }
                }
            }
        }
    }

    /// Opens the next block, where none is open and one is left, and makes one step of the rank's seat at the shard of its calls. It
    /// takes no memory and never waits. The shards are those of the caller's seats.
    ///
    /// The answers are those of `Seat::step`, but Finished, which comes exactly where no block is open and none is left: then all calls
    /// of the rank are done.
    pub fn step(&mut self, shards: &[Shard<C>]) -> Stepped
        requires caller { IsCaller C.says shards.now self.old }
        ensures caller { IsCaller C.says shards.now self.new }
        ensures same { who self.new ≡ who self.old }
        ensures step { IsStep C.says shards.now self.old self.new result }
        ensures finished { (result ≡ Finished) ↔ HasNothingLeft C.says shards.now self.old }
        ensures all_done { result ≡ Finished → IsAtEnd C.says shards.now self.new }
    {
        self.open_due(shards, &OpenGate);
        self.step_last(shards)
    }

    /// Steps until all calls of the rank are done. The gate is told of each block before it is opened, and of each step after it was
    /// made. It may wait for other ranks; it takes no memory. The shards are those of the caller's seats.
    pub fn work<G: Gate, R: Wait>(&mut self, rt: &R, shards: &[Shard<C>], gate: &G)
        requires caller { IsCaller C.says shards.now self.old }
        ensures caller { IsCaller C.says shards.now self.new }
        ensures same { who self.new ≡ who self.old }
        ensures all_done { IsAtEnd C.says shards.now self.new }
    {
        let mut patience = Patience::new();
        for _ in rt.forever() {
            self.finish_block(rt, shards, gate, &mut patience);
            if !self.open_due(shards, gate) {
                break;
            }
        }
        gate.after(self.rank, answer_number(&Stepped::Finished));
    }
}
