//! A rank's whole machine on one shard, over any lock and any way of working.
//!
//! - A rank's *view* ([`WholeView`]) is what it knows between two of its atoms: its lock view, its *card state* ([`CardState`]), which is
//!   its place in an act that is made through a card, the plan that it keeps there, and its side of the work.
//! - The *whole machine* ([`Whole`]) gives a view's next atom and what it makes of what the atom gave: it splits the lock's acts into
//!   atoms, makes the atoms of the work where the lock plans none, asks for the lock where the work says so, and leaves it where a
//!   block is over. A *block* is a call alone or the calls of a batch; it is open until its last atom was made.
//! - The *window* of a shard has word 0, which is always 1, then the count word, the volume, the journal, the lock's words, and the
//!   words of the work's own.
//!
//! Promise, for every lock and every way of working that keep the laws of one: it is a shard's core (`ShardCore` of `rl_core`), which
//! says all that machines, shards, seats and callers need of it (`specs/WholeShards`, proved in `specs/laws/WholeWall`), and it sees where a
//! rank waits (`Resting`). Beneath it: a card names who is in it, a word loaded in a card stands still, the lock never sees a card, and
//! neither lock nor work sees the other's words. Over a lock and a way of working that have no dead end it has none (`ShardEnding`): a
//! card's holder has an atom that nobody can keep from it. Where the lock says who goes on the shard does too (`ShardGuiding`,
//! `specs/WholeGuiding`).
//! Not said here: that a rank that asks ever gets the lock.
#![tactic(auto)]

mod card_state;
mod effect;
mod ending;
mod guiding;
mod idle;
mod round;
mod shift;
mod side;
mod split;
mod wall;
mod whole;

pub use card_state::CardState;
pub use effect::Effect;
pub use side::Side;
pub use whole::{Whole, WholeView, domains};
