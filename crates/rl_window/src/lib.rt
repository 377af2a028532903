//! A window that threads share: words and cards, on which each rank makes its atoms by a seat of its own.
//!
//! - A *window* (`Window`) holds a core, and the words and cards that its ranks' atoms go to. It is what the one-sided
//!   operations of MPI-3 and of RDMA cards reach into, here in the memory of one process.
//! - A *seat* (`WinSeat`) is the one right to act as a rank. It holds the rank's view. Whoever has a seat and a `&Window`
//!   makes atoms, in a thread of its own too.
//! - A *table step* is one atomic step on one word of the table underneath (`atomic_table`), whose words are the window's
//!   words and then one card for each node, each with the length of a line of a processor's cache to itself. There are nine
//!   kinds: one for each of the seven atoms, the split of a rank's seat off the root seat (`new`), and the join of an ended
//!   seat to it (`close`).
//! - The *root seat* is the table's first. It stays in the window and makes no atom.
//!
//! Promise: between any two table steps words, cards and views meet the core's rule, whatever the order in which the
//! seats' steps fall (`IsRuled` of `specs/Rule`): one view for each rank, be its seat not split off yet, at work, or ended.
//! One atom through a seat's port is exactly one table step, by a count that has no last value and costs nothing; it takes
//! no memory and never waits. What `close` gives meets the rule too.
//! Not said here: what a rule promises (that is the core's affair), that two threads ran, or that any rank gets on.
#![tactic(auto)]

mod atoms;
mod closing;
mod knows;
mod opening;
mod plays;
mod root_seat;
mod seats;
mod table_port;
mod window;

pub use knows::{Knows, RankKnows, RootKnows, Setup, WindowRule};
pub use table_port::TablePort;
pub use window::{WinSeat, Window};
