//! RMA-RW: writers by the tree of elements, under marks; readers by counters, beside each other.
//!
//! - Writers go through the *tree* (`rl_tree::Tree`), whose root has a budget too: the number of writers that may follow each other
//!   before readers are let in.
//! - Readers come in and go out by the *counter* of their group (`rl_counter`), and don't touch the tree.
//! - Tree and counters meet at the *hook* above the root: a writer that must settle the root puts the *marks* of all counters up there,
//!   and waits until all are clear; one that gives up what is above the root takes them down.
//!
//! Promise: `Rw` meets all laws of a lock (`Algo`): no reader is in beside a writer, readers are in beside each other, each element's
//! queue is served first come, first served, and each is passed on no more often than its budget. Further is promised (`BoundsBatches`):
//! while no step lowers the arrive word of a group, at most as many readers of the group enter as are set. It has no dead end (`Ending`), and says
//! who goes on (`Guiding`): who goes out of a counter, and where nobody does, a writer that needn't wait; where there is none either, each
//! reader that asks.
//! Not said here: that any rank ever enters.
#![tactic(auto)]

mod ending;
mod guiding;
mod rw;
mod view;

pub use rw::Rw;
pub use view::RwView;
