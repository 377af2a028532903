//! RMA-MCS: the lock that the tree of elements is by itself.
//!
//! - The *tree* (`rl_tree::Tree`) has a queue for each element; its root has no limit, and every other element has a *budget*, the
//!   number of times that its queue is passed on before what is above it is given up.
//! - A rank that comes to the *hook* above the root goes on in the same act: nothing is above the root.
//!
//! Promise: `Mcs` meets all laws of a lock (`Algo`): so it excludes, each element's queue is served first come, first served, and each
//! but the root's is passed on no more often than its budget. It has no dead end (`Ending`), and says who goes on
//! (`Guiding`).
//! Not said here: that a rank that asks ever enters.
#![tactic(auto)]

mod ending;
mod guiding;
mod mcs;

pub use mcs::Mcs;
