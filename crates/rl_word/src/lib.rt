//! The words that locks are made of, and what a rank may do to them.
//!
//! - A *rank* is one party that takes locks; it sits on one *node*.
//! - A *word* is a number of 64 bits that lives on a node, its *home*. A `Spot` is a word's home and class.
//! - An *act* (`Act`) is what a lock asks for on one word; an *atom* (`Atom`) is one indivisible step. An act through
//!   the card of a node is made of several atoms.
//! - A *shape* (`Shape`) says where ranks sit and how nodes are grouped into elements. `Knobs` are a lock's settings,
//!   and `LockName` is the name of one. What the name decides is one table (`LockFacts`): which queues the lock has, and
//!   how it treats readers and batches.
//!
//! Promise: `lawful` is the rule of classes, both ways: true exactly where a rank may make an act on a word. `specs/`
//! says what each act writes and tells (`Acts`), which shapes are proper (`Shapes`), and what a lock's name decides
//! (`LockFacts`).
//! Not said here: how an act is split into atoms, and what an atom does to a window of words.
#![tactic(auto)]

mod acts;
mod classes;
mod lawfulness;
mod locks;
mod shapes;

pub use acts::{Act, Atom};
pub use classes::{Class, Mode, Spot};
pub use lawfulness::lawful;
pub use locks::{LockFacts, LockName, QueueKind};
pub use shapes::{Element, Knobs, Shape};
