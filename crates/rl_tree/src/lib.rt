//! The tree of elements of one lock: a queue for each element, in which ranks join for themselves, and act for elements.
//!
//! - An *element* is a node, a group of nodes, or the root, which is element 0. Each has a *queue*: the members of a node's are its
//!   ranks, those of any other the elements below it (`Tree`).
//! - A rank's *path* goes from its node, at *level* 0, up to the root. Its *view* (`TreeView`) says at which level it works, and the
//!   phase of the member for which it works there: itself at level 0, else the element below.
//! - On its way up a head that must settle works for its element one level up. Whoever is given a queue settles in all queues below, in
//!   one act and from the upper one down, and is inside.
//! - On its way out a rank that has no pass left, or finds no successor, gives up what is above first: it loads its element's status
//!   there, which tells how many passes are left, makes the element's leave, and only then goes on with its own.
//! - The *hook* is above the root: there a rank stands that must settle the root, or gives up what is above it. A lock goes on from there,
//!   in the same act or after acts of its own (`Tree::resume`). The root's *gate* is open while a rank has come in and hasn't come to the
//!   hook on its way out.
//!
//! Promise: `tree_laws` says what holds of the good states of the tree of any proper shape, in which each element but the root has a
//! budget: a member has its queue only where its element has the queue above; one rank at most acts for an element, one stands at the
//! hook, and one is inside; each queue is good, is served first come, first served, and keeps its budget. Whatever a rank may do keeps
//! the tree good, and says how the root's gate moves. Where a rank isn't out, some rank isn't stuck at the queue where it works
//! (`TreeGoes`).
//! Not said here: what a lock does at the hook; that a rank that asks ever comes in.
#![tactic(auto)]

mod laws;
mod rooted;
mod tree;
mod view;
mod walk;

pub use laws::tree_laws;
pub use rooted::Rooted;
pub use tree::Tree;
pub use view::TreeView;
pub use walk::tree_enter;
