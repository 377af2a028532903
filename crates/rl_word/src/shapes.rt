//! Where ranks sit, and how nodes are grouped; the settings of a lock.

use std::marker::Model;

/// An element of the tree of nodes: the root, a group of nodes, or a node.
#[derive(Clone, Copy, PartialEq, Eq, Debug)]
pub struct Element {
    /// The element above it. The root has none.
    pub parent: Option<u32>,
    /// The lowest-numbered node under it.
    pub first_node: u32,
    /// How often its queue may be handed on before it is given up above, 0 to 1000, or no limit.
    pub budget: Option<u32>,
}

/// Where ranks sit and how nodes are grouped. Ranks, nodes and elements have numbers from 0; element 0 is the root.
///
/// Which shapes are proper is said by `IsProper` of `specs/Shapes.antt`.
#[derive(Drop)]
pub struct Shape {
    /// The node of each rank.
    pub node_of: Vec<u32>,
    /// How many nodes there are.
    pub nodes: u32,
    /// The element of each node.
    pub leaf_of: Vec<u32>,
    /// The elements. All but the root have a parent with a lower number.
    pub elements: Vec<Element>,
}

impl Model for Shape {
    ghost use Rattle.rl_word.specs.Shapes.{TheShape};

    ghost Value = { TheShape };

    ghost view = { λ s. record { node_of = s.node_of.items; nodes = s.nodes; leaf_of = s.leaf_of.items; elements = s.elements.items } };
}

/// The settings of a lock. A lock reads only those that it has.
#[derive(Clone, Copy, PartialEq, Eq, Debug)]
pub struct Knobs {
    /// The budget of the local cohort, 0 to 1000.
    pub local: u32,
    /// The budget of the remote cohort, 0 to 1000.
    pub remote: u32,
    /// How many writers may follow each other before readers are let in, 0 to 1000.
    pub writers: u32,
    /// How many readers may enter on one counter before a writer is let in, 1 to 1000.
    pub readers: u32,
    /// How many ranks share one counter, 1 to 32.
    pub group: u32,
}
