//! The shapes that the tests of locks use.

ghost use Rattle.std.specs.Prelude.{◌≡◌, length, IfOk};
ghost use Rattle.rl_word.specs.Shapes.{IsProper};
ghost use Rattle.rl_tree.specs.TreeShape.{IsBudgeted};

use rl_word::{Element, Shape};
use std::alloc::{AllocError as OutOfMemory, Global};

/// The root, under which all nodes stand.
pub const ROOT: Element = Element {
    parent: None,
    first_node: 0,
    budget: None,
};

/// The element of a node under the root.
pub const fn node(number: u32, budget: Option<u32>) -> Element
    ensures { result ≡ record { parent = Some 0; first_node = number; budget = budget } }
{
    Element {
        parent: Some(0),
        first_node: number,
        budget,
    }
}

/// Two ranks on one node.
pub fn one_node(alloc: Global) -> Result<Shape, OutOfMemory>
    ensures proper { IfOk result IsProper }
    ensures nodes { IfOk result (λ shape. shape.nodes ≡ 1) }
    ensures ranks { IfOk result (λ shape. length shape.node_of ≡ 2) }
{
    Ok(Shape {
        node_of: vec![in alloc; 0, 0]?,
        nodes: 1,
        leaf_of: vec![in alloc; 1]?,
        elements: vec![in alloc; ROOT, node(0, None)]?,
    })
}

/// One rank on each of two nodes.
pub fn two_nodes(alloc: Global) -> Result<Shape, OutOfMemory>
    ensures proper { IfOk result IsProper }
    ensures nodes { IfOk result (λ shape. shape.nodes ≡ 2) }
    ensures ranks { IfOk result (λ shape. length shape.node_of ≡ 2) }
{
    Ok(Shape {
        node_of: vec![in alloc; 0, 1]?,
        nodes: 2,
        leaf_of: vec![in alloc; 1, 2]?,
        elements: vec![in alloc; ROOT, node(0, None), node(1, None)]?,
    })
}

/// Two ranks on each of two nodes, which have a budget of 1 each.
pub fn four_ranks(alloc: Global) -> Result<Shape, OutOfMemory>
    ensures proper { IfOk result IsProper }
    ensures budgeted { IfOk result IsBudgeted }
    ensures nodes { IfOk result (λ shape. shape.nodes ≡ 2) }
    ensures ranks { IfOk result (λ shape. length shape.node_of ≡ 4) }
{
    Ok(Shape {
        node_of: vec![in alloc; 0, 0, 1, 1]?,
        nodes: 2,
        leaf_of: vec![in alloc; 1, 2]?,
        elements: vec![in alloc; ROOT, node(0, Some(1)), node(1, Some(1))]?,
    })
}
