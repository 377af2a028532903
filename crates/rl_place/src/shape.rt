//! The shape of a placement: where ranks sit, and the tree of elements above them.
ghost use Rattle.std.specs.Prelude.{◌≡◌, ◌≤◌, ◌<◌, length, map, IfOk};
ghost use Rattle.rl_word.specs.Shapes.{IsProper as IsProperShape};
ghost use Rattle.rl_place.specs.Places.{IsProper};
ghost use Rattle.rl_place.specs.Shapes.{number_in, first_node_in, level_budget, budget_of, element_of, MayBeNumbered, shape_with, shape_of};

use crate::lock::Lock;
use crate::names::{elements_of, nodes_of, number_in, numbers_of};
use crate::path::Path;
use crate::place::Place;
use indexmap::IndexSet;
use rl_word::{Element, Shape};
use std::alloc::{AllocError as OutOfMemory, Global};

/// The lowest-numbered node whose path begins with the numbers of a name; how many nodes there are where none does.
fn first_node_under(nodes: &[Path], name: Path) -> u32
    requires { (name.len ≤ 3) × (length nodes.now < 4294967296) }
    ensures { result ≡ first_node_in nodes.now name }
{
    for (number, node) in nodes.iter().enumerate() {
        if name == node.prefix(name.len) {
            return number as u32;
        }
    }
    nodes.len() as u32
}

/// The budget of the elements that are named by n numbers.
fn level_budget(budgets: &[u32], n: u32) -> Option<u32>
    ensures { result ≡ level_budget budgets.now n }
{
    if n == 0 {
        return None;
    }
    budgets.get(n as usize - 1).copied()
}

/// The budget of the elements that are named by n numbers, under a lock. The root is named by none.
fn budget_of(lock: &Lock, n: u32) -> Option<u32>
    ensures { result ≡ budget_of lock.now n }
{
    match lock {
        Lock::Spin | Lock::Dmcs | Lock::Alock { .. } | Lock::Seq { .. } | Lock::Combine { .. } =>
            None,
        Lock::Mcs { budgets } => level_budget(budgets.as_slice(), n),
        Lock::Rw {
            budgets,
            writers,
            ..
        } => {
            if n == 0 {
                Some(*writers)
            } else {
                level_budget(budgets.as_slice(), n)
            }
        }
    }
}

/// The element of a name.
fn element_of(lock: &Lock, nodes: &[Path], elements: &IndexSet<Path>, name: Path) -> Element
    requires { (name.len ≤ 3) × (length nodes.now < 4294967296) × (length elements.now.keys < 4294967296) }
    ensures { result ≡ element_of lock.now nodes.now elements.now.keys name }
{
    let parent = if name.len == 0 {
        None
    } else {
        Some(number_in(elements, &name.prefix(name.len - 1)))
    };
    Element {
        parent,
        first_node: first_node_under(nodes, name),
        budget: budget_of(lock, name.len),
    }
}

/// The elements by number.
fn elements_by_number(
    alloc: Global,
    lock: &Lock,
    nodes: &[Path],
    names: &IndexSet<Path>,
) -> Result<Vec<Element>, OutOfMemory>
    requires { MayBeNumbered nodes.now names.now.keys }
    ensures { IfOk result (λ elements. elements.items ≡ map (element_of lock.now nodes.now names.now.keys) names.now.keys) }
{
    let mut elements = Vec::new(alloc);
    for name in names.as_slice() {
        elements.push(element_of(lock, nodes, names, *name))?;
    }
    Ok(elements)
}

/// The shape of nodes and elements by number, with a lock and the path of each rank.
fn shape_under(
    alloc: Global,
    lock: &Lock,
    paths: &[Path],
    nodes: &IndexSet<Path>,
    names: &IndexSet<Path>,
) -> Result<Shape, OutOfMemory>
    requires { MayBeNumbered nodes.now.keys names.now.keys }
    ensures { IfOk result (λ shape. shape ≡ shape_with lock.now paths.now nodes.now.keys names.now.keys) }
{
    let node_of = numbers_of(alloc, nodes, paths)?;
    let leaf_of = numbers_of(alloc, names, nodes.as_slice())?;
    let elements = elements_by_number(alloc, lock, nodes.as_slice(), names)?;
    Ok(Shape {
        node_of,
        nodes: nodes.len() as u32,
        leaf_of,
        elements,
    })
}

/// The shape of a placement.
fn shape_in(alloc: Global, place: &Place) -> Result<Shape, OutOfMemory>
    requires { IsProper place.now }
    ensures { IfOk result (λ shape. shape ≡ shape_of place.now) }
{
    let paths = place.paths.as_slice();
    let nodes = nodes_of(alloc, paths)?;
    let names = elements_of(alloc, paths)?;
    shape_under(alloc, &place.lock, paths, &nodes, &names)
}

impl Place {
    /// Where the ranks sit and how the nodes are grouped.
    ///
    /// The root is element 0. Each path of a rank adds, where they aren't there yet, its groups and its node, from the root
    /// down; nodes and elements are numbered in the order in which they are first seen. An element's first node is the
    /// lowest-numbered node under it, and its budget is that of its level: none for spin, D-MCS and ALock, and for the root
    /// none for RMA-MCS and `writers` for RMA-RW.
    pub fn shape(&self, alloc: Global) -> Result<Shape, OutOfMemory>
        requires { IsProper self.now }
        ensures exact { IfOk result (λ shape. shape ≡ shape_of self.now) }
        // Its ranks sit on its nodes, and its elements are a tree whose leaves are its nodes.
        ensures proper { IfOk result (λ shape. IsProperShape shape) }
    {
        shape_in(alloc, self)
    }
}
