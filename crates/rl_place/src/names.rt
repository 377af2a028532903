//! Numbers in the order in which paths are first seen.
ghost use Rattle.std.specs.Prelude.{◌≡◌, ◌≤◌, ◌<◌, ◌+◌, ◌*◌, length, map, IfOk, OnOk};
ghost use Rattle.std.specs.List.{AllByRecursion};
ghost use Rattle.rl_place.specs.Numbering.{node_paths, element_paths, elements_after, seen_after};
ghost use Rattle.rl_place.specs.Places.{IsProper};
ghost use Rattle.rl_place.specs.Shapes.{number_in};

use crate::path::Path;
use crate::place::Place;
use indexmap::IndexSet;
use std::alloc::{AllocError as OutOfMemory, Global};

/// Numbers a path, unless it has a number.
fn see(seen: &mut IndexSet<Path>, path: Path) -> Result<(), OutOfMemory>
    ensures after { OnOk result (seen.new.keys ≡ seen_after seen.old.keys path) }
    ensures few { OnOk result (length seen.new.keys ≤ length seen.old.keys + 1) }
{
    seen.insert(path)?;
    Ok(())
}

/// The paths of the nodes by number.
#[tactic(auto, unfolding(crate::specs::Numbering::node_paths))]
pub fn nodes_of(alloc: Global, paths: &[Path]) -> Result<IndexSet<Path>, OutOfMemory>
    ensures names { IfOk result (λ nodes. nodes.keys ≡ node_paths paths.now) }
    ensures few { IfOk result (λ nodes. length nodes.keys ≤ length paths.now) }
{
    let mut nodes = IndexSet::new(alloc);
    for path in paths {
        see(&mut nodes, *path)?;
    }
    Ok(nodes)
}

/// Numbers the groups above a path, and the path.
fn see_groups(seen: &mut IndexSet<Path>, path: Path) -> Result<(), OutOfMemory>
    requires { path.len ≤ 3 }
    ensures after { OnOk result (seen.new.keys ≡ elements_after seen.old.keys path) }
    ensures few { OnOk result (length seen.new.keys ≤ length seen.old.keys + 3) }
{
    for len in 0..path.len {
        see(seen, path.prefix(len + 1))?;
    }
    Ok(())
}

/// The paths of the elements by number: the root, groups and nodes.
#[tactic(auto, unfolding(crate::specs::Numbering::element_paths))]
pub fn elements_of(alloc: Global, paths: &[Path]) -> Result<IndexSet<Path>, OutOfMemory>
    requires { AllByRecursion (λ path. path.len ≤ 3) paths.now }
    ensures names { IfOk result (λ elements. elements.keys ≡ element_paths paths.now) }
    ensures few { IfOk result (λ elements. length elements.keys ≤ 1 + 3 * length paths.now) }
{
    let mut elements = IndexSet::new(alloc);
    see(&mut elements, Path::root())?;
    for path in paths {
        see_groups(&mut elements, *path)?;
    }
    Ok(elements)
}

/// The number of a path; of a path that wasn't seen how many were.
pub fn number_in(seen: &IndexSet<Path>, path: &Path) -> u32
    requires { length seen.now.keys < 4294967296 }
    ensures { result ≡ number_in seen.now.keys path.now }
{
    match seen.get_index_of(path) {
        Some(number) => number as u32,
        None => seen.len() as u32,
    }
}

/// The numbers of paths, one after the other.
pub fn numbers_of(
    alloc: Global,
    seen: &IndexSet<Path>,
    paths: &[Path],
) -> Result<Vec<u32>, OutOfMemory>
    requires { length seen.now.keys < 4294967296 }
    ensures { IfOk result (λ numbers. numbers.items ≡ map (number_in seen.now.keys) paths.now) }
{
    let mut numbers = Vec::new(alloc);
    for path in paths {
        numbers.push(number_in(seen, path))?;
    }
    Ok(numbers)
}

impl Place {
    /// The path of each element by number: the root, whose path has no numbers, then groups and nodes in the order in which
    /// they are first seen with the paths of the ranks.
    pub fn names(&self, alloc: Global) -> Result<Vec<Path>, OutOfMemory>
        requires { IsProper self.now }
        ensures { IfOk result (λ names. names.items ≡ element_paths self.now.paths) }
    {
        let elements = elements_of(alloc, self.paths.as_slice())?;
        Vec::from_slice(alloc, elements.as_slice())
    }
}
