//! The printer of a placement's shape.
ghost use Rattle.std.specs.Prelude.{◌≡◌, ◌∷◌, [], length, decimal, IfOk};
ghost use Rattle.std.specs.List.{join_with_byte};
ghost use Rattle.rl_text.specs.Printing.{Puts};
ghost use Rattle.rl_text.specs.Spelling.{line_text, text_of};
ghost use Rattle.rl_place.specs.Numbering.{node_paths, element_paths};
ghost use Rattle.rl_place.specs.Places.{IsProper};
ghost use Rattle.rl_place.specs.Shapes.{shape_of};
ghost use Rattle.rl_place.specs.ShapeText.{number_or_none, element_name, size_words, node_words, named_words, tree_words, element_words, shard_words, node_lines, element_lines, shard_lines, shape_spelling};

use crate::names::nodes_of;
use crate::path::Path;
use crate::path_word::path_text;
use crate::place::Place;
use rl_text::put_number;
use rl_word::{Element, Shape};
use std::alloc::{AllocError as OutOfMemory, Global};

/// A word, and a number behind it.
fn put_with(out: &mut Vec<u8>, word: &[u8], n: u64) -> Result<(), OutOfMemory>
    ensures { Puts result out.old out.new (join_with_byte 32 (word.now ∷ decimal n ∷ [])) }
{
    out.extend_from_slice(word)?;
    out.push(b' ')?;
    put_number(out, n)
}

/// A number, or `none`.
fn put_number_or_none(out: &mut Vec<u8>, number: Option<u32>) -> Result<(), OutOfMemory>
    ensures { Puts result out.old out.new (number_or_none number) }
{
    match number {
        Some(n) => put_number(out, u64::from(n)),
        None => out.extend_from_slice(b"none"),
    }
}

/// `root`, or the path of a group or a node.
fn put_name(out: &mut Vec<u8>, path: Path) -> Result<(), OutOfMemory>
    ensures { Puts result out.old out.new (element_name path) }
{
    if path.len == 0 {
        out.extend_from_slice(b"root")
    } else {
        path_text(path, out)
    }
}

/// `ranks R nodes N elements E`.
fn put_sizes(out: &mut Vec<u8>, shape: &Shape) -> Result<(), OutOfMemory>
    ensures { Puts result out.old out.new (line_text (size_words (length shape.now.node_of) shape.now.nodes (length shape.now.elements))) }
{
    put_with(out, b"ranks", shape.node_of.len() as u64)?;
    put_with(out, b" nodes", u64::from(shape.nodes))?;
    put_with(out, b" elements", shape.elements.len() as u64)?;
    out.push(b'\n')?;
    Ok(())
}

/// `node I PATH`.
fn put_node(out: &mut Vec<u8>, node: usize, path: Path) -> Result<(), OutOfMemory>
    ensures { Puts result out.old out.new (line_text (node_words (node, path))) }
{
    put_with(out, b"node", node as u64)?;
    out.push(b' ')?;
    path_text(path, out)?;
    out.push(b'\n')?;
    Ok(())
}

/// The lines of the nodes.
fn put_nodes(out: &mut Vec<u8>, nodes: &[Path]) -> Result<(), OutOfMemory>
    ensures { Puts result out.old out.new (text_of (node_lines nodes.now)) }
{
    for (node, path) in nodes.iter().enumerate() {
        put_node(out, node, *path)?;
    }
    Ok(())
}

/// `element I NAME`.
fn put_named(out: &mut Vec<u8>, number: usize, name: Path) -> Result<(), OutOfMemory>
    ensures { Puts result out.old out.new (join_with_byte 32 (named_words number name)) }
{
    put_with(out, b"element", number as u64)?;
    out.push(b' ')?;
    put_name(out, name)
}

/// `parent P budget B`.
fn put_tree(out: &mut Vec<u8>, element: Element) -> Result<(), OutOfMemory>
    ensures { Puts result out.old out.new (join_with_byte 32 (tree_words element)) }
{
    out.extend_from_slice(b"parent ")?;
    put_number_or_none(out, element.parent)?;
    out.extend_from_slice(b" budget ")?;
    put_number_or_none(out, element.budget)
}

/// `element I NAME parent P budget B`.
fn put_element(
    out: &mut Vec<u8>,
    number: usize,
    name: Path,
    element: Element,
) -> Result<(), OutOfMemory>
    ensures { Puts result out.old out.new (line_text (element_words (number, (name, element)))) }
{
    put_named(out, number, name)?;
    out.push(b' ')?;
    put_tree(out, element)?;
    out.push(b'\n')?;
    Ok(())
}

/// The lines of the elements, each with its name.
fn put_elements(out: &mut Vec<u8>, names: &[Path], elements: &[Element]) -> Result<(), OutOfMemory>
    ensures { Puts result out.old out.new (text_of (element_lines names.now elements.now)) }
{
    for (number, (name, element)) in names.iter().zip(elements).enumerate() {
        put_element(out, number, *name, *element)?;
    }
    Ok(())
}

/// `shard I home J`.
fn put_shard(out: &mut Vec<u8>, shard: usize, home: u32) -> Result<(), OutOfMemory>
    ensures { Puts result out.old out.new (line_text (shard_words (shard, home))) }
{
    put_with(out, b"shard", shard as u64)?;
    put_with(out, b" home", u64::from(home))?;
    out.push(b'\n')?;
    Ok(())
}

/// The lines of the shards.
fn put_shards(out: &mut Vec<u8>, homes: &[u32]) -> Result<(), OutOfMemory>
    ensures { Puts result out.old out.new (text_of (shard_lines homes.now)) }
{
    for (shard, home) in homes.iter().enumerate() {
        put_shard(out, shard, *home)?;
    }
    Ok(())
}

/// The lines of the nodes on which ranks sit, where these are the ranks' paths.
fn put_nodes_under(alloc: Global, out: &mut Vec<u8>, paths: &[Path]) -> Result<(), OutOfMemory>
    ensures { Puts result out.old out.new (text_of (node_lines (node_paths paths.now))) }
{
    let nodes = nodes_of(alloc, paths)?;
    put_nodes(out, nodes.as_slice())
}

/// The lines of the elements, each with its name in the placement.
fn put_elements_under(
    alloc: Global,
    out: &mut Vec<u8>,
    place: &Place,
    elements: &[Element],
) -> Result<(), OutOfMemory>
    requires { IsProper place.now }
    ensures { Puts result out.old out.new (text_of (element_lines (element_paths place.now.paths) elements.now)) }
{
    let names = place.names(alloc)?;
    put_elements(out, names.as_slice(), elements)
}

/// All lines of a placement's shape.
fn put_shape(
    alloc: Global,
    out: &mut Vec<u8>,
    place: &Place,
    shape: &Shape,
) -> Result<(), OutOfMemory>
    requires { IsProper place.now × (shape.now ≡ shape_of place.now) }
    ensures { Puts result out.old out.new (shape_spelling place.now) }
{
    out.extend_from_slice(b"rmalock-shape 1\n")?;
    put_sizes(out, shape)?;
    put_nodes_under(alloc, out, place.paths.as_slice())?;
    put_elements_under(alloc, out, place, shape.elements.as_slice())?;
    put_shards(out, place.homes.as_slice())?;
    out.extend_from_slice(b"end\n")?;
    Ok(())
}

/// The text of a placement's shape: how many ranks, nodes and elements there are, a line for each node with its path, a line
/// for each element with its name, its parent and its budget, and a line for each shard with the node where it lives.
///
/// Nodes and elements have the numbers of [`Place::shape`]. An element's name is `root` or its path, and `none` stands
/// where it has no parent or no budget. Any lock will do.
pub fn shape_text(alloc: Global, place: &Place) -> Result<Vec<u8>, OutOfMemory>
    requires { IsProper place.now }
    ensures { IfOk result (λ text. text.items ≡ shape_spelling place.now) }
{
    let shape = place.shape(alloc)?;
    let mut out = Vec::new(alloc);
    put_shape(alloc, &mut out, place, &shape)?;
    Ok(out)
}
