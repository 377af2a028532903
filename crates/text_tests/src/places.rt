//! Placements worked out by hand: their text printed back, their shapes, names and settings.

use crate::samples::{ALOCK, COMBINE, MCS, RW, SEQ, SPIN, TREE, place_of};
use rl_place::{Lock, Path, lock_named, lock_word, path_text, place_text, shape_text};
use rl_text::put_number;
use rl_word::{Element, LockName};
use std::alloc::{AllocError as OutOfMemory, Global};
use std::test::*;

/// Five ranks on four nodes, in three levels.
const THREE_LEVELS: &str =
    "rmalock-place 1\nlevels 3\nlock rw\nbudget 10 20 30\nwriters 40\nreaders 5\ngroup 2\nshards 2\nbuckets 1\noverflow 0\nrank 0 at 1.0.0\nrank 1 at 0.2.5\nrank 2 at 1.0.1\nrank 3 at 1.0.0\nrank 4 at 1.3.0\nhome 0 1.3.0\nhome 1 0.2.5\nend\n";

#[test]
fn placements_are_printed_back(rt: HostRuntime) -> Result<(), Fail> {
    for text in [SPIN, MCS, RW, ALOCK, TREE, SEQ, COMBINE, THREE_LEVELS] {
        let place = place_of(rt.alloc(), text.as_bytes())?;
        let printed = place_text(rt.alloc(), &place)?;
        assert_eq!(rt; printed.as_slice(), text.as_bytes());
    }
    Ok(())
}

fn path(len: u32, parts: [u32; 3]) -> Path {
    Path { len, parts }
}

fn element(parent: Option<u32>, first_node: u32, budget: u32) -> Element {
    Element {
        parent,
        first_node,
        budget: Some(budget),
    }
}

#[test]
fn shape_of_three_levels(rt: HostRuntime) -> Result<(), Fail> {
    let place = place_of(rt.alloc(), THREE_LEVELS.as_bytes())?;
    assert_eq!(rt; place.homes.as_slice(), [3, 1].as_slice());
    let names = place.names(rt.alloc())?;
    let wanted = [
        path(0, [0, 0, 0]),
        path(1, [1, 0, 0]),
        path(2, [1, 0, 0]),
        path(3, [1, 0, 0]),
        path(1, [0, 0, 0]),
        path(2, [0, 2, 0]),
        path(3, [0, 2, 5]),
        path(3, [1, 0, 1]),
        path(2, [1, 3, 0]),
        path(3, [1, 3, 0]),
    ];
    assert_eq!(rt; names.as_slice(), wanted.as_slice());
    let shape = place.shape(rt.alloc())?;
    assert_eq!(rt; shape.nodes, 4);
    assert_eq!(rt; shape.node_of.as_slice(), [0, 1, 2, 0, 3].as_slice());
    assert_eq!(rt; shape.leaf_of.as_slice(), [3, 6, 7, 9].as_slice());
    let elements = [
        element(None, 0, 40),
        element(Some(0), 0, 10),
        element(Some(1), 0, 20),
        element(Some(2), 0, 30),
        element(Some(0), 1, 10),
        element(Some(4), 1, 20),
        element(Some(5), 1, 30),
        element(Some(2), 2, 30),
        element(Some(1), 3, 20),
        element(Some(8), 3, 30),
    ];
    assert_eq!(rt; shape.elements.as_slice(), elements.as_slice());
    Ok(())
}

#[test]
fn shape_of_two_nodes(rt: HostRuntime) -> Result<(), Fail> {
    let place = place_of(rt.alloc(), TREE.as_bytes())?;
    let shape = place.shape(rt.alloc())?;
    assert_eq!(rt; shape.node_of.as_slice(), [0, 0, 1, 1].as_slice());
    assert_eq!(rt; shape.leaf_of.as_slice(), [1, 2].as_slice());
    let root = Element {
        parent: None,
        first_node: 0,
        budget: None,
    };
    let elements = [root, element(Some(0), 0, 1), element(Some(0), 1, 1)];
    assert_eq!(rt; shape.elements.as_slice(), elements.as_slice());
    Ok(())
}

const TREE_SHAPE: &str =
    "rmalock-shape 1\nranks 4 nodes 2 elements 3\nnode 0 0\nnode 1 1\nelement 0 root parent none budget none\nelement 1 0 parent 0 budget 1\nelement 2 1 parent 0 budget 1\nshard 0 home 0\nend\n";

const SPIN_SHAPE: &str =
    "rmalock-shape 1\nranks 1 nodes 1 elements 2\nnode 0 0\nelement 0 root parent none budget none\nelement 1 0 parent 0 budget none\nshard 0 home 0\nend\n";

#[test]
fn texts_of_shapes(rt: HostRuntime) -> Result<(), Fail> {
    for (text, wanted) in [(TREE, TREE_SHAPE), (SPIN, SPIN_SHAPE)] {
        let place = place_of(rt.alloc(), text.as_bytes())?;
        let printed = shape_text(rt.alloc(), &place)?;
        assert_eq!(rt; printed.as_slice(), wanted.as_bytes());
    }
    Ok(())
}

#[test]
fn names_of_locks(rt: HostRuntime) {
    assert_eq!(rt; lock_word(LockName::Alock), "alock");
    assert_eq!(rt; lock_named(b"rw"), Some(LockName::Rw));
    assert_eq!(rt; lock_named(b"spin "), None);
    assert_eq!(rt; Lock::Dmcs.name(), LockName::Dmcs);
}

#[test]
fn settings_of_locks(rt: HostRuntime) -> Result<(), Fail> {
    for (text, wanted) in [
        (SPIN, [0, 0, 0, 0, 0]),
        (MCS, [0, 0, 0, 0, 0]),
        (RW, [0, 0, 2, 3, 4]),
        (ALOCK, [5, 6, 0, 0, 0]),
        (SEQ, [5, 6, 0, 0, 0]),
        (COMBINE, [5, 6, 0, 0, 0]),
    ] {
        let knobs = place_of(rt.alloc(), text.as_bytes())?.knobs();
        let found = [
            knobs.local,
            knobs.remote,
            knobs.writers,
            knobs.readers,
            knobs.group,
        ];
        assert_eq!(rt; found, wanted);
    }
    Ok(())
}

#[test]
fn texts_of_paths(rt: HostRuntime) -> Result<(), Fail> {
    let mut text = Vec::new(rt.alloc());
    path_text(path(3, [0, 12, 999]), &mut text)?;
    path_text(Path::root(), &mut text)?;
    assert_eq!(rt; text.as_slice(), b"0.12.999".as_slice());
    Ok(())
}

/// A placement of 32 ranks on 32 nodes in three levels, and 16 shards.
fn largest(alloc: Global) -> Result<Vec<u8>, OutOfMemory> {
    let mut text = Vec::from_slice(
        alloc,
        b"rmalock-place 1\nlevels 3\nlock mcs\nbudget 0 500 1000\nshards 16\nbuckets 64\noverflow 64\n",
    )?;
    for rank in 0..32 {
        text.extend_from_slice(b"rank ")?;
        put_number(&mut text, rank)?;
        text.extend_from_slice(b" at ")?;
        let number = rank as u32;
        path_text(path(3, [number, number, 999]), &mut text)?;
        text.push(b'\n')?;
    }
    for shard in 0..16 {
        text.extend_from_slice(b"home ")?;
        put_number(&mut text, shard)?;
        text.extend_from_slice(b" 31.31.999\n")?;
    }
    text.extend_from_slice(b"end\n")?;
    Ok(text)
}

#[test]
fn largest_placement(rt: HostRuntime) -> Result<(), Fail> {
    let text = largest(rt.alloc())?;
    let place = place_of(rt.alloc(), &text)?;
    let shape = place.shape(rt.alloc())?;
    assert_eq!(rt; shape.nodes, 32);
    assert_eq!(rt; shape.elements.len(), 97);
    assert!(rt; matches!(place.lock, Lock::Mcs { .. }));
    let printed = place_text(rt.alloc(), &place)?;
    assert_eq!(rt; printed.as_slice(), text.as_slice());
    Ok(())
}
