//! Placements: where ranks and shards live, and which lock guards the shards.
//!
//! A placement file is a text of lines: how many numbers a path has, the lock and its settings, the size of the table, a
//! line for each rank with the path of its node, and a line for each shard with the path of its home.
//!
//! - A **path** ([`Path`]) is one to three numbers that name a node; its first numbers name the groups above the node.
//! - A **placement** ([`Place`]) is what such a file says, with its **lock** ([`Lock`]).
//! - [`read_place`] reads a file, [`place_text`] prints one.
//! - [`Place::shape`] numbers nodes and elements in the order in which they are first seen, and gives where ranks sit and
//!   the tree of elements above them. [`Place::names`] gives the path of each element, [`Place::knobs`] what the lock reads.
//! - [`shape_text`] prints a placement's shape.
//!
//! The promise: a text is read as a placement exactly where it is that placement's spelling (`specs/Spelling.antt`), every
//! other text is refused at its first fault (`specs/Reading.antt`, which can be held against the file's table line by line),
//! what is printed is the spelling, and a placement has one spelling. The shape of a proper placement is proper, and its
//! text is the one that `specs/ShapeText.antt` says.
//! Only want of memory is free.
//!
//! Not said here: what a lock does, and how much memory or time a call takes.
#![tactic(auto)]

mod knobs;
mod laws;
mod limits;
mod lock;
mod lock_words;
mod names;
mod path;
mod path_word;
mod place;
mod printer;
mod reader;
mod sections;
mod settings;
mod shape;
mod shape_printer;

pub use laws::no_fault;
pub use limits::{MOST_BUCKETS, MOST_BUDGET, MOST_CELLS, MOST_PART, MOST_RANKS, MOST_SHARDS};
pub use lock::{Budgets, Lock};
pub use lock_words::{lock_named, lock_word};
pub use path::Path;
pub use path_word::path_text;
pub use place::Place;
pub use printer::place_text;
pub use reader::read_place;
pub use shape_printer::shape_text;
