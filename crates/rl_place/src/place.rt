//! A placement: where ranks and shards live, and which lock guards the shards.

use crate::lock::Lock;
use crate::path::Path;
use rl_model::Geom;
use std::marker::Model;

/// Where ranks and shards live, and which lock guards the shards.
///
/// Which placements are proper is said by `IsProper` of `specs/Places.antt`: 1 to 3 levels, 1 to [`MOST_RANKS`] ranks, 1 to
/// [`MOST_SHARDS`] shards, 1 to [`MOST_BUCKETS`] buckets, 0 to [`MOST_CELLS`] overflow cells, each path of `levels` numbers
/// of at most [`MOST_PART`], and a home with a rank for each shard.
///
/// [`MOST_RANKS`]: crate::MOST_RANKS
/// [`MOST_SHARDS`]: crate::MOST_SHARDS
/// [`MOST_BUCKETS`]: crate::MOST_BUCKETS
/// [`MOST_CELLS`]: crate::MOST_CELLS
/// [`MOST_PART`]: crate::MOST_PART
#[derive(Drop)]
pub struct Place {
    /// How many numbers a path has.
    pub levels: u32,
    pub lock: Lock,
    /// The size of the table.
    pub geom: Geom,
    /// The path of each rank.
    pub paths: Vec<Path>,
    /// The node on which the words of each shard live. Nodes are numbered in the order in which their paths are first
    /// seen.
    pub homes: Vec<u32>,
}

impl Model for Place {
    ghost use Rattle.rl_place.specs.Places.{ThePlace};

    ghost Value = { ThePlace };

    ghost view = { λ p. record { levels = p.levels; lock = p.lock; geom = p.geom; paths = p.paths.items; homes = p.homes.items } };
}
