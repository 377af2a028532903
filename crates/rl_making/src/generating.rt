//! A placement and calls, made from a number.
ghost use Rattle.std.specs.Prelude.{◌≡◌, ◌≤◌, ◌<◌, ◌+◌, ◌%◌, ◌/◌, length, map, IfOk};
ghost use Rattle.std.specs.List.{range_with_len};
ghost use Rattle.rl_place.specs.declared.limits.TheConstants.{MOST_RANKS};
ghost use Rattle.rl_place.specs.Places.{IsProper};
ghost use Rattle.rl_ops.specs.declared.ops.TheConstants.{MOST_CALLS};
ghost use Rattle.rl_ops.specs.Ops.{OpsFit};
ghost use Rattle.rl_chance.specs.Draws.{draw};
ghost use Rattle.rl_making.specs.Generate.{call_drawn, made_paths, made_place, made_ops};

use rl_chance::Generator;
use rl_model::{Call, Geom};
use rl_ops::{ByRank, Ops};
use rl_place::{Lock, Path, Place};
use std::alloc::{AllocError as OutOfMemory, Global};

/// How many ranks sit on a node.
const RANKS_ON_A_NODE: u32 = 4;

/// How many shards the table has.
const SHARDS: u32 = 4;

/// How many keys there are, from 0 on.
const KEYS: u32 = 100;

/// Every value is below this.
const VALUES: u32 = 1000;

/// Draws an argument of a call.
fn value_of(generator: &mut Generator) -> u64
    ensures { (result, generator.new.state) ≡ draw 1000 generator.old.state }
{
    u64::from(generator.draw(VALUES))
}

/// Draws a call: its kind, then its key, then its arguments.
fn call_of(generator: &mut Generator) -> Call
    ensures { (result, generator.new.state) ≡ call_drawn generator.old.state }
{
    let kind = generator.draw(8);
    let key = u64::from(generator.draw(KEYS));
    match kind {
        0..=2 => Call::Put {
            key,
            value: value_of(generator),
        },
        3 | 4 => Call::Get { key },
        5 => Call::Del { key },
        6 => Call::Add {
            key,
            by: value_of(generator),
        },
        _ => {
            let old = value_of(generator);
            let new = value_of(generator);
            Call::Cas { key, old, new }
        }
    }
}

/// The paths of the ranks.
fn paths_of(alloc: Global, ranks: u32) -> Result<Vec<Path>, OutOfMemory>
    ensures { IfOk result (λ paths. paths.items ≡ made_paths ranks) }
{
    (0..ranks)
        .map(|rank| Path {
            len: 1,
            parts: [rank / RANKS_ON_A_NODE, 0, 0],
        })
        .collect(alloc)
}

/// The homes of the shards, which go round the nodes.
fn homes_on(alloc: Global, nodes: u32) -> Result<Vec<u32>, OutOfMemory>
    requires { 0 < nodes }
    ensures { IfOk result (λ homes. homes.items ≡ map (λ shard. shard % nodes) (range_with_len 0 4)) }
{
    (0..SHARDS).map(|shard| shard % nodes).collect(alloc)
}

/// The placement of so many ranks.
fn place_of(alloc: Global, ranks: u32) -> Result<Place, OutOfMemory>
    requires { 1 ≤ ranks }
    ensures { IfOk result (λ place. place ≡ made_place ranks) }
{
    let nodes = ranks.div_ceil(RANKS_ON_A_NODE);
    Ok(Place {
        levels: 1,
        lock: Lock::Alock {
            local: 4,
            remote: 4,
        },
        geom: Geom {
            shards: SHARDS,
            buckets: 16,
            overflow: 16,
        },
        paths: paths_of(alloc, ranks)?,
        homes: homes_on(alloc, nodes)?,
    })
}

/// So many calls, dealt to the ranks one by one.
fn ops_of(alloc: Global, number: u64, ranks: u32, calls: u32) -> Result<Ops, OutOfMemory>
    requires { 1 ≤ ranks }
    ensures { IfOk result (λ ops. ops ≡ made_ops number ranks calls) }
{
    let mut generator = Generator::new(number);
    let each = calls.div_ceil(ranks) as usize;
    let mut by_rank = ByRank::with_capacity(alloc, ranks, each)?;
    let mut sizes = ByRank::with_capacity(alloc, ranks, each)?;
    for index in 0..calls {
        let rank = index % ranks;
        by_rank.push(rank, call_of(&mut generator))?;
        sizes.push(rank, 1)?;
    }
    Ok(Ops { by_rank, sizes })
}

/// Makes a placement and calls from a number.
///
/// Rank k sits on node k / 4, and four shards of 16 buckets and 16 overflow cells go round the nodes, each under an ALock
/// with budgets 4 and 4. The calls go round the ranks, each alone; kind, key and arguments of each are drawn from a
/// generator that begins with the number. Keys are below 100 and values below 1000, and no call only holds a lock. The same
/// arguments always make the same placement and calls.
pub fn generate(
    alloc: Global,
    number: u64,
    ranks: u32,
    calls: u32,
) -> Result<(Place, Ops), OutOfMemory>
    requires some_ranks { 1 ≤ ranks }
    requires most_ranks { ranks ≤ MOST_RANKS }
    requires most_calls { calls ≤ MOST_CALLS }
    ensures place { IfOk result (λ made. made.0 ≡ made_place ranks) }
    ensures proper { IfOk result (λ made. IsProper made.0) }
    ensures ops { IfOk result (λ made. made.1 ≡ made_ops number ranks calls) }
    ensures fit { IfOk result (λ made. OpsFit ranks 4 made.1) }
{
    let place = place_of(alloc, ranks)?;
    let ops = ops_of(alloc, number, ranks, calls)?;
    Ok((place, ops))
}
