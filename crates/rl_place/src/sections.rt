//! Readers of the lines of the ranks and of the homes.
ghost use Rattle.std.specs.Prelude.{◌≡◌, ◌≤◌, ◌<◌, length, IfOk};
ghost use Rattle.rl_text.specs.Rows.{row_of};
ghost use Rattle.rl_text.specs.Reading.{GivesLeaving, seen};
ghost use Rattle.rl_place.specs.Reading.{rank_at, ranks_next, home_at, homes_next};

use crate::limits::MOST_RANKS;
use crate::path::Path;
use crate::path_word::path_of;
use indexmap::IndexSet;
use rl_text::{Line, Lines, Refusal, TextErr, Why};
use std::alloc::Global;

/// `rank K at PATH`, where K is the next rank.
#[tactic(auto, unfolding(crate::specs::Reading::rank_at))]
fn rank_of(line: &Line<'_>, levels: u32, next: u64) -> Result<Path, Refusal>
    requires { (1 ≤ levels) × (levels ≤ 3) }
    ensures value { result ≡ rank_at (row_of line.now) levels next }
    ensures few { IfOk result (λ _. next < MOST_RANKS) }
{
    let mut words = line.words();
    words.fixed(b"rank", Why::Word)?;
    let rank = words.below(u64::from(MOST_RANKS))?;
    words.next_in_order(rank, next)?;
    words.fixed(b"at", Why::Word)?;
    let path = path_of(&mut words, levels)?;
    words.no_more()?;
    Ok(path)
}

/// The lines of the ranks, up to the first line that begins with `home`: the path of each rank.
pub fn ranks_of(alloc: Global, lines: &mut Lines<'_>, levels: u32) -> Result<Vec<Path>, TextErr>
    requires { (1 ≤ levels) × (levels ≤ 3) }
    ensures value { GivesLeaving (seen (λ paths. paths.items) result) lines.new (ranks_next levels lines.old) }
    ensures few { IfOk result (λ paths. length paths.items ≤ MOST_RANKS) }
{
    let mut paths = Vec::new(alloc);
    loop {
        let line = lines.next_whole()?;
        let path = rank_of(&line, levels, paths.len() as u64)?;
        paths.push(path)?;
        if lines.next_begins(b"home") {
            return Ok(paths);
        }
    }
}

/// `home I PATH`, where I is the next shard and PATH is that of a node: the node's number.
#[tactic(auto, unfolding(crate::specs::Reading::home_at))]
fn home_of(
    line: &Line<'_>,
    levels: u32,
    nodes: &IndexSet<Path>,
    shards: u32,
    next: u32,
) -> Result<u32, Refusal>
    requires { (1 ≤ levels) × (levels ≤ 3) × (length nodes.now.keys ≤ MOST_RANKS) }
    ensures value { result ≡ home_at (row_of line.now) levels nodes.now.keys shards next }
{
    let mut words = line.words();
    words.fixed(b"home", Why::Word)?;
    let shard = words.below(u64::from(shards))?;
    words.next_in_order(shard, u64::from(next))?;
    let path = path_of(&mut words, levels)?;
    let Some(node) = nodes.get_index_of(&path) else {
        return Err(words.refusal(Why::Range));
    };
    words.no_more()?;
    Ok(node as u32)
}

/// The home lines of all shards: the node of each shard.
pub fn homes_of(
    alloc: Global,
    lines: &mut Lines<'_>,
    levels: u32,
    nodes: &IndexSet<Path>,
    shards: u32,
) -> Result<Vec<u32>, TextErr>
    requires { (1 ≤ levels) × (levels ≤ 3) × (length nodes.now.keys ≤ MOST_RANKS) }
    ensures { GivesLeaving (seen (λ homes. homes.items) result) lines.new (homes_next levels nodes.now.keys shards lines.old) }
{
    let mut homes = Vec::new(alloc);
    for shard in 0..shards {
        let line = lines.next_whole()?;
        let home = home_of(&line, levels, nodes, shards, shard)?;
        homes.push(home)?;
    }
    Ok(homes)
}
