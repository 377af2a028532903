//! The reader of a placement.
ghost use Rattle.std.specs.Prelude.{◌≡◌, ◌≤◌, ◌<◌, length, IfOk, Ok};
ghost use Rattle.rl_text.specs.Reading.{Gives, Leaves, GivesLeaving, seen};
ghost use Rattle.rl_place.specs.Numbering.{node_paths};
ghost use Rattle.rl_place.specs.Places.{ThePlace, IsProper};
ghost use Rattle.rl_place.specs.Reading.{opening_next, homes_next, closing_at, sites_at, place_at};
ghost use Rattle.rl_place.specs.Spelling.{place_spelling};

use crate::limits::MOST_RANKS;
use crate::names::nodes_of;
use crate::path::Path;
use crate::place::Place;
use crate::sections::{homes_of, ranks_of};
use crate::settings::{geom_of, lock_of, setting};
use rl_text::{Lines, Refusal, TEXT_LIMIT, TextErr, Why};
use std::alloc::Global;

/// The first line: `rmalock-place 1`.
#[tactic(auto, unfolding(crate::specs::Reading::opening_next))]
fn opening_of(lines: &mut Lines<'_>) -> Result<(), Refusal>
    ensures { Leaves result lines.new (opening_next lines.old) }
{
    let line = lines.next_whole()?;
    line.header(b"rmalock-place")
}

/// The last line: `end`, after which nothing follows.
#[tactic(auto, unfolding(crate::specs::Reading::closing_at))]
fn closing_of(lines: &mut Lines<'_>) -> Result<(), Refusal>
    ensures { result ≡ closing_at lines.old }
{
    let line = lines.next_whole()?;
    line.words().fixed(b"end", Why::Word)?;
    lines.end(&line)
}

/// The home lines of all shards, where the ranks sit at these paths.
fn homes_under(
    alloc: Global,
    lines: &mut Lines<'_>,
    levels: u32,
    paths: &[Path],
    shards: u32,
) -> Result<Vec<u32>, TextErr>
    requires { (1 ≤ levels) × (levels ≤ 3) × (length paths.now ≤ MOST_RANKS) }
    ensures { GivesLeaving (seen (λ homes. homes.items) result) lines.new (homes_next levels (node_paths paths.now) shards lines.old) }
{
    let nodes = nodes_of(alloc, paths)?;
    homes_of(alloc, lines, levels, &nodes, shards)
}

/// The lines of the ranks and of the homes, and the last line: the path of each rank and the node of each shard.
#[tactic(auto, unfolding(crate::specs::Reading::sites_at))]
fn sites_of(
    alloc: Global,
    lines: &mut Lines<'_>,
    levels: u32,
    shards: u32,
) -> Result<(Vec<Path>, Vec<u32>), TextErr>
    requires { (1 ≤ levels) × (levels ≤ 3) }
    ensures { Gives (seen (λ sites. (sites.0.items, sites.1.items)) result) (sites_at levels shards lines.old) }
{
    let paths = ranks_of(alloc, lines, levels)?;
    let homes = homes_under(alloc, lines, levels, paths.as_slice(), shards)?;
    closing_of(lines)?;
    Ok((paths, homes))
}

/// The placement that a text spells, line by line.
#[tactic(auto, unfolding(crate::specs::Reading::place_at, crate::specs::Reading::sites_at))]
fn place_of(alloc: Global, bytes: &[u8]) -> Result<Place, TextErr>
    requires { length bytes.now < TEXT_LIMIT }
    ensures { Gives result (place_at bytes.now) }
{
    let mut lines = Lines::new(bytes);
    opening_of(&mut lines)?;
    let levels = setting(&mut lines, b"levels", 1, 3)?;
    let lock = lock_of(alloc, &mut lines, levels)?;
    let geom = geom_of(&mut lines)?;
    let (paths, homes) = sites_of(alloc, &mut lines, levels, geom.shards)?;
    Ok(Place {
        levels,
        lock,
        geom,
        paths,
        homes,
    })
}

/// The placement that a text spells.
///
/// The text has fewer than [`TEXT_LIMIT`] bytes. `Refused` comes exactly where the text spells no placement, with the text's
/// first fault: its line and word from 1 (word 0 is the whole line) and its cause. `Memory` comes where memory ran out.
pub fn read_place(alloc: Global, bytes: &[u8]) -> Result<Place, TextErr>
    requires { length bytes.now < TEXT_LIMIT }
    // What is read is spelled so.
    ensures found { IfOk result (λ place. IsProper place × (bytes.now ≡ place_spelling place)) }
    // What is spelled so is read, unless memory runs out.
    ensures only { (place : ThePlace) → IsProper place → bytes.now ≡ place_spelling place → Gives result (Ok place) }
    // Which fault it is: the first one.
    ensures exact { Gives result (place_at bytes.now) }
{
    place_of(alloc, bytes)
}
