//! The reader of a report.
ghost use Rattle.std.specs.Prelude.{◌≡◌, ◌<◌, ◌↔◌, ℕ, List, None, length, IfOk, Ok};
ghost use Rattle.rl_text.specs.Reading.{Gives, GivesLeaving, Leaves, seen};
ghost use Rattle.rl_place.specs.Places.{ThePlace, IsProper};
ghost use Rattle.rl_report.specs.Naming.{naming_of};
ghost use Rattle.rl_report.specs.Reports.{TheReport};
ghost use Rattle.rl_report.specs.Spelling.{IsTextOf};
ghost use Rattle.rl_report.specs.Reading.{all_shards_next, dones_next, steps_next, closing_at, body_next, report_at, report_fault};

use crate::line_reader::{done_of, mode_of, sizes_of, steps_of, version_of};
use crate::naming::Naming;
use crate::report::{Done, Report, ShardReport};
use crate::sections::next_shard;
use crate::version::Version;
use rl_place::Place;
use rl_step::Steps;
use rl_text::{Lines, Refusal, TEXT_LIMIT, TextErr, Why};
use std::alloc::Global;

// The parts of all shards.
fn shards_of(
    alloc: Global,
    lines: &mut Lines<'_>,
    naming: &Naming,
    version: Version,
    replay: bool,
) -> Result<Vec<ShardReport>, TextErr>
    ensures { GivesLeaving (seen (λ shards. shards.items) result) lines.new (all_shards_next naming.now version replay lines.old) }
{
    let mut shards = Vec::new(alloc);
    for number in 0..naming.shards {
        let shard = next_shard(alloc, lines, naming, version, replay, number)?;
        shards.push(shard)?;
    }
    Ok(shards)
}

// The lines of all ranks.
fn dones_of(alloc: Global, lines: &mut Lines<'_>, ranks: u32) -> Result<Vec<Done>, TextErr>
    ensures { GivesLeaving (seen (λ dones. dones.items) result) lines.new (dones_next 0 ranks lines.old) }
{
    let mut dones = Vec::new(alloc);
    for rank in 0..ranks {
        let line = lines.next_whole()?;
        let done = done_of(&line, rank)?;
        dones.push(done)?;
    }
    Ok(dones)
}

// The line of the steps, which a replay has.
#[tactic(auto, unfolding(crate::specs::Reading::steps_next))]
fn next_steps(lines: &mut Lines<'_>, replay: bool) -> Result<Option<Steps>, Refusal>
    ensures { Leaves result lines.new (steps_next replay lines.old) }
{
    if !replay {
        return Ok(None);
    }
    let line = lines.next_whole()?;
    Ok(Some(steps_of(&line)?))
}

// The last line: `end`, after which nothing follows.
#[tactic(auto, unfolding(crate::specs::Reading::closing_at))]
fn closing_of(lines: &mut Lines<'_>) -> Result<(), Refusal>
    ensures { result ≡ closing_at lines.old }
{
    let line = lines.next_whole()?;
    line.words().fixed(b"end", Why::Word)?;
    lines.end(&line)
}

// The lines after the first.
#[tactic(auto, unfolding(crate::specs::Reading::body_next))]
fn body_of(
    alloc: Global,
    lines: &mut Lines<'_>,
    naming: &Naming,
    version: Version,
) -> Result<Report, TextErr>
    ensures { Gives result (body_next naming.now version lines.old) }
{
    let mode = lines.next_whole()?;
    let replay = mode_of(&mode, naming)?;
    let sizes = lines.next_whole()?;
    sizes_of(&sizes, naming)?;
    let shards = shards_of(alloc, lines, naming, version, replay)?;
    let done = dones_of(alloc, lines, naming.ranks)?;
    let steps = next_steps(lines, replay)?;
    closing_of(lines)?;
    Ok(Report {
        shards,
        done,
        steps,
    })
}

#[tactic(auto, unfolding(crate::specs::Reading::report_at))]
fn report_of(alloc: Global, place: &Place, bytes: &[u8]) -> Result<Report, TextErr>
    requires proper { IsProper place.now }
    requires few { length bytes.now < TEXT_LIMIT }
    ensures { Gives result (report_at (naming_of place.now) bytes.now) }
{
    let naming = Naming::of(alloc, place)?;
    let mut lines = Lines::new(bytes);
    let first = lines.next_whole()?;
    let version = version_of(&first)?;
    body_of(alloc, &mut lines, &naming, version)
}

/// The report that a text spells, in the second version or in the first.
///
/// The placement is that of the replay or run, and the text has fewer than [`TEXT_LIMIT`] bytes. `Refused` comes exactly
/// where the text spells no report of this placement, with the text's first fault: its line and word from 1 (word 0 is the
/// whole line) and its cause. `Memory` comes where memory ran out.
pub fn read_report(alloc: Global, place: &Place, bytes: &[u8]) -> Result<Report, TextErr>
    requires proper { IsProper place.now }
    requires few { length bytes.now < TEXT_LIMIT }
    // What is read keeps its limits, and is spelled so.
    ensures found { IfOk result (λ r. IsTextOf (naming_of place.now) r bytes.now) }
    // What is spelled so is read, unless memory runs out.
    ensures only { (r : TheReport) → IsTextOf (naming_of place.now) r bytes.now → Gives result (Ok r) }
    // Which fault it is: the first one.
    ensures exact { Gives result (report_at (naming_of place.now) bytes.now) }
{
    report_of(alloc, place, bytes)
}

/// Two facts of the grammar: a text has no fault exactly where it is the text of a report of the placement, and it is the
/// text of no other report. There is nothing to run.
pub fn no_report_fault()
    ensures spelled { (place : ThePlace) → IsProper place → (text : List ℕ)
        → (report_fault (naming_of place) text ≡ None) ↔ ((r : TheReport) × IsTextOf (naming_of place) r text) }
    ensures one { (place : ThePlace) → IsProper place → (text : List ℕ) (a b : TheReport)
        → IsTextOf (naming_of place) a text → IsTextOf (naming_of place) b text → a ≡ b }
{}
