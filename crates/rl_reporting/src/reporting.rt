//! The report of a machine.
ghost use Rattle.std.specs.Prelude.{◌≡◌, ◌↔◌, ◌<◌, ◌^◌, ℕ, [], All, length, filter, get_or, map, slice_get, false, IsTrue, IfOk, Some};
ghost use Rattle.rl_place.specs.Places.{IsProper};
ghost use Rattle.rl_report.specs.Naming.{queue_names};
ghost use Rattle.rl_report.specs.Spelling.{is_printed};
ghost use Rattle.rl_core.specs.RankGood.{entries_in};
ghost use Rattle.rl_machine.specs.Running.{running};
ghost use Rattle.rl_machine.specs.Promises.{transcripts_on};
ghost use Rattle.rl_machine.specs.Records.{transcripts_at};
ghost use Rattle.rl_reporting.specs.Lists.{lists_in};
ghost use Rattle.rl_reporting.specs.Reported.{queue_count, part_of_replay, dones_from, report_in, NumbersFit};

use rl_core::ShardCore;
use rl_machine::{Machine, soundness};
use rl_model::Entry;
use rl_place::Place;
use rl_report::{Done, Report, ShardReport, merge, replies_fit, tallies, tallies_fit};
use rl_step::Event;
use rl_word::QueueKind;
use std::alloc::{AllocError as OutOfMemory, Global};

/// How many queues of this kind a placement has.
fn count_of_kind(alloc: Global, place: &Place, kind: QueueKind) -> Result<u32, OutOfMemory>
    requires { IsProper place.now }
    ensures { IfOk result (λ n. n ≡ length (queue_names kind place.now.levels place.now.paths)) }
{
    match kind {
        QueueKind::NoQueue => Ok(0),
        QueueKind::OneForAll => Ok(1),
        QueueKind::TwoCohorts => Ok(2),
        QueueKind::Elements { .. } => Ok(place.names(alloc)?.len() as u32),
    }
}

/// How many queues the lock of a placement has.
fn queue_count(alloc: Global, place: &Place) -> Result<u32, OutOfMemory>
    requires { IsProper place.now }
    ensures { IfOk result (λ n. n ≡ queue_count place.now) }
{
    count_of_kind(alloc, place, place.lock.name().facts().queues)
}

fn is_touch(event: Event) -> bool
    ensures { IsTrue result ↔ (is_printed event ≡ false) }
{
    matches!(event, Event::Touch { .. })
}

/// The events but for touches.
fn without_touches(alloc: Global, events: &[(u32, Event)]) -> Result<Vec<(u32, Event)>, OutOfMemory>
    ensures { IfOk result (λ kept. kept.items ≡ filter (λ e. is_printed e.1) events.now) }
{
    let mut kept = Vec::with_capacity(alloc, events.len())?;
    for (step, event) in events {
        if !is_touch(*event) {
            kept.push((*step, *event))?;
        }
    }
    Ok(kept)
}

/// Every rank's entries on a shard, rank by rank.
type Transcripts = Vec<Vec<Entry>>;

/// Every rank's entries on each shard.
fn all_transcripts<C: ShardCore>(
    alloc: Global,
    machine: &Machine<C>,
    shards: u32,
) -> Result<Vec<Transcripts>, OutOfMemory>
    requires { shards ≡ length machine.now.shards }
    ensures { IfOk result (λ told. map lists_in told.items ≡ map transcripts_on (running C.says machine.now).shards) }
{
    let mut told = Vec::with_capacity(alloc, shards as usize)?;
    for shard in 0..shards {
        told.push(machine.transcripts(alloc, shard)?)?;
    }
    Ok(told)
}

/// The part of one shard, whose lock has so many queues, with its transcripts.
fn part_of<C: ShardCore>(
    alloc: Global,
    machine: &Machine<C>,
    queues: u32,
    shard: u32,
    transcripts: &[Vec<Entry>],
) -> Result<ShardReport, OutOfMemory>
    requires there { shard < length machine.now.shards }
    requires told { map (λ t. t.items) transcripts.now ≡ transcripts_at (running C.says machine.now) shard }
    ensures { IfOk result (λ part. slice_get (map (part_of_replay queues) (running C.says machine.now).shards) shard ≡ Some part) }
{
    let journal = machine.journal(alloc, shard)?;
    let events = machine.events(shard);
    Ok(ShardReport {
        updates: machine.updates(shard),
        entries: merge(alloc, journal.as_slice(), transcripts)?,
        queues: tallies(alloc, queues, events)?,
        pairs: Vec::new(alloc),
        events: without_touches(alloc, events)?,
    })
}

/// The parts of all shards, with their transcripts.
fn parts_of<C: ShardCore>(
    alloc: Global,
    machine: &Machine<C>,
    queues: u32,
    shards: u32,
    told: &[Transcripts],
) -> Result<Vec<ShardReport>, OutOfMemory>
    requires shards { shards ≡ length machine.now.shards }
    requires told { map lists_in told.now ≡ map transcripts_on (running C.says machine.now).shards }
    ensures { IfOk result (λ parts. parts.items ≡ map (part_of_replay queues) (running C.says machine.now).shards) }
{
    let mut parts = Vec::with_capacity(alloc, told.len())?;
    for shard in 0..shards {
        let transcripts = told[shard as usize].as_slice();
        parts.push(part_of(alloc, machine, queues, shard, transcripts)?)?;
    }
    Ok(parts)
}

// The numbers of a part are in their ranges, as their types have them. There is nothing to run but to look at each.
fn part_fits(part: &ShardReport)
    ensures { NumbersFit part.now }
{
    replies_fit(part.entries.as_slice());
    tallies_fit(part.queues.as_slice());
}

// The same of all parts.
fn parts_fit(parts: &[ShardReport])
    ensures { All NumbersFit parts.now }
{
    for part in parts {
        part_fits(part);
    }
}

/// How many entries a rank has on all shards.
fn done_by(told: &[Transcripts], rank: u32) -> u32
    requires there { (s : ℕ) (t : _) → slice_get told.now s ≡ Some t → rank < length t.items }
    requires few { entries_in (map (λ t. get_or (lists_in t) rank []) told.now) < 2 ^ 32 }
    ensures { result ≡ entries_in (map (λ t. get_or (lists_in t) rank []) told.now) }
{
    let mut done = 0;
    for transcripts in told {
        done += transcripts[rank as usize].len() as u32;
    }
    done
}

/// What each rank has done of the calls that it was given.
fn dones_of<C: ShardCore>(
    alloc: Global,
    machine: &Machine<C>,
    told: &[Transcripts],
    ranks: u32,
) -> Result<Vec<Done>, OutOfMemory>
    requires ranks { ranks ≡ length machine.now.calls }
    requires told { map lists_in told.now ≡ map transcripts_on (running C.says machine.now).shards }
    ensures { IfOk result (λ dones. dones.items ≡ dones_from (running C.says machine.now) 0 machine.now.calls) }
{
    soundness(machine);
    let mut dones = Vec::with_capacity(alloc, ranks as usize)?;
    for rank in 0..ranks {
        let given = machine.given(rank);
        let done = done_by(told, rank);
        dones.push(Done { done, given })?;
    }
    Ok(dones)
}

/// The report of a machine whose shards and ranks are those of a placement.
pub fn report_of_machine<C: ShardCore>(
    alloc: Global,
    place: &Place,
    machine: &Machine<C>,
) -> Result<Report, OutOfMemory>
    requires proper { IsProper place.now }
    requires shards { length machine.now.shards ≡ place.now.geom.shards }
    requires ranks { length machine.now.calls ≡ length place.now.paths }
    ensures report { IfOk result (λ report. report ≡ report_in (queue_count place.now) (running C.says machine.now)) }
    // The numbers of its parts are in their ranges.
    ensures numbers { IfOk result (λ report. All NumbersFit report.shards) }
{
    let queues = queue_count(alloc, place)?;
    let ranks = place.paths.len() as u32;
    let told = all_transcripts(alloc, machine, place.geom.shards)?;
    let shards = parts_of(alloc, machine, queues, place.geom.shards, told.as_slice())?;
    parts_fit(shards.as_slice());
    Ok(Report {
        shards,
        done: dones_of(alloc, machine, told.as_slice(), ranks)?,
        steps: Some(machine.steps()),
    })
}
