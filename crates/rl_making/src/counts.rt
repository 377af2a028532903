//! What the summary of a run tells, counted where it stands in the machine: no event and no entry is copied.
ghost use Rattle.std.specs.Prelude.{◌≡◌, ◌≤◌, ◌<◌, length, count_by, map, slice_get, IfOk, Some};
ghost use Rattle.rl_place.specs.declared.limits.TheConstants.{MOST_RANKS};
ghost use Rattle.rl_place.specs.Places.{IsProper};
ghost use Rattle.rl_journal.specs.Ranks.{count_in};
ghost use Rattle.rl_machine.specs.Running.{running};
ghost use Rattle.rl_machine.specs.Records.{transcripts_at};
ghost use Rattle.rl_reporting.specs.Reported.{queue_count, dones_from, report_in};
ghost use Rattle.rl_making.specs.Summary.{is_get as is_get_at, is_settle as is_settle_at, is_pass as is_pass_at};
ghost use Rattle.rl_making.specs.Summary.{all_done as all_done_at, counts_in};
ghost use Rattle.rl_making.specs.Counting.{counts_on, IsSmall};

use rl_core::TellsAll;
use rl_machine::{Machine, soundness};
use rl_model::{Call, Entry};
use rl_place::Place;
use rl_report::Done;
use rl_step::{Event, Steps};
use std::alloc::{AllocError as OutOfMemory, Global};
use std::marker::Model;

/// What the summary of a run tells of a shard.
#[derive(Clone, Copy)]
pub struct ShardCounts {
    /// How many updates the shard had.
    pub updates: u32,
    /// How many gets its history has.
    pub reads: usize,
    /// How often its queues were settled, those of both cohorts together.
    pub settled: usize,
    /// How often they were passed.
    pub passed: usize,
}

/// What the summary tells of the whole run.
#[derive(Drop)]
pub struct RunCounts {
    /// By the shards' numbers.
    pub shards: Vec<ShardCounts>,
    /// How many calls all ranks have done.
    pub done: u64,
    /// How often each answer came.
    pub steps: Steps,
}

impl Model for RunCounts {
    ghost use Rattle.std.specs.Prelude.{Some};
    ghost use Rattle.rl_making.specs.Summary.{TheCounts};

    ghost Value = { TheCounts };

    ghost view = { λ c. record { shards = c.shards.items; done = c.done; steps = Some c.steps } };
}

fn is_get(entry: Entry) -> bool
    ensures { result ≡ is_get_at entry.call }
{
    matches!(entry.call, Call::Get { .. })
}

fn is_settle(event: Event) -> bool
    ensures { result ≡ is_settle_at event }
{
    matches!(event, Event::Settle { .. })
}

fn is_pass(event: Event) -> bool
    ensures { result ≡ is_pass_at event }
{
    matches!(event, Event::Pass { .. })
}

/// How many of the entries are gets.
fn gets_of(entries: &[Entry]) -> usize
    ensures { result ≡ count_by (λ entry. is_get_at entry.call) entries.now }
{
    entries.iter().filter(|entry| is_get(**entry)).count()
}

/// How often the events settle a queue.
fn settled_of(events: &[(u32, Event)]) -> usize
    ensures { result ≡ count_by (λ event. is_settle_at event.1) events.now }
{
    events.iter().filter(|event| is_settle(event.1)).count()
}

/// How often they pass one.
fn passed_of(events: &[(u32, Event)]) -> usize
    ensures { result ≡ count_by (λ event. is_pass_at event.1) events.now }
{
    events.iter().filter(|event| is_pass(event.1)).count()
}

/// How many gets so many ranks, which are all, have done on a shard.
fn reads_of<C: TellsAll>(machine: &Machine<C>, shard: u32, ranks: u32) -> usize
    requires there { shard < length machine.now.shards }
    requires ranks { ranks ≡ length machine.now.calls }
    requires small { IsSmall (running C.says machine.now) }
    ensures { result ≡ count_in (λ entry. is_get_at entry.call) (transcripts_at (running C.says machine.now) shard) }
{
    soundness(machine);
    let mut reads = 0;
    for rank in 0..ranks {
        reads += gets_of(machine.transcript(shard, rank));
    }
    reads
}

/// What is counted of a shard, on which so many ranks work.
fn shard_counts<C: TellsAll>(machine: &Machine<C>, shard: u32, ranks: u32) -> ShardCounts
    requires there { shard < length machine.now.shards }
    requires ranks { ranks ≡ length machine.now.calls }
    requires small { IsSmall (running C.says machine.now) }
    ensures { slice_get (map counts_on (running C.says machine.now).shards) shard ≡ Some result }
{
    let events = machine.events(shard);
    ShardCounts {
        updates: machine.updates(shard),
        reads: reads_of(machine, shard, ranks),
        settled: settled_of(events),
        passed: passed_of(events),
    }
}

/// What is counted of so many shards, which are all.
fn all_shards<C: TellsAll>(
    alloc: Global,
    machine: &Machine<C>,
    shards: u32,
    ranks: u32,
) -> Result<Vec<ShardCounts>, OutOfMemory>
    requires shards { shards ≡ length machine.now.shards }
    requires ranks { ranks ≡ length machine.now.calls }
    requires small { IsSmall (running C.says machine.now) }
    ensures { IfOk result (λ counts. counts.items ≡ map counts_on (running C.says machine.now).shards) }
{
    let mut counts = Vec::new(alloc);
    for shard in 0..shards {
        counts.push(shard_counts(machine, shard, ranks))?;
    }
    Ok(counts)
}

/// How many calls all ranks have done.
fn all_done(done: &[Done]) -> u64
    requires { length done.now ≤ MOST_RANKS }
    ensures { result ≡ all_done_at done.now }
{
    let mut all = 0u64;
    for rank in done {
        all += u64::from(rank.done);
    }
    all
}

/// What each of so many ranks has done of the calls that it was given.
fn dones_of_machine<C: TellsAll>(
    alloc: Global,
    machine: &Machine<C>,
    ranks: u32,
) -> Result<Vec<Done>, OutOfMemory>
    requires { ranks ≡ length machine.now.calls }
    ensures { IfOk result (λ dones. dones.items ≡ dones_from (running C.says machine.now) 0 machine.now.calls) }
{
    let mut dones = Vec::new(alloc);
    for rank in 0..ranks {
        dones.push(Done {
            done: machine.done(rank),
            given: machine.given(rank),
        })?;
    }
    Ok(dones)
}

/// What the summary of the run that a machine made tells, where its shards and ranks are those of a placement: what it
/// would tell of the report of the machine. Refused only for want of memory.
pub fn counts_of_machine<C: TellsAll>(
    alloc: Global,
    place: &Place,
    machine: &Machine<C>,
) -> Result<RunCounts, OutOfMemory>
    requires proper { IsProper place.now }
    requires shards { length machine.now.shards ≡ place.now.geom.shards }
    requires ranks { length machine.now.calls ≡ length place.now.paths }
    requires small { IsSmall (running C.says machine.now) }
    ensures { IfOk result (λ counts. counts ≡ counts_in (report_in (queue_count place.now) (running C.says machine.now))) }
{
    soundness(machine);
    let ranks = place.paths.len() as u32;
    let done = dones_of_machine(alloc, machine, ranks)?;
    Ok(RunCounts {
        shards: all_shards(alloc, machine, place.geom.shards, ranks)?,
        done: all_done(done.as_slice()),
        steps: machine.steps(),
    })
}
