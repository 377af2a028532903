//! One step of a machine, and the words that tell of it.

ghost use Rattle.std.specs.Prelude.{◌≡◌, ◌+◌, ◌-◌, ◌<◌, ◌^◌, ◌++◌, drop, length, IfOk, OnOk};
ghost use Rattle.rl_model.specs.Geom.{GeomFits};
ghost use Rattle.rl_step.specs.Answers.{steps_made};
ghost use Rattle.rl_report.specs.Printing.{spaced};
ghost use Rattle.rl_machine.specs.Running.{running};
ghost use Rattle.rl_machine.specs.Run.{stepped, answer_of_step};
ghost use Rattle.rl_names.specs.StepWords.{shard_words, told_words, events_words, next_words, spaced_step};

use crate::printing::{put_answer, put_atom};
use crate::word_map::WordMap;
use rl_core::ShardCore;
use rl_machine::Machine;
use rl_place::Place;
use rl_report::{Naming, is_printed, put_event, put_value, put_word};
use rl_step::{Event, Stepped};
use std::alloc::AllocError as OutOfMemory;

/// The events from a place on.
fn events_from<'a>(events: &'a [(u32, Event)], first: usize) -> &'a [(u32, Event)]
    ensures { result.now ≡ drop first events.now }
{
    &events[first.min(events.len())..]
}

/// `event EVENT`.
fn put_told(out: &mut Vec<u8>, naming: &Naming, step: u32, event: Event) -> Result<(), OutOfMemory>
    ensures { OnOk result (out.new.items ≡ out.old.items ++ spaced (told_words naming.now (step, event))) }
{
    put_word(out, b"event")?;
    put_event(out, naming, event)
}

/// The events that come with a step, but for touches.
fn put_events(
    out: &mut Vec<u8>,
    naming: &Naming,
    events: &[(u32, Event)],
) -> Result<(), OutOfMemory>
    ensures { OnOk result (out.new.items ≡ out.old.items ++ spaced (events_words naming.now events.now)) }
{
    for (step, event) in events {
        if is_printed(*event) {
            put_told(out, naming, *step, *event)?;
        }
    }
    Ok(())
}

/// The shard of an atom, where there are more than one.
fn put_shard(out: &mut Vec<u8>, shards: u32, shard: u32) -> Result<(), OutOfMemory>
    ensures { OnOk result (out.new.items ≡ out.old.items ++ spaced (shard_words shards shard)) }
{
    if shards == 1 {
        return Ok(());
    }
    put_word(out, b"shard")?;
    put_value(out, u64::from(shard))
}

/// The atom that the rank's next step makes, where a call of it is open.
fn put_made<C: ShardCore>(
    out: &mut Vec<u8>,
    place: &Place,
    naming: &Naming,
    machine: &Machine<C>,
    rank: u32,
) -> Result<(), OutOfMemory>
    requires there { rank < length machine.now.calls }
    requires fits { GeomFits place.now.geom }
    ensures { OnOk result (out.new.items ≡ out.old.items ++ spaced (next_words place.now naming.now (running C.says machine.now) rank)) }
{
    let Some(next) = machine.next_atom(rank) else {
        return Ok(());
    };
    let shard = machine.place(rank);
    let map = WordMap::of(place, naming, machine.behind_journal(shard));
    put_shard(out, machine.shards(), shard)?;
    put_atom(out, naming, &map, next.atom, next.found)
}

/// Makes one step of a rank, gives its answer, and appends its words, each after a space: the atom that it makes, if it makes one, by the name of its word and with
/// what it finds; its answer; and the events that come with it, but for touches. The naming is that of the placement, on whose shards the machine runs. Refused only for want of memory:
/// then the step may have been made, and a part of the words may stand there.
pub fn put_step<C: ShardCore>(
    out: &mut Vec<u8>,
    place: &Place,
    naming: &Naming,
    machine: &mut Machine<C>,
    rank: u32,
) -> Result<Stepped, OutOfMemory>
    requires there { rank < length machine.old.calls }
    requires few { steps_made machine.old.steps < 2 ^ 32 - 1 }
    requires fits { GeomFits place.now.geom }
    ensures text { IfOk result (λ _. out.new.items ≡ out.old.items ++ spaced_step place.now naming.now (running C.says machine.old) rank) }
    ensures answer { IfOk result (λ answer. answer ≡ answer_of_step (running C.says machine.old) rank) }
    ensures stepped { IfOk result (λ _. running C.says machine.new ≡ stepped (running C.says machine.old) rank) }
    ensures counted { IfOk result (λ _. steps_made machine.new.steps ≡ steps_made machine.old.steps + 1) }
    ensures calls { IfOk result (λ _. machine.new.calls ≡ machine.old.calls) }
{
    machine.open_next(rank);
    put_made(out, place, naming, machine, rank)?;
    let before = machine.events(machine.place(rank)).len();
    let answer = machine.step(rank)?;
    put_answer(out, answer)?;
    let events = machine.events(machine.place(rank));
    put_events(out, naming, events_from(events, before))?;
    Ok(answer)
}
