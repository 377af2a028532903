//! What is noted of ranks: where each was seen to rest last; and steps that are taken by that.

ghost use Rattle.std.specs.Prelude.{ℕ, ◌≡◌, ◌+◌, ◌<◌, ◌^◌, true, false, length, replicate, slice_set};
ghost use Rattle.rl_step.specs.Answers.{steps_made};
ghost use Rattle.rl_step.specs.declared.events.Stepped.TheVariants.{Busy, Waiting};
ghost use Rattle.rl_machine.specs.Rested.{RestsAt, Tells};
ghost use Rattle.rl_machine.specs.Run.{run_of};
ghost use Rattle.rl_machine.specs.Running.{Running, running, cores_of};
ghost use Rattle.rl_replay.specs.Rested.{Rested, AllRested, KeepsNotes, IsForgotten, RunsOnAt};

use crate::last_rest::LastRest;
use crate::rounds::go_round;
use rl_core::Resting;
use rl_machine::{Machine, RestAt, StepEnd, StepOutcome};
use rl_step::Stepped;

/// So many steps of a rank that was seen to be about to take the card of a node, on a shard: where another rank is in it still, each is
/// answered so and changes nothing else, so they are counted at once, whichever rank it is. Else nothing has changed.
#[inline(always)]
fn rest_held_off<C: Resting>(machine: &mut Machine<C>, shard: u32, node: u32, count: u32) -> bool
    requires few { steps_made machine.old.steps + count < 2 ^ 32 }
    requires rested { (rank : ℕ) × RestsAt (running C.says machine.old) rank shard (Busy node 0) }
    ensures cores { cores_of machine.new ≡ cores_of machine.old }
    ensures run { result ≡ true → RunsOnAt (running C.says machine.old) shard (Busy node 0) count (running C.says machine.new) }
    ensures noted { KeepsNotes C.with_sight (running C.says machine.old) (running C.says machine.new) }
    ensures kept { result ≡ false → machine.new ≡ machine.old }
{
    if machine.words(shard).card(node) == 0 {
        return false;
    }
    machine.count_more(Stepped::Busy { node, holder: 0 }, count);
    true
}

/// The same of a rank that was seen to wait for a word, while the word has the same value.
#[inline(always)]
fn rest_waiting<C: Resting>(
    machine: &mut Machine<C>,
    shard: u32,
    word: u32,
    value: u64,
    count: u32,
) -> bool
    requires few { steps_made machine.old.steps + count < 2 ^ 32 }
    requires rested { (rank : ℕ) × RestsAt (running C.says machine.old) rank shard (Waiting word value) }
    ensures cores { cores_of machine.new ≡ cores_of machine.old }
    ensures run { result ≡ true → RunsOnAt (running C.says machine.old) shard (Waiting word value) count (running C.says machine.new) }
    ensures noted { KeepsNotes C.with_sight (running C.says machine.old) (running C.says machine.new) }
    ensures kept { result ≡ false → machine.new ≡ machine.old }
{
    if machine.words(shard).value(word) != value {
        return false;
    }
    machine.count_more(Stepped::Waiting { word, value }, count);
    true
}

/// The same of a rank of which anything was noted but that it is held off or goes in a round: where all its calls are done, its steps are
/// counted too.
#[inline(always)]
fn rest<C: Resting>(
    machine: &mut Machine<C>,
    rank: u32,
    last: &LastRest<C::Sight>,
    count: u32,
) -> bool
    requires few { steps_made machine.old.steps + count < 2 ^ 32 }
    requires rested { Rested C.with_sight (running C.says machine.old) rank last.now }
    ensures cores { cores_of machine.new ≡ cores_of machine.old }
    ensures run { result ≡ true → running C.says machine.new ≡ run_of (running C.says machine.old) (replicate count rank) }
    ensures noted { KeepsNotes C.with_sight (running C.says machine.old) (running C.says machine.new) }
    ensures kept { result ≡ false → machine.new ≡ machine.old }
{
    match last {
        LastRest::Waits { shard, word, value } => {
            rest_waiting(machine, *shard, *word, *value, count)
        }
        LastRest::Finished => {
            machine.count_more(Stepped::Finished, count);
            true
        }
        LastRest::Unknown | LastRest::HeldOff { .. } | LastRest::Round { .. } => false,
    }
}

/// Whether what was noted of the rank shows all of so many steps: then they are counted, or made by exchanging what the rank sees. Else
/// nothing has changed.
#[inline(always)]
pub fn take_noted<C: Resting>(
    machine: &mut Machine<C>,
    rests: &mut Vec<LastRest<C::Sight>>,
    rank: u32,
    count: u32,
) -> bool
    requires there { rank < length machine.old.calls }
    requires few { steps_made machine.old.steps + count < 2 ^ 32 }
    requires many { length rests.old.items ≡ length machine.old.calls }
    requires rested { AllRested C.with_sight (running C.says machine.old) rests.old.items }
    ensures cores { cores_of machine.new ≡ cores_of machine.old }
    ensures run { result ≡ true → running C.says machine.new ≡ run_of (running C.says machine.old) (replicate count rank) }
    ensures many { length rests.new.items ≡ length rests.old.items }
    ensures rested { AllRested C.with_sight (running C.says machine.new) rests.new.items }
    ensures kept { result ≡ false → machine.new ≡ machine.old }
{
    let at = rank as usize;
    if let LastRest::HeldOff { shard, node } = &rests[at] {
        return rest_held_off(machine, *shard, *node, count);
    }
    if let LastRest::Round { .. } = &rests[at] {
        return go_round(machine, rank, &mut rests[at], count);
    }
    rest(machine, rank, &rests[at], count)
}

/// Notes that nothing is known. It stands apart from the steps, of which few come here, since a note is large.
#[inline(never)]
fn clear<S: Copy>(last: &mut LastRest<S>)
    ensures { last.new ≡ LastRest.Unknown }
{
    *last = LastRest::Unknown;
}

/// Notes that nothing is known of a rank, where something was.
#[inline(always)]
pub fn forget<S: Copy>(rests: &mut Vec<LastRest<S>>, rank: u32)
    requires { rank < length rests.old.items }
    ensures many { length rests.new.items ≡ length rests.old.items }
    ensures forgotten { IsForgotten rests.new.items rank }
    ensures only { rests.new.items ≡ slice_set rests.old.items rank LastRest.Unknown }
{
    match &rests[rank as usize] {
        LastRest::Unknown => {}
        _ => clear(&mut rests[rank as usize]),
    }
}

/// What is noted of a rank that rests there.
#[inline(always)]
fn noted<C: Resting>(at: RestAt) -> LastRest<C::Sight>
    ensures { (m : Running C.View) (k : ℕ) → RestsAt m k at.shard at.answer → Rested C.with_sight m k result }
{
    match at.answer {
        Stepped::Busy { node, .. } => LastRest::HeldOff {
            shard: at.shard,
            node,
        },
        Stepped::Waiting { word, value } => LastRest::Waits {
            shard: at.shard,
            word,
            value,
        },
        Stepped::Moved | Stepped::Lost { .. } | Stepped::Finished => LastRest::Unknown,
    }
}

/// What is seen of a rank that waits: that its load leaves it where it is, or that it goes in a round of two loads.
#[inline(always)]
fn seen_waiting<C: Resting>(machine: &Machine<C>, rank: u32) -> LastRest<C::Sight>
    requires { rank < length machine.now.calls }
    ensures { Rested C.with_sight (running C.says machine.now) rank result }
{
    if let Some(at) = machine.waits(rank) {
        return noted::<C>(at);
    }
    match machine.round(rank) {
        Some(at) => LastRest::Round {
            shard: at.shard,
            round: at.round,
        },
        None => LastRest::Unknown,
    }
}

/// What is known of a rank after this step of it.
#[inline(always)]
fn rest_after<C: Resting>(machine: &Machine<C>, rank: u32, end: StepEnd) -> LastRest<C::Sight>
    requires there { rank < length machine.now.calls }
    requires told { Tells (running C.says machine.now) rank end.place end.told }
    ensures { Rested C.with_sight (running C.says machine.now) rank result }
{
    match end.told {
        StepOutcome::GotOn => LastRest::Unknown,
        StepOutcome::HeldOff { node } => LastRest::HeldOff {
            shard: end.place,
            node,
        },
        StepOutcome::Waits => seen_waiting(machine, rank),
        StepOutcome::Finished => LastRest::Finished,
    }
}

/// Looks for what is known of a rank after this step of it, and notes it: that it is about to take the card that was held, or, where that
/// is seen, that its load leaves it where it is, that it goes in a round of two loads, or that all its calls are done.
#[inline(never)]
pub fn look<C: Resting>(
    machine: &Machine<C>,
    rests: &mut Vec<LastRest<C::Sight>>,
    rank: u32,
    end: StepEnd,
)
    requires there { rank < length machine.now.calls }
    requires told { Tells (running C.says machine.now) rank end.place end.told }
    requires many { length rests.old.items ≡ length machine.now.calls }
    requires rested { AllRested C.with_sight (running C.says machine.now) rests.old.items }
    ensures many { length rests.new.items ≡ length rests.old.items }
    ensures rested { AllRested C.with_sight (running C.says machine.now) rests.new.items }
{
    rests[rank as usize] = rest_after(machine, rank, end);
}
