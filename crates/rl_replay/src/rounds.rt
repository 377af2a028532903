//! Steps of a rank that goes in a round of two loads: they are counted at once while its shard shows it.

ghost use Rattle.std.specs.Prelude.{◌≡◌, ℕ, ◌+◌, ◌<◌, ◌^◌, true, false, length, replicate};
ghost use Rattle.rl_step.specs.Answers.{steps_made};
ghost use Rattle.rl_machine.specs.Rest.{with_steps};
ghost use Rattle.rl_machine.specs.Rested.{IsInRound, ShowsRound, GoesRound};
ghost use Rattle.rl_machine.specs.Run.{run_of};
ghost use Rattle.rl_machine.specs.Running.{running, cores_of};
ghost use Rattle.rl_replay.specs.Rested.{Rested, RunsRounds};

use crate::last_rest::LastRest;
use rl_core::{Resting, Round};
use rl_machine::Machine;
use rl_step::Words;

/// Whether words show so many loads of a round: the next one's has its value, and so has the other's where there are more.
#[inline(always)]
fn shows<S: Copy>(words: &Words, round: Round<S>, count: u32) -> bool
    requires here { round.here.word < length words.now.words }
    requires there { round.there.word < length words.now.words }
    ensures { result ≡ true → ShowsRound words.now round count }
{
    if words.value(round.here.word) != round.here.value {
        return false;
    }
    count <= 1 || words.value(round.there.word) == round.there.value
}

/// Whether the shard shows that so many steps of a rank in the round, whichever it is, are its loads, made on the values that they had.
#[inline(always)]
fn shows_round<C: Resting>(
    machine: &Machine<C>,
    shard: u32,
    round: Round<C::Sight>,
    count: u32,
) -> bool
    requires in_round { (rank : ℕ) × IsInRound C.with_sight (running C.says machine.now) rank shard round }
    ensures { result ≡ true → (rank : ℕ) → IsInRound C.with_sight (running C.says machine.now) rank shard round →
        GoesRound C.with_sight (running C.says machine.now) rank shard round count }
{
    shows(machine.words(shard), round, count)
}

/// So many rounds of a rank, whichever it is: both answers are counted as often, and nothing else changes.
#[inline(always)]
fn count_rounds<C: Resting>(machine: &mut Machine<C>, round: Round<C::Sight>, rounds: u32)
    requires few { steps_made machine.old.steps + (rounds + rounds) < 2 ^ 32 }
    ensures cores { cores_of machine.new ≡ cores_of machine.old }
    ensures run { RunsRounds C.with_sight (running C.says machine.old) round rounds (running C.says machine.new) }
    ensures counted { running C.says machine.new ≡ with_steps (running C.says machine.old) machine.new.steps }
{
    machine.count_more(round.here.answer(), rounds);
    machine.count_more(round.there.answer(), rounds);
}

/// So many steps of a rank that was noted to go in a round, where the shard shows that they are its loads; then it is noted how the round
/// goes on. Else nothing has changed.
#[inline(never)]
pub fn go_round<C: Resting>(
    machine: &mut Machine<C>,
    rank: u32,
    last: &mut LastRest<C::Sight>,
    count: u32,
) -> bool
    requires there { rank < length machine.old.calls }
    requires few { steps_made machine.old.steps + count < 2 ^ 32 }
    requires in_round { Rested C.with_sight (running C.says machine.old) rank last.old }
    ensures cores { cores_of machine.new ≡ cores_of machine.old }
    ensures run { result ≡ true → running C.says machine.new ≡ run_of (running C.says machine.old) (replicate count rank) }
    ensures in_round { Rested C.with_sight (running C.says machine.new) rank last.new }
    ensures kept { result ≡ false → machine.new ≡ machine.old }
{
    let LastRest::Round { shard, round } = *last else {
        return false;
    };
    if !shows_round(machine, shard, round, count) {
        return false;
    }
    count_rounds(machine, round, count / 2);
    if count % 2 == 0 {
        return true;
    }
    machine.make_leg(rank, shard, round);
    *last = LastRest::Round {
        shard,
        round: round.turned(),
    };
    true
}
