//! The queues of a lock.

ghost use Rattle.std.specs.Prelude.{◌≡◌, ℕ, length};
ghost use Rattle.rl_word.specs.declared.shapes.Knobs.{Knobs as TheKnobs};
ghost use Rattle.rl_step.specs.LockQueues.{queues_of, queues_of_kind};

use rl_word::{LockName, QueueKind, Shape};

// How many queues of this kind there are on a shape.
fn count_of_kind(kind: QueueKind, shape: &Shape) -> usize
    ensures { (home : ℕ) (knobs : TheKnobs) → result ≡ length (queues_of_kind kind shape.now home knobs) }
{
    match kind {
        QueueKind::NoQueue => 0,
        QueueKind::OneForAll => 1,
        QueueKind::TwoCohorts => 2,
        QueueKind::Elements { .. } => shape.elements.len(),
    }
}

/// How many queues the lock of this name has on a shape, whatever its home and its settings: none, one of all ranks, one for each cohort, or one
/// for each element.
pub fn queue_count(name: LockName, shape: &Shape) -> usize
    ensures { (home : ℕ) (knobs : TheKnobs) → result ≡ length (queues_of name shape.now home knobs) }
{
    count_of_kind(name.facts().queues, shape)
}
