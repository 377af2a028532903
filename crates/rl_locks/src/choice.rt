//! The core of a placement's lock: where it is chosen for all that makes no threads.

ghost use Rattle.std.specs.Prelude.{◌≡◌};
ghost use Rattle.rl_step.specs.LockQueues.{lock_under, does_batches};
ghost use Rattle.rl_place.specs.LockWords.{name_of};
ghost use Rattle.rl_place.specs.Places.{ThePlace, IsProper};
ghost use Rattle.rl_place.specs.Shapes.{shape_of, knobs_of};
ghost use Rattle.rl_locks.specs.Kinds.{LockKind, kind_by, lock_kind_of};
ghost use Rattle.rl_locks.specs.Urgencies.{Urgent, EachUrgency, urgency_of};

use crate::ways::Promising;
use crate::{AlockCore, CombineCore, DmcsCore, McsCore, RwCore, SeqCore, SpinCore};
use rl_core::{Resting, ShardGuiding};
use rl_place::{Lock, Place};

/// What is done with the core of a placement's lock, whichever it is.
pub trait CoreTask {
    /// What comes of it.
    type Out;

    /// What must hold of the placement.
    ghost takes: { Self → ThePlace → Type 0 };

    /// What holds of what comes of it, by the placement, the kind of its lock and how urgently that lets its ranks go on.
    ghost gives: { Self → ThePlace → (kind : LockKind) → Urgent kind.View → Self.Out → Type 0 };

    /// Does it with this core, which is that of the placement's lock: the settings suit it, it asks for the lock on which that one
    /// stands, and it does batches where that one does them. The kind is the core's, and its ranks go on as urgently as
    /// whichever definition says that the core keeps to.
    fn over<C: Resting + Promising + ShardGuiding>(self, place: &Place) -> Self::Out
        requires proper { IsProper place.now }
        requires takes { takes self place.now }
        requires knobs { C.suits_knobs (shape_of place.now) (knobs_of place.now.lock) }
        requires kind { C.name ≡ lock_under (name_of place.now.lock) }
        requires batches { C.batches ≡ does_batches (name_of place.now.lock) }
        ensures { EachUrgency C.says C.urgent C.defined (gives self place.now (kind_by C.defined C.promised C.ways)) result };
}

/// Does a task with the core of a placement's lock.
pub fn over_lock<T: CoreTask>(place: &Place, task: T) -> T::Out
    requires proper { IsProper place.now }
    requires takes { T.takes task place.now }
    ensures { T.gives task place.now (lock_kind_of place.now.lock) (urgency_of place.now.lock) result }
{
    match &place.lock {
        Lock::Spin => task.over::<SpinCore>(place),
        Lock::Dmcs => task.over::<DmcsCore>(place),
        Lock::Alock { .. } => task.over::<AlockCore>(place),
        Lock::Mcs { .. } => task.over::<McsCore>(place),
        Lock::Rw { .. } => task.over::<RwCore>(place),
        Lock::Seq { .. } => task.over::<SeqCore>(place),
        Lock::Combine { .. } => task.over::<CombineCore>(place),
    }
}
