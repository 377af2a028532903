//! What holds of calls and of the texts of calls and schedules. There is nothing to run.
ghost use Rattle.std.specs.Prelude.{◌≡◌, ◌<◌, ◌^◌, ◌↔◌, ℕ, suc, List, None, Some, Ok, slice_get};
ghost use Rattle.rl_ops.specs.declared.ops.Ops.{Ops};
ghost use Rattle.rl_ops.specs.declared.schedule.Schedule.{Schedule};
ghost use Rattle.rl_model.specs.declared.call.Call.{Call};
ghost use Rattle.rl_ops.specs.Asked.{BeginsAt, IsBlockAt};
ghost use Rattle.rl_ops.specs.Ops.{AreBlocks, SpellsOps};
ghost use Rattle.rl_ops.specs.OpsReading.{ops_at, ops_fault};
ghost use Rattle.rl_ops.specs.Schedule.{SpellsSchedule};
ghost use Rattle.rl_ops.specs.ScheduleReading.{schedule_at, schedule_fault};

/// A text has no fault exactly where it spells the calls of some value, and it is then read as that value: all spellings
/// of a value are read as it, and no text spells two.
pub fn no_ops_fault()
    ensures spelled { (ranks shards : ℕ) (text : List ℕ) → ranks < 2 ^ 32 → shards < 2 ^ 32 →
        (ops_fault ranks shards text ≡ None) ↔ ((ops : Ops) × SpellsOps ranks shards ops text) }
    ensures read { (ranks shards : ℕ) (text : List ℕ) (ops : Ops) → ranks < 2 ^ 32 → shards < 2 ^ 32 →
        (ops_at ranks shards text ≡ Ok ops) ↔ SpellsOps ranks shards ops text }
{}

/// A text has no fault exactly where it is the spelling of some schedule, and it is then read as that schedule: a schedule
/// has one spelling, and no other has it.
pub fn no_schedule_fault()
    ensures spelled { (ranks : ℕ) (text : List ℕ) → ranks < 2 ^ 32 →
        (schedule_fault ranks text ≡ None) ↔ ((schedule : Schedule) × SpellsSchedule ranks schedule text) }
    ensures read { (ranks : ℕ) (text : List ℕ) (schedule : Schedule) → ranks < 2 ^ 32 →
        (schedule_at ranks text ≡ Ok schedule) ↔ SpellsSchedule ranks schedule text }
{}

/// Proper calls of a rank, with their sizes, fall into blocks: one begins at the first call, and where one begins with a
/// size, so many calls are one block, told as such, after which the next block begins or nothing is left.
pub fn calls_are_blocks()
    ensures first { (shards : ℕ) (calls : List Call) (sizes : List ℕ) → AreBlocks shards calls sizes → BeginsAt calls sizes 0 }
    ensures next { (shards : ℕ) (calls : List Call) (sizes : List ℕ) (i n : ℕ) → AreBlocks shards calls sizes →
        slice_get sizes i ≡ Some (suc n) → IsBlockAt shards calls sizes i (suc n) }
{}
