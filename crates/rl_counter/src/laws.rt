//! What is proved of counters.

ghost use Rattle.std.specs.Prelude.{ℕ, Bool};
ghost use Rattle.rl_counter.specs.Counter.{TheCounters};
ghost use Rattle.rl_counter.specs.CounterStatements.{Begins, IsNeverTooSmall, HasNobodyInside, LetsInUnmarked, ReadersKeep, WritersKeep, TasksKeep, OthersKeep, BeginsAtMarks, ComesInByArriving, WaitsOnLoads, TellsWhatItFinds};

/// What is proved of the counters of n groups: for any words, any bound of readers, and any groups of ranks. There is nothing to run.
pub fn counter_laws()
    ensures begins { (C : TheCounters) (n : ℕ) (mine : ℕ → ℕ → Bool) → Begins C n mine }
    ensures balance { (C : TheCounters) (n : ℕ) (mine : ℕ → ℕ → Bool) → IsNeverTooSmall C n mine }
    ensures cleared { (C : TheCounters) (n : ℕ) (mine : ℕ → ℕ → Bool) → HasNobodyInside C n mine }
    ensures unmarked { (C : TheCounters) (n : ℕ) (mine : ℕ → ℕ → Bool) → LetsInUnmarked C n mine }
    ensures readers { (C : TheCounters) (n : ℕ) (mine : ℕ → ℕ → Bool) → ReadersKeep C n mine }
    ensures writers { (C : TheCounters) (n : ℕ) (mine : ℕ → ℕ → Bool) → WritersKeep C n mine }
    ensures tasks { (C : TheCounters) (n : ℕ) (mine : ℕ → ℕ → Bool) → TasksKeep C n mine }
    ensures others { (C : TheCounters) (n : ℕ) (mine : ℕ → ℕ → Bool) → OthersKeep C n mine }
    ensures at_marks { BeginsAtMarks }
    ensures comes_in { (C : TheCounters) → ComesInByArriving C }
    ensures waits { (C : TheCounters) → WaitsOnLoads C }
    ensures tells { (C : TheCounters) → TellsWhatItFinds C }
{}
