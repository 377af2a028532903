//! What is proved of queues.

ghost use Rattle.std.specs.Prelude.{ℕ, Bool};
ghost use Rattle.rl_queue.specs.Queue.{TheNames};
ghost use Rattle.rl_queue.specs.QueueStatements.{In, BeginsGood, IgnoresEvents, IgnoresWrites, HoldsWhatItWasTold, LeavesOthersGood, ActsKeep, JoinsKeep, SettlesKeep, LeavesKeep, LeavesKeepQuietly, ResumesKeep, HasOneFirst, ServesInOrder, KeepsBudget, CountsTenures, PlansFit, LearnsFit, FindsAlone, MovesOnAlone, WaitsOnLoads, SpendsPasses, ServedCameSo, SettlesFirst};

/// What is proved of one queue: for any names of its words, any members and any budget. There is nothing to run.
pub fn queue_laws()
    ensures begins { (names : TheNames) (members : ℕ → Bool) → BeginsGood names (In members) }
    ensures beside { (names : TheNames) (members : ℕ → Bool) → IgnoresEvents names (In members) }
    ensures elsewhere { (names : TheNames) (members : ℕ → Bool) → IgnoresWrites names (In members) }
    ensures acts { (names : TheNames) (members : ℕ → Bool) → ActsKeep names (In members) }
    ensures joins { (names : TheNames) (members : ℕ → Bool) → JoinsKeep names (In members) }
    ensures settles { (names : TheNames) (members : ℕ → Bool) → SettlesKeep names (In members) }
    ensures leaves { (names : TheNames) (members : ℕ → Bool) → LeavesKeep names (In members) }
    ensures leaves_quietly { (names : TheNames) (members : ℕ → Bool) → LeavesKeepQuietly names (In members) }
    ensures resumes { (names : TheNames) (members : ℕ → Bool) → ResumesKeep names (In members) }
    ensures one_first { (names : TheNames) (members : ℕ → Bool) → HasOneFirst names (In members) }
    ensures fifo { (names : TheNames) (members : ℕ → Bool) → ServesInOrder names (In members) }
    ensures within { (names : TheNames) (members : ℕ → Bool) → KeepsBudget names (In members) }
    ensures counted { (names : TheNames) (members : ℕ → Bool) → CountsTenures names (In members) }
    ensures plans { (names : TheNames) (members : ℕ → Bool) → PlansFit names (In members) }
    ensures learns { (names : TheNames) (members : ℕ → Bool) → LearnsFit names (In members) }
    ensures finds { (names : TheNames) (members : ℕ → Bool) → FindsAlone names (In members) }
    ensures moves_on { (names : TheNames) (members : ℕ → Bool) → MovesOnAlone names (In members) }
    ensures waits { (names : TheNames) (members : ℕ → Bool) → WaitsOnLoads names (In members) }
    ensures spends { (names : TheNames) (members : ℕ → Bool) → SpendsPasses names (In members) }
    ensures served { (names : TheNames) (members : ℕ → Bool) → ServedCameSo names (In members) }
    ensures unserved { (names : TheNames) (members : ℕ → Bool) → SettlesFirst names (In members) }
    ensures holder { (names : TheNames) (members : ℕ → Bool) → HoldsWhatItWasTold names (In members) }
    ensures apart { (names others : TheNames) (members they : ℕ → Bool) → LeavesOthersGood names others (In members) (In they) }
{}
