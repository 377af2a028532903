//! What is proved of trees.

ghost use Rattle.std.specs.Prelude.{ℕ};
ghost use Rattle.rl_tree.specs.declared.rooted.Rooted.{Rooted};
ghost use Rattle.rl_tree.specs.TreeShape.{IsWellShaped, ProperIsWellShaped};
ghost use Rattle.rl_tree.specs.TreeFacts.{Begins, BeyondKeeps, BesideKeeps, AsksKeep, LeavesKeep, ActsKeep, ResumesKeep, HasGoodQueues, HasWhatIsAbove, HasOneAgent, HasOneAtHook, IsShutAtHook, OnlyComesIn, HasOneHolder, IsOpenForHolder, IsShutAtRest, KeepsBudgets, ServesInOrder, CountsTenures, HasHomes, PlansLawfully, ArePlaced, MayAllPlan, MayAllLearn, LearnsFit, ResumesFit, JoinsToHook, GoesOnForGood, WaitsOnLoads, FindsAlone, MovesOnAlone};

/// What is proved of the tree of any shape that is proper, with any budget of the root: there is nothing to run.
pub fn tree_laws()
    ensures shapes { ProperIsWellShaped }
    ensures begins { (K : Rooted) (levels : ℕ) → IsWellShaped K levels → Begins K levels }
    ensures beyond { (K : Rooted) (levels : ℕ) → IsWellShaped K levels → BeyondKeeps K levels }
    ensures beside { (K : Rooted) (levels : ℕ) → IsWellShaped K levels → BesideKeeps K levels }
    ensures asks { (K : Rooted) (levels : ℕ) → IsWellShaped K levels → AsksKeep K levels }
    ensures leaves { (K : Rooted) (levels : ℕ) → IsWellShaped K levels → LeavesKeep K levels }
    ensures acts { (K : Rooted) (levels : ℕ) → IsWellShaped K levels → ActsKeep K levels }
    ensures resumes { (K : Rooted) (levels : ℕ) → IsWellShaped K levels → ResumesKeep K levels }
    ensures queues { (K : Rooted) (levels : ℕ) → IsWellShaped K levels → HasGoodQueues K levels }
    ensures above { (K : Rooted) (levels : ℕ) → IsWellShaped K levels → HasWhatIsAbove K levels }
    ensures one_agent { (K : Rooted) (levels : ℕ) → IsWellShaped K levels → HasOneAgent K levels }
    ensures one_hook { (K : Rooted) (levels : ℕ) → IsWellShaped K levels → HasOneAtHook K levels }
    ensures hook_shut { (K : Rooted) (levels : ℕ) → IsWellShaped K levels → IsShutAtHook K levels }
    ensures comes_in { (K : Rooted) (levels : ℕ) → IsWellShaped K levels → OnlyComesIn K levels }
    ensures one_holder { (K : Rooted) (levels : ℕ) → IsWellShaped K levels → HasOneHolder K levels }
    ensures holder_open { (K : Rooted) (levels : ℕ) → IsWellShaped K levels → IsOpenForHolder K levels }
    ensures rest_shut { (K : Rooted) (levels : ℕ) → IsWellShaped K levels → IsShutAtRest K levels }
    ensures within { (K : Rooted) (levels : ℕ) → IsWellShaped K levels → KeepsBudgets K levels }
    ensures fifo { (K : Rooted) (levels : ℕ) → IsWellShaped K levels → ServesInOrder K levels }
    ensures counted { (K : Rooted) (levels : ℕ) → IsWellShaped K levels → CountsTenures K levels }
    ensures homes { (K : Rooted) (levels : ℕ) → IsWellShaped K levels → HasHomes K levels }
    ensures lawful { (K : Rooted) (levels : ℕ) → IsWellShaped K levels → PlansLawfully K levels }
    ensures placed { (K : Rooted) (levels : ℕ) → IsWellShaped K levels → ArePlaced K levels }
    ensures may_plan { (K : Rooted) (levels : ℕ) → IsWellShaped K levels → MayAllPlan K levels }
    ensures may_learn { (K : Rooted) (levels : ℕ) → IsWellShaped K levels → MayAllLearn K levels }
    ensures learns { (K : Rooted) (levels : ℕ) → IsWellShaped K levels → LearnsFit K levels }
    ensures goes_on { (K : Rooted) (levels : ℕ) → IsWellShaped K levels → ResumesFit K levels }
    ensures joins { (K : Rooted) (levels : ℕ) → IsWellShaped K levels → JoinsToHook K levels }
    ensures unhooks { (K : Rooted) (levels : ℕ) → IsWellShaped K levels → GoesOnForGood K levels }
    ensures waits { (K : Rooted) (levels : ℕ) → IsWellShaped K levels → WaitsOnLoads K levels }
    ensures finds { (K : Rooted) (levels : ℕ) → IsWellShaped K levels → FindsAlone K levels }
    ensures moves_on { (K : Rooted) (levels : ℕ) → IsWellShaped K levels → MovesOnAlone K levels }
{}
