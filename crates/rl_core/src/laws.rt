//! What every shard's core promises of its moments to whoever makes its atoms.

ghost use Rattle.rl_core.specs.Moments.{Moment};
ghost use Rattle.rl_core.specs.GoodStates.{BeginsGood, AtomsKeepGood, OpeningsKeepGood, GoodExcludes, StandAsTold, TouchesAreTold, AnswersTellAtoms, AnswersHaveCauses};

use crate::shard_core::ShardCore;

/// How a moment of a shard comes under the core's rule and stays there: what is good meets the rule; the opening words with free cards and
/// first views are good, before anything has happened; and each atom that a rank makes, and each block that it opens where it may, leaves
/// what is good. At a good moment one rank at most is in as a writer, and none as a reader beside it, and these are those who entered and
/// have not left since; the words before the lock's are theirs, and what they do there is told as touches; and the answer of each atom has
/// its cause. There is nothing to run.
pub fn core_laws<C: ShardCore>(core: &C)
    ensures ruled { (m : Moment C.View) → (C.says core.now).good m → C.rule core.now m.held m.views }
    ensures begins { BeginsGood (C.says core.now) }
    ensures atoms { AtomsKeepGood (C.says core.now) }
    ensures opens { OpeningsKeepGood (C.says core.now) }
    ensures excludes { GoodExcludes (C.says core.now) }
    ensures stands { StandAsTold (C.says core.now) }
    ensures guards { TouchesAreTold (C.says core.now) }
    ensures answers { AnswersTellAtoms (C.says core.now) }
    ensures causes { AnswersHaveCauses (C.says core.now) }
{
    let _ = core;
}
