//! What is proved of flat combining, for whatever lock stands above that lets one writer in at a time.

ghost use Rattle.rl_combine.specs.Rule as rule;

/// What is proved of flat combining. There is nothing to run.
pub fn combine_laws()
    // It is a way of working: the rule holds before the first call and is kept by all that happens, and under it journal and
    // transcripts are legal at every moment, also where a call was done by another rank and isn't collected yet.
    ensures way { rule.IsWay }
    // A rank that found the flag 1 in its sweep has stored 2 there before it leaves.
    ensures sweep { rule.SweepsStoreTwo }
    // A flag of 1 stands over a posted call that isn't done, but exactly while a writer has counted it; one of 2 over its answer.
    ensures flags { rule.FlagsSay }
    // The owner alone stores 1 to its flag and takes it back to 0, and a writer alone stores 2, over a 1.
    ensures moves { rule.FlagsMove }
    // The words of a post live on its owner's node.
    ensures homes { rule.PostsAtTheirOwners }
{}
