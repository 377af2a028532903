//! What is proved of the work under a sequence lock, for whatever lock it holds.
ghost use Rattle.rl_seq.specs.Rule as rule;

/// What is proved of the work under a sequence lock. There is nothing to run.
pub fn seq_laws()
    // It keeps the laws of a way of working.
    ensures way { rule.IsWay }
    // The version is odd exactly while a writer is between its two stores to it, and no atom lowers it.
    ensures odd { rule.IsOddBetween }
    ensures writers { rule.WritersBetween }
    ensures never_lower { rule.NeverLowers }
    // It is at least the even version that a get has found; and while it is still that one nobody writes, and the count and each word
    // that the get has loaded since are those that it found.
    ensures no_lower { rule.FindsEven }
    ensures still { rule.StandsStill }
    // A get makes no atoms but loads, of the version and of words before the lock's.
    ensures loads { rule.GetsLoad }
    // In each of its tries it loads at most 3 + 2 * overflow words of the volume.
    ensures few { rule.ReadsFew }
    // A block waits exactly where it is a get that found an odd version, and has lost exactly where it is a get whose second version
    // differs from the first.
    ensures waits { rule.WaitsWhereOdd }
    ensures loses { rule.LosesWhereOther }
{}
