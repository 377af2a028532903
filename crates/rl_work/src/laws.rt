//! What is proved of the rule, for whatever lock stands above.
ghost use Rattle.rl_work.specs.Rule as rule;

/// What is proved of the rule of words and sides. There is nothing to run.
pub fn work_laws()
    // It holds before the first block, and stays while blocks are opened, standings change and atoms of the work are made.
    ensures opening { rule.OpeningIsGood }
    ensures open { rule.OpenKeeps }
    ensures shift { rule.ShiftKeeps }
    ensures atom { rule.AtomKeeps }
    // A holder is never without an atom of the work, and each names a word that is there: so the journal never runs full.
    ensures goes_on { rule.HolderGoesOn }
    ensures can { rule.AtomCan }
    // The code can name it and go on behind it.
    ensures names { rule.NameFits }
    ensures turns { rule.TurnFits }
    // A get loads at most 3 + 2 * overflow words of the volume, and any other call alone as few as `next_read` says.
    ensures few { rule.ReadsFew }
    // In each state that meets it the words spell a legal journal, whose history is in order.
    ensures legal { rule.IsLegalAlways }
    ensures sorted { rule.IsSortedAlways }
{}
