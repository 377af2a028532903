//! What is proved of ALock beyond the laws of a lock.

ghost use Rattle.rl_alock.specs.Alock.{Cohorts, HasTwoDomains};

/// Two domains, for any cohorts: no act through a card is one that a rank on the shard's home may make, and no local compare-and-swap
/// one that any other rank may make. There is nothing to run.
pub fn two_domains()
    ensures { (K : Cohorts) → HasTwoDomains K }
{}
