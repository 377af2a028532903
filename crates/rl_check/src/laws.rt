//! What is proved of reports of runs and of replays.
ghost use Rattle.rl_check.specs.Legal.{LegalIsLawful, LegalIsLawfulReplay};

/// What is proved of reports. There is nothing to run.
pub fn report_laws()
    // That of a run passes all tests exactly where it is lawful.
    ensures legal { LegalIsLawful }
    // And so does that of a replay.
    ensures replays { LegalIsLawfulReplay }
{}
