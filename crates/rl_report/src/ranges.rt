//! That the numbers of a report are in their ranges, as their types have them. There is nothing to run but to look at each.

ghost use Rattle.std.specs.Prelude.{All};
ghost use Rattle.rl_report.specs.Reports.{ReplyFits, TallyFits};

use rl_model::Entry;
use rl_step::Tally;

// The numbers of an entry's reply.
fn reply_fits(entry: Entry)
    ensures { ReplyFits entry.reply }
{
    let _ = entry.reply;
}

// Those of a tally.
fn tally_fits(tally: Tally)
    ensures { TallyFits tally }
{
    let _ = tally.settled;
}

/// The numbers of the replies of all entries are in their ranges.
pub fn replies_fit(entries: &[Entry])
    ensures { All (λ e. ReplyFits e.reply) entries.now }
{
    for entry in entries {
        reply_fits(*entry);
    }
}

/// And those of all tallies.
pub fn tallies_fit(tallies: &[Tally])
    ensures { All TallyFits tallies.now }
{
    for tally in tallies {
        tally_fits(*tally);
    }
}
