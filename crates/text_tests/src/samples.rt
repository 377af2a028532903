//! Placements, and values that stand in several tests.
ghost use Rattle.std.specs.Prelude.{IfOk};
ghost use Rattle.rl_place.specs.Places.{IsProper};

use rl_model::Call;
use rl_place::{Place, read_place};
use rl_text::{TEXT_LIMIT, TextErr};
use std::alloc::Global;

/// One rank, spin: the smallest placement.
pub const SPIN: &str =
    "rmalock-place 1\nlevels 1\nlock spin\nshards 1\nbuckets 1\noverflow 1\nrank 0 at 0\nhome 0 0\nend\n";

/// Two cohorts: a rank at home, and one away.
pub const ALOCK: &str =
    "rmalock-place 1\nlevels 1\nlock alock\nbudget 5 6\nshards 1\nbuckets 1\noverflow 0\nrank 0 at 0\nrank 1 at 1\nhome 0 0\nend\n";

/// A tree: four ranks on two nodes.
pub const TREE: &str =
    "rmalock-place 1\nlevels 1\nlock mcs\nbudget 1\nshards 1\nbuckets 1\noverflow 0\nrank 0 at 0\nrank 1 at 0\nrank 2 at 1\nrank 3 at 1\nhome 0 0\nend\n";

/// Two ranks on two nodes of one group, two shards.
pub const MCS: &str =
    "rmalock-place 1\nlevels 2\nlock mcs\nbudget 1 2\nshards 2\nbuckets 4\noverflow 1\nrank 0 at 0.0\nrank 1 at 0.1\nhome 0 0.1\nhome 1 0.0\nend\n";

/// One rank, with readers and writers.
pub const RW: &str =
    "rmalock-place 1\nlevels 1\nlock rw\nbudget 1\nwriters 2\nreaders 3\ngroup 4\nshards 1\nbuckets 1\noverflow 0\nrank 0 at 7\nhome 0 7\nend\n";

/// Two ranks under optimistic readers, one at home and one away.
pub const SEQ: &str =
    "rmalock-place 1\nlevels 1\nlock seq\nbudget 5 6\nshards 1\nbuckets 1\noverflow 0\nrank 0 at 0\nrank 1 at 1\nhome 0 0\nend\n";

/// The same under flat combining.
pub const COMBINE: &str =
    "rmalock-place 1\nlevels 1\nlock combine\nbudget 5 6\nshards 1\nbuckets 1\noverflow 0\nrank 0 at 0\nrank 1 at 1\nhome 0 0\nend\n";

/// The placement that a text spells.
pub fn place_of(alloc: Global, text: &[u8]) -> Result<Place, TextErr>
    ensures { IfOk result (λ place. IsProper place) }
{
    if text.len() >= TEXT_LIMIT as usize {
        return Err(TextErr::Memory);
    }
    read_place(alloc, text)
}

/// A put of a value under a key.
pub const fn put(key: u64, value: u64) -> Call {
    Call::Put { key, value }
}
