//! What place a shard has in the table, and where the parts of its window lie that the work is done on.
ghost use Rattle.std.specs.Prelude.{◌≡◌, slice_index};
ghost use Rattle.rl_model.specs.Geom.{GeomFits};
ghost use Rattle.rl_site.specs.Site as site;
ghost use Rattle.rl_site.specs.Opens.{opening_words};

use rl_model::Geom;
use rl_volume::{start_word, volume_words};

/// A shard's place in the table.
#[derive(Drop)]
pub struct Site {
    /// The size of the table.
    pub geom: Geom,
    /// The shard's number.
    pub shard: u32,
    /// How many updates each rank may make on the shard, by the ranks' numbers.
    pub rooms: Vec<u32>,
}

/// The word of a window that counts the updates of its shard.
pub const COUNT_WORD: u32 = 1;

/// The first word of the volume.
pub const VOLUME_BASE: u32 = 2;

/// How many words an entry takes in the journal.
pub const ENTRY_WORDS: u32 = 6;

/// The first word of the journal, which stands behind the volume.
pub fn journal_base(geom: Geom) -> u32
    requires { GeomFits geom }
    ensures { result ≡ site.journal_base geom }
{
    VOLUME_BASE + volume_words(geom)
}

/// What a word before the lock's holds before the first block, whatever the shard is and however many updates are to come:
/// word 0 is 1, the volume is that of the empty table, and all else is 0.
pub fn opening_word(geom: Geom, word: u32) -> u64
    requires { GeomFits geom }
    ensures { (s : site.Site) → s.geom ≡ geom → result ≡ slice_index (opening_words s) word }
{
    if word == 0 {
        1
    } else if word < VOLUME_BASE {
        0
    } else if word - VOLUME_BASE < volume_words(geom) {
        start_word(geom, word - VOLUME_BASE)
    } else {
        0
    }
}
