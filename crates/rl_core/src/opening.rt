//! A shard before its first block: its words, where those behind its journal begin, and the views of its ranks.

ghost use Rattle.std.specs.Prelude.{◌≡◌, ◌+◌, ◌<◌, ◌≤◌, ◌^◌, length, sum, IfOk};
ghost use Rattle.rl_model.specs.Geom.{GeomFits};
ghost use Rattle.rl_site.specs.Site.{Site, lock_base};
ghost use Rattle.rl_core.specs.ShardTables.{first_views, words_at_first};

use crate::shard_core::ShardCore;
use rl_model::Geom;
use rl_site::{ENTRY_WORDS, journal_base, opening_word};
use std::alloc::{AllocError as OutOfMemory, Global};

/// The number of the first word behind a journal with a place for each update that each rank may make.
fn journal_end(geom: Geom, rooms: &[u32]) -> u32
    requires fits { GeomFits geom }
    requires few { sum rooms.now ≤ 20000 }
    ensures { (site : Site) → site.geom ≡ geom → site.rooms ≡ rooms.now → result ≡ lock_base site }
{
    let places: u32 = rooms.iter().sum();
    journal_base(geom) + ENTRY_WORDS * places
}

/// The number of the first word behind a shard's journal.
pub fn lock_base<C: ShardCore>(core: &C) -> u32
    requires fits { GeomFits (C.says core.now).table.site.geom }
    requires few { sum (C.says core.now).table.site.rooms ≤ 20000 }
    ensures { result ≡ lock_base (C.says core.now).table.site }
{
    journal_end(core.geom(), core.rooms())
}

/// The words of a shard: word 0 is 1, the volume is that of the empty table, and all else is 0. Refused only for want of
/// memory.
pub fn first_words<C: ShardCore>(alloc: Global, core: &C) -> Result<Vec<u64>, OutOfMemory>
    requires fits { GeomFits (C.says core.now).table.site.geom }
    requires rooms { sum (C.says core.now).table.site.rooms ≤ 20000 }
    requires few { lock_base (C.says core.now).table.site + (C.says core.now).table.behind < 2 ^ 32 }
    ensures { IfOk result (λ words. words.items ≡ words_at_first (C.says core.now).table) }
{
    let geom = core.geom();
    let base = lock_base(core);
    let size = (base + core.words()) as usize;
    let mut words = vec![in alloc; 0; size]?;
    // The words behind the volume stay 0.
    for word in 0..journal_base(geom) {
        words[word as usize] = opening_word(geom, word);
    }
    Ok(words)
}

/// The views of all ranks before their first block, each with room for so many entries. Refused only for want of memory.
pub fn first_views<C: ShardCore>(
    alloc: Global,
    core: &C,
    rooms: &[u32],
) -> Result<Vec<C::View>, OutOfMemory>
    requires fits { GeomFits (C.says core.now).table.site.geom }
    requires ranks { length rooms.now ≡ length (C.says core.now).layout.node_of }
    requires few { length rooms.now < 2 ^ 32 }
    ensures { IfOk result (λ views. views.items ≡ first_views (C.says core.now).table 0 rooms.now) }
{
    let mut views = Vec::with_capacity(alloc, rooms.len())?;
    for rank in 0..rooms.len() as u32 {
        let view = core.first(alloc, rank, rooms[rank as usize])?;
        views.push(view)?;
    }
    Ok(views)
}
