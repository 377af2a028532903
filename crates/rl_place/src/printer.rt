//! The printer of a placement.
ghost use Rattle.std.specs.Prelude.{◌≡◌, get_or, IfOk};
ghost use Rattle.rl_text.specs.Printing.{Puts};
ghost use Rattle.rl_text.specs.Spelling.{line_text, text_of};
ghost use Rattle.rl_place.specs.Numbering.{node_paths};
ghost use Rattle.rl_place.specs.Paths.{root_path};
ghost use Rattle.rl_place.specs.Spelling.{setting_words, budget_words, counter_lines, settings_lines, lock_lines, geom_lines, rank_words, rank_lines, home_words, home_lines, place_spelling};

use crate::lock::Lock;
use crate::lock_words::lock_word;
use crate::names::nodes_of;
use crate::path::Path;
use crate::path_word::path_text;
use crate::place::Place;
use rl_model::Geom;
use rl_text::put_number;
use std::alloc::{AllocError as OutOfMemory, Global};

/// `NAME NUMBER`.
fn put_setting(out: &mut Vec<u8>, name: &[u8], n: u32) -> Result<(), OutOfMemory>
    ensures { Puts result out.old out.new (line_text (setting_words name.now n)) }
{
    out.extend_from_slice(name)?;
    out.push(b' ')?;
    put_number(out, u64::from(n))?;
    out.push(b'\n')?;
    Ok(())
}

/// `budget B1 .. BN`.
fn put_budgets(out: &mut Vec<u8>, budgets: &[u32]) -> Result<(), OutOfMemory>
    ensures { Puts result out.old out.new (line_text (budget_words budgets.now)) }
{
    out.extend_from_slice(b"budget")?;
    for budget in budgets {
        out.push(b' ')?;
        put_number(out, u64::from(*budget))?;
    }
    out.push(b'\n')?;
    Ok(())
}

/// `writers TW`, `readers TR`, `group G`.
fn put_counters(
    out: &mut Vec<u8>,
    writers: u32,
    readers: u32,
    group: u32,
) -> Result<(), OutOfMemory>
    ensures { Puts result out.old out.new (text_of (counter_lines writers readers group)) }
{
    put_setting(out, b"writers", writers)?;
    put_setting(out, b"readers", readers)?;
    put_setting(out, b"group", group)
}

/// The lines of the lock's settings.
fn put_settings(out: &mut Vec<u8>, lock: &Lock) -> Result<(), OutOfMemory>
    ensures { Puts result out.old out.new (text_of (settings_lines lock.now)) }
{
    match lock {
        Lock::Spin | Lock::Dmcs => {}
        Lock::Alock { local, remote }
        | Lock::Seq { local, remote }
        | Lock::Combine { local, remote } => put_budgets(out, &[*local, *remote])?,
        Lock::Mcs { budgets } => put_budgets(out, budgets.as_slice())?,
        Lock::Rw {
            budgets,
            writers,
            readers,
            group,
        } => {
            put_budgets(out, budgets.as_slice())?;
            put_counters(out, *writers, *readers, *group)?;
        }
    }
    Ok(())
}

/// `lock NAME`, and the lines of the lock's settings.
fn put_lock(out: &mut Vec<u8>, lock: &Lock) -> Result<(), OutOfMemory>
    ensures { Puts result out.old out.new (text_of (lock_lines lock.now)) }
{
    out.extend_from_slice(b"lock ")?;
    out.extend_from_slice(lock_word(lock.name()).as_bytes())?;
    out.push(b'\n')?;
    put_settings(out, lock)
}

/// `shards S`, `buckets B`, `overflow O`.
fn put_geom(out: &mut Vec<u8>, geom: Geom) -> Result<(), OutOfMemory>
    ensures { Puts result out.old out.new (text_of (geom_lines geom)) }
{
    put_setting(out, b"shards", geom.shards)?;
    put_setting(out, b"buckets", geom.buckets)?;
    put_setting(out, b"overflow", geom.overflow)
}

/// `rank K at PATH`.
fn put_rank(out: &mut Vec<u8>, rank: usize, path: Path) -> Result<(), OutOfMemory>
    ensures { Puts result out.old out.new (line_text (rank_words rank path)) }
{
    out.extend_from_slice(b"rank ")?;
    put_number(out, rank as u64)?;
    out.extend_from_slice(b" at ")?;
    path_text(path, out)?;
    out.push(b'\n')?;
    Ok(())
}

/// The lines of all ranks.
fn put_ranks(out: &mut Vec<u8>, paths: &[Path]) -> Result<(), OutOfMemory>
    ensures { Puts result out.old out.new (text_of (rank_lines 0 paths.now)) }
{
    for (rank, path) in paths.iter().enumerate() {
        put_rank(out, rank, *path)?;
    }
    Ok(())
}

/// `home I PATH`, with the path of a node by its number.
fn put_home(out: &mut Vec<u8>, nodes: &[Path], shard: usize, home: u32) -> Result<(), OutOfMemory>
    ensures { Puts result out.old out.new (line_text (home_words shard (get_or nodes.now home root_path))) }
{
    let path = match nodes.get(home as usize) {
        Some(path) => *path,
        None => Path::root(),
    };
    out.extend_from_slice(b"home ")?;
    put_number(out, shard as u64)?;
    out.push(b' ')?;
    path_text(path, out)?;
    out.push(b'\n')?;
    Ok(())
}

/// The home lines of all shards.
fn put_homes(out: &mut Vec<u8>, nodes: &[Path], homes: &[u32]) -> Result<(), OutOfMemory>
    ensures { Puts result out.old out.new (text_of (home_lines nodes.now 0 homes.now)) }
{
    for (shard, home) in homes.iter().enumerate() {
        put_home(out, nodes, shard, *home)?;
    }
    Ok(())
}

/// The home lines of all shards, where the ranks sit at these paths.
fn put_homes_under(
    alloc: Global,
    out: &mut Vec<u8>,
    paths: &[Path],
    homes: &[u32],
) -> Result<(), OutOfMemory>
    ensures { Puts result out.old out.new (text_of (home_lines (node_paths paths.now) 0 homes.now)) }
{
    let nodes = nodes_of(alloc, paths)?;
    put_homes(out, nodes.as_slice(), homes)
}

/// All lines of a placement.
fn put_place(alloc: Global, out: &mut Vec<u8>, place: &Place) -> Result<(), OutOfMemory>
    ensures { Puts result out.old out.new (place_spelling place.now) }
{
    let paths = place.paths.as_slice();
    out.extend_from_slice(b"rmalock-place 1\n")?;
    put_setting(out, b"levels", place.levels)?;
    put_lock(out, &place.lock)?;
    put_geom(out, place.geom)?;
    put_ranks(out, paths)?;
    put_homes_under(alloc, out, paths, place.homes.as_slice())?;
    out.extend_from_slice(b"end\n")?;
    Ok(())
}

/// The one spelling of a placement. Reading it gives the placement again, where it is proper.
pub fn place_text(alloc: Global, place: &Place) -> Result<Vec<u8>, OutOfMemory>
    ensures { IfOk result (λ text. text.items ≡ place_spelling place.now) }
{
    let mut out = Vec::new(alloc);
    put_place(alloc, &mut out, place)?;
    Ok(out)
}
