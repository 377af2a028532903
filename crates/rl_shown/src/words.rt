//! The words of a shard, each by its name with its home and its value.

ghost use Rattle.std.specs.Prelude.{◌≡◌, ◌+◌, ◌<◌, ◌^◌, ◌++◌, flat_map, length, slice_get, Some};
ghost use Rattle.rl_model.specs.Geom.{GeomFits};
ghost use Rattle.rl_text.specs.Printing.{Puts};
ghost use Rattle.rl_text.specs.Spelling.{line_text, text_of};
ghost use Rattle.rl_machine.specs.Running.{running};
ghost use Rattle.rl_shown.specs.State.{is_told, word_line, word_lines, words_lines, lines_of_shard, core_lines, machine_lines};
ghost use Rattle.rl_shown.specs.Cores.{HaveTables, tables_of};

use rl_core::ShardCore;
use rl_machine::{Machine, rules};
use rl_names::{WordMap, WordName, put_name};
use rl_place::Place;
use rl_report::{Naming, put_value, put_word};
use rl_step::Words;
use std::alloc::AllocError as OutOfMemory;

/// Whether a word with this name and value is told: all are but word 0, which is always 1, and those of the journal that are 0.
fn is_told(name: WordName, value: u64) -> bool
    ensures { result ≡ is_told name value }
{
    match name {
        WordName::Fixed => false,
        WordName::Journal { .. } => value != 0,
        _ => true,
    }
}

/// `word SHARD NODE NAME = V`.
fn put_line(
    out: &mut Vec<u8>,
    naming: &Naming,
    shard: u32,
    node: u32,
    name: WordName,
    value: u64,
) -> Result<(), OutOfMemory>
    ensures { Puts result out.old out.new (line_text (word_line naming.now shard node name value)) }
{
    out.extend_from_slice(b"word")?;
    put_value(out, u64::from(shard))?;
    put_value(out, u64::from(node))?;
    put_name(out, naming, name)?;
    put_word(out, b"=")?;
    put_value(out, value)?;
    out.push(b'\n')?;
    Ok(())
}

/// The line of a word, where it is told.
fn put_told(
    out: &mut Vec<u8>,
    naming: &Naming,
    shard: u32,
    node: u32,
    name: WordName,
    value: u64,
) -> Result<(), OutOfMemory>
    ensures { Puts result out.old out.new (text_of (word_lines naming.now shard node name value)) }
{
    if is_told(name, value) {
        put_line(out, naming, shard, node, name, value)
    } else {
        Ok(())
    }
}

/// The lines of a shard's words, from word 0 on. The core is one of the shard's, and tells where each word lives.
fn put_words_of<C: ShardCore>(
    out: &mut Vec<u8>,
    naming: &Naming,
    map: &WordMap,
    shard: u32,
    core: &C,
    words: &Words,
) -> Result<(), OutOfMemory>
    requires fits { GeomFits map.now.geom }
    requires all { length words.now.words ≡ map.now.lock_at + (C.says core.now).table.behind }
    requires few { length words.now.words < 2 ^ 32 }
    requires sized { (C.says core.now).table.core.size ≡ length words.now.words }
    ensures { Puts result out.old out.new (text_of (core_lines C.says naming.now map.now shard core.now words.now.words)) }
{
    for word in 0..map.lock_at + core.words() {
        let node = core.home(word);
        put_told(
            out,
            naming,
            shard,
            node,
            map.name_of(word),
            words.value(word),
        )?;
    }
    Ok(())
}

/// The lines of the words of a shard of a machine, of which this is a core.
fn put_shard<C: ShardCore>(
    out: &mut Vec<u8>,
    place: &Place,
    naming: &Naming,
    machine: &Machine<C>,
    shard: u32,
    core: &C,
) -> Result<(), OutOfMemory>
    requires fits { GeomFits place.now.geom }
    requires there { shard < length machine.now.shards }
    requires core { slice_get (tables_of (running C.says machine.now)) shard ≡ Some (C.says core.now).table }
    ensures { Puts result out.old out.new (text_of (lines_of_shard place.now naming.now (running C.says machine.now) shard)) }
{
    rules(machine);
    let map = WordMap::of(place, naming, machine.behind_journal(shard));
    put_words_of(out, naming, &map, shard, core, machine.words(shard))
}

/// The lines of the words of all shards of a machine, of which these are cores.
pub fn put_words<C: ShardCore>(
    out: &mut Vec<u8>,
    place: &Place,
    naming: &Naming,
    machine: &Machine<C>,
    cores: &[C],
) -> Result<(), OutOfMemory>
    requires fits { GeomFits place.now.geom }
    requires cores { HaveTables C.says cores.now (tables_of (running C.says machine.now)) }
    ensures { Puts result out.old out.new (text_of (machine_lines C.says place.now naming.now machine.now)) }
{
    for shard in 0..machine.shards() {
        put_shard(out, place, naming, machine, shard, &cores[shard as usize])?;
    }
    Ok(())
}
