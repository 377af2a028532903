//! Where the parts of a shard's words begin, and the name of each word.

ghost use Rattle.std.specs.Prelude.{◌≡◌, ◌+◌, ◌*◌};
ghost use Rattle.rl_model.specs.Geom.{GeomFits};
ghost use Rattle.rl_names.specs.declared.word_map.WordMap.{WordMap as TheMap};
ghost use Rattle.rl_names.specs.Layout.{map_of, of_elements, before_ranks, ranks_at, behind_ranks, word_named, NamesTreeWord, HasWord, IsWordOf};
ghost use Rattle.rl_names.specs.Names as names;

use crate::word_name::WordName;
use rl_model::Geom;
use rl_place::Place;
use rl_report::Naming;
use rl_site::{COUNT_WORD, ENTRY_WORDS, VOLUME_BASE, journal_base};
use rl_word::LockName;

/// How many words a rank has to post a call.
const POST_WORDS: u32 = 9;

/// Where the parts of a shard's words begin, and whose they are.
#[derive(Clone, Copy, PartialEq, Eq, Debug)]
pub struct WordMap {
    /// The size of the table, by which the volume and the journal lie.
    pub geom: Geom,
    /// The lock, with the way in which blocks are done under it.
    pub lock: LockName,
    /// How many elements the tree has, where the lock has one.
    pub elements: u32,
    /// How many ranks there are.
    pub ranks: u32,
    /// The number of the first word behind the journal.
    pub lock_at: u32,
}

/// The three words of each bucket, by their number from the first of them.
fn bucket_name(n: u32) -> WordName
    ensures name { result ≡ names.bucket_name n }
    ensures back { (map : TheMap) → word_named map result ≡ 3 + n }
{
    let bucket = n / 3;
    match n % 3 {
        0 => WordName::State { bucket },
        1 => WordName::Key { bucket },
        _ => WordName::Value { bucket },
    }
}

/// The three words of each overflow cell.
fn cell_name(n: u32) -> WordName
    ensures name { result ≡ names.cell_name n }
    ensures back { (map : TheMap) → word_named map result ≡ 3 + 3 * map.geom.buckets + n }
{
    let cell = n / 3;
    match n % 3 {
        0 => WordName::Link { cell },
        1 => WordName::CellKey { cell },
        _ => WordName::CellValue { cell },
    }
}

/// The words of the volume.
fn volume_name(geom: Geom, n: u32) -> WordName
    requires { GeomFits geom }
    ensures name { result ≡ names.volume_name geom n }
    ensures back { (map : TheMap) → map.geom ≡ geom → word_named map result ≡ 2 + n }
{
    let cells = 1 + 3 * geom.buckets;
    if n == 0 {
        WordName::Free
    } else if n < cells {
        bucket_name(n - 1)
    } else {
        cell_name(n - cells)
    }
}

/// The two words of each rank.
fn rank_name(n: u32) -> WordName
    ensures name { result ≡ names.rank_name n }
    ensures back { (map : TheMap) → word_named map result ≡ ranks_at map + n }
{
    let rank = n / 2;
    if n % 2 == 0 {
        WordName::Next { rank }
    } else {
        WordName::Status { rank }
    }
}

/// The two words of each element but the root.
fn element_name(n: u32) -> WordName
    ensures name { result ≡ names.element_name n }
    ensures back { (map : TheMap) → word_named map result ≡ map.lock_at + map.elements + n }
{
    let element = n / 2 + 1;
    if n % 2 == 0 {
        WordName::ElementNext { element }
    } else {
        WordName::ElementStatus { element }
    }
}

/// The two words of each group of readers.
fn group_name(n: u32) -> WordName
    ensures name { result ≡ names.group_name n }
    ensures back { (map : TheMap) → word_named map result ≡ behind_ranks map + n }
{
    let group = n / 2;
    if n % 2 == 0 {
        WordName::Arrive { group }
    } else {
        WordName::Depart { group }
    }
}

/// The words of ALock.
fn cohort_name(n: u32) -> WordName
    ensures name { result ≡ names.cohort_name n }
    ensures back { (map : TheMap) → before_ranks map.lock map.elements ≡ 3 → word_named map result ≡ map.lock_at + n }
{
    match n {
        0 => WordName::LocalTail,
        1 => WordName::RemoteTail,
        2 => WordName::Victim,
        _ => rank_name(n - 3),
    }
}

/// How many words a tree has before those of its ranks.
fn of_elements(elements: u32) -> u64
    ensures { result ≡ of_elements elements }
{
    let elements = u64::from(elements);
    elements + 2 * elements.saturating_sub(1)
}

/// The words of a tree.
fn tree_name(elements: u32, n: u32) -> WordName
    ensures name { result ≡ names.tree_name elements n }
    ensures back { NamesTreeWord elements n result }
{
    let ranks_at = of_elements(elements);
    if n < elements {
        WordName::ElementTail { element: n }
    } else if u64::from(n) < ranks_at {
        element_name(n - elements)
    } else {
        rank_name(n - ranks_at as u32)
    }
}

impl WordMap {
    /// The map of a shard of a placement, whose queues are named so, the words behind whose journal begin with this one.
    pub fn of(place: &Place, naming: &Naming, behind: u32) -> WordMap
        ensures { result ≡ map_of place.now naming.now behind }
    {
        WordMap {
            geom: place.geom,
            lock: place.lock.name(),
            elements: naming.queues.len() as u32,
            ranks: naming.ranks,
            lock_at: behind,
        }
    }

    /// The name of a word of the lock, or behind it, by its number from the lock's first.
    fn lock_name(&self, n: u32) -> WordName
        ensures name { result ≡ names.lock_name self.now.lock self.now.elements self.now.ranks n }
        ensures back { HasWord self.now self.now.lock (self.now.lock_at + n) → word_named self.now result ≡ self.now.lock_at + n }
    {
        let pairs = 2 * u64::from(self.ranks);
        let cohorts = 3 + pairs;
        let tree = of_elements(self.elements) + pairs;
        let at = u64::from(n);
        match self.lock {
            LockName::Spin => WordName::Lock,
            LockName::Dmcs if n == 0 => WordName::Tail,
            LockName::Dmcs => rank_name(n - 1),
            LockName::Mcs => tree_name(self.elements, n),
            LockName::Rw if at < tree => tree_name(self.elements, n),
            LockName::Rw => group_name((at - tree) as u32),
            LockName::Alock => cohort_name(n),
            LockName::Seq | LockName::Combine if at < cohorts => cohort_name(n),
            LockName::Seq => WordName::Version,
            LockName::Combine => {
                let post = (at - cohorts) as u32;
                WordName::Post {
                    rank: post / POST_WORDS,
                    word: post % POST_WORDS,
                }
            }
        }
    }

    /// The name of a word. It leads back to the word.
    pub fn name_of(&self, word: u32) -> WordName
        requires { GeomFits self.now.geom }
        ensures name { result ≡ names.name_of self.now word }
        ensures leads_back { IsWordOf self.now word → word_named self.now result ≡ word }
    {
        let journal = journal_base(self.geom);
        if word == 0 {
            WordName::Fixed
        } else if word == COUNT_WORD {
            WordName::Count
        } else if word < journal {
            volume_name(self.geom, word - VOLUME_BASE)
        } else if word < self.lock_at {
            let entry = word - journal;
            WordName::Journal {
                place: entry / ENTRY_WORDS,
                word: entry % ENTRY_WORDS,
            }
        } else {
            self.lock_name(word - self.lock_at)
        }
    }
}
