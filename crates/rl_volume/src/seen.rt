//! The words that a call has read.
ghost use Rattle.std.specs.Prelude.{◌≡◌, ◌<◌, ◌≤◌, ◌++◌, ◌∷◌, ◌==◌, [], length, position, IfOk, IfSome, Some, None};
ghost use Rattle.std.specs.List.{All};
ghost use Rattle.rl_model.specs.Geom.{GeomFits};
ghost use Rattle.rl_volume.specs.Words as word;
ghost use Rattle.rl_volume.specs.Seen.{value_of, value_or_zero, with_value, patched};
ghost use Rattle.rl_volume.specs.Decision.{AgreesAfter};
ghost use Rattle.rl_volume.specs.Stand.{GoesOn};

use crate::stand::{Stand, first_stand, followed};
use crate::words::volume_words;
use crate::write::Write;
use arrayvec::ArrayVec;
use rl_model::{Call, Geom};
use std::alloc::{AllocError as OutOfMemory, Global};
use std::marker::Model;

/// The words of a volume that a call has read, each with the value that it gave.
///
/// It is made once, with room for all words of a volume, and takes no memory after that.
#[derive(Drop)]
pub struct Seen {
    pairs: Vec<(u32, u64)>,
    // Of each word of the volume, 1 + its place among the pairs, or 0 where it wasn't seen.
    // It is there for speed: a word is found, or known not to be there, at one look.
    places: Vec<u16>,
    // Where the walk for a key stands on its chain: at this link, behind so many cells. None passed: nowhere.
    // It is there so that a chain is walked once, and not from its bucket again for each of its words.
    key: u64,
    geom: Geom,
    link: u16,
    passed: u16,
}

impl Model for Seen {
    ghost use Rattle.std.specs.Prelude.{vec_capacity};
    ghost use Rattle.rl_volume.specs.Seen.{SeenWords, seen_words_code};
    ghost use Rattle.rl_volume.specs.Stand.{AreNoted};
    ghost use Rattle.rl_volume.specs.Words.{volume_words};

    ghost Value = { SeenWords };

    ghost coded = { seen_words_code };

    ghost view = { λ s. record { pairs = s.pairs.items; room = volume_words s.geom } };

    ghost invariant = { λ s. AreNoted s.geom s.pairs.items (vec_capacity s.pairs) s.places.items s.key s.link s.passed };
}

impl Seen {
    /// Nothing seen yet, with room for the words of a volume of this size.
    ///
    /// # Errors
    ///
    /// Want of memory.
    pub fn new(alloc: Global, geom: Geom) -> Result<Seen, OutOfMemory>
        requires { GeomFits geom }
        ensures nothing { IfOk result (λ seen. seen.pairs ≡ []) }
        ensures room { IfOk result (λ seen. seen.room ≡ word.volume_words geom) }
    {
        let room = volume_words(geom);
        Ok(Seen {
            pairs: Vec::with_capacity(alloc, room as usize)?,
            places: vec![in alloc; 0; room as usize]?,
            key: 0,
            geom,
            link: 0,
            passed: 0,
        })
    }

    /// Forgets all words, as for the next call.
    pub fn clear(&mut self)
        ensures nothing { self.new.pairs ≡ [] }
        ensures room { self.new.room ≡ self.old.room }
    {
        self.passed = 0;
        for (seen, _) in &self.pairs {
            self.places[*seen as usize] = 0;
        }
        self.pairs.clear();
    }

    /// Keeps what a word of the volume gave. The word is one that wasn't seen yet.
    pub fn add(&mut self, word: u32, value: u64)
        requires in_volume { word < self.old.room }
        requires unseen { value_of self.old.pairs word ≡ None }
        ensures added { self.new.pairs ≡ self.old.pairs ++ (word, value) ∷ [] }
        ensures room { self.new.room ≡ self.old.room }
    {
        self.places[word as usize] = self.pairs.len() as u16 + 1;
        self.pairs.push_reserved((word, value));
    }

    /// Goes on along the chain of the call's key, as far as its words were seen: the next word is then named from
    /// there. It changes nothing of what was seen, and leaving it out costs time alone.
    #[inline(always)]
    pub fn walk_on(&mut self, call: Call)
        ensures { self.new ≡ self.old }
    {
        // The words of the bucket, of the cells passed and of one more.
        if self.pairs.len() >= 4 + 2 * usize::from(self.passed) {
            self.follow_for(call);
        }
    }

    fn follow_for(&mut self, call: Call)
        ensures { self.new ≡ self.old }
    {
        match call {
            Call::Put { key, .. }
            | Call::Get { key }
            | Call::Del { key }
            | Call::Add { key, .. }
            | Call::Cas { key, .. } => self.follow(key),
            Call::Hold { .. } => {}
        }
    }

    /// Goes on from where the walk for the key stands, or from its bucket.
    fn follow(&mut self, key: u64)
        ensures { self.new ≡ self.old }
    {
        let geom = self.geom;
        let stood = match self.stand(geom, key) {
            Some(stand) => Some(stand),
            None => first_stand(geom, key, self),
        };
        let Some(from) = stood else {
            return;
        };
        let stand = followed(geom, key, from, self);
        if stand.link <= u64::from(geom.overflow) {
            self.key = key;
            self.link = stand.link as u16;
            self.passed = stand.passed as u16;
        }
    }

    /// Where the walk for a key stands on its chain, if it was followed.
    #[inline(always)]
    pub(crate) fn stand(&self, geom: Geom, key: u64) -> Option<Stand>
        ensures there { IfSome result (λ s. s.passed ≤ geom.overflow) }
        ensures goes_on { IfSome result (λ s. GoesOn geom key s.link s.passed self.now.pairs) }
    {
        if self.passed != 0 && self.key == key && self.geom == geom {
            Some(Stand {
                link: u64::from(self.link),
                passed: u32::from(self.passed),
            })
        } else {
            None
        }
    }

    /// How many words were seen.
    pub(crate) fn many(&self) -> usize
        ensures { result ≡ length self.now.pairs }
    {
        self.pairs.len()
    }

    /// Takes writes as made: each word that is written has its new value from now on, whether it was seen
    /// or not. So the next call of a batch reads the volume as it is after the writes of the calls before.
    pub fn patch(&mut self, writes: &ArrayVec<Write, 5>)
        requires in_volume { All (λ w. w.word < self.old.room) writes.now.items }
        ensures patched { self.new.pairs ≡ patched self.old.pairs writes.now.items }
        ensures room { self.new.room ≡ self.old.room }
        ensures agrees { AgreesAfter self.old.room self.old.pairs self.new.pairs writes.now.items }
    {
        self.passed = 0;
        self.write_all(writes.as_slice());
    }

    fn write_all(&mut self, writes: &[Write])
        requires in_volume { All (λ w. w.word < self.old.room) writes.now }
        ensures patched { self.new.pairs ≡ patched self.old.pairs writes.now }
        ensures room { self.new.room ≡ self.old.room }
    {
        for write in writes {
            self.write(write.word, write.value);
        }
    }

    fn write(&mut self, word: u32, value: u64)
        requires in_volume { word < self.old.room }
        ensures written { self.new.pairs ≡ with_value self.old.pairs word value }
        ensures room { self.new.room ≡ self.old.room }
    {
        match self.position(word) {
            Some(index) => self.replace(index, word, value),
            None => self.add(word, value),
        }
    }

    /// Gives another value to the word that stands at this index.
    fn replace(&mut self, index: usize, word: u32, value: u64)
        requires inside { index < length self.old.pairs }
        requires there { position (λ p. p.0 == word) self.old.pairs ≡ Some index }
        ensures written { self.new.pairs ≡ with_value self.old.pairs word value }
        ensures room { self.new.room ≡ self.old.room }
    {
        self.passed = 0;
        self.pairs[index] = (word, value);
    }

    /// At which index a word stands among those seen, if it was seen.
    #[inline(always)]
    fn position(&self, word: u32) -> Option<usize>
        ensures { result ≡ position (λ p. p.0 == word) self.now.pairs }
    {
        match self.places.get(word as usize) {
            Some(&place) if place != 0 => Some(place as usize - 1),
            _ => None,
        }
    }

    /// What a word gave, if it was seen.
    #[inline(always)]
    pub fn value(&self, word: u32) -> Option<u64>
        ensures { result ≡ value_of self.now.pairs word }
    {
        let place = self.position(word)?;
        Some(self.pairs[place].1)
    }

    /// What a word gave, if it was seen. It takes one look less where it is the one seen after so many others.
    pub(crate) fn value_at(&self, position: u32, word: u32) -> Option<u64>
        ensures { result ≡ value_of self.now.pairs word }
    {
        match self.pairs.get(position as usize) {
            Some(&(seen, value)) if seen == word => Some(value),
            _ => self.value(word),
        }
    }

    /// What a word gave, or 0 where it wasn't seen.
    pub(crate) fn value_or_zero(&self, word: u32) -> u64
        ensures { result ≡ value_or_zero self.now.pairs word }
    {
        self.value(word).unwrap_or(0)
    }

    /// The same, with one look less where the word is the one seen after so many others.
    pub(crate) fn value_or_zero_at(&self, position: u32, word: u32) -> u64
        ensures { result ≡ value_or_zero self.now.pairs word }
    {
        self.value_at(position, word).unwrap_or(0)
    }
}
