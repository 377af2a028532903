//! A bare window of words and cards, and one atom on it.

ghost use Rattle.std.specs.Prelude.{◌≡◌, ◌<◌, length, replicate, slice_index, IfOk};
ghost use Rattle.rl_step.specs.Do.{do_atom, do_got, CanDo};

use rl_word::Atom;
use std::alloc::{AllocError as OutOfMemory, Global};
use std::marker::Model;

/// Words, and one card for each node. It knows no classes: whoever makes an atom answers for them.
#[derive(Drop)]
pub struct Words {
    words: Vec<u64>,
    cards: Vec<u64>,
}

impl Model for Words {
    ghost use Rattle.rl_step.specs.Do.{TheWindow};

    ghost Value = { TheWindow };

    ghost view = { λ a. record { words = a.words.items; cards = a.cards.items } };
}

impl Words {
    /// A window of zeros, with so many words and a card for each of so many nodes.
    pub fn new(alloc: Global, words: u32, nodes: u32) -> Result<Words, OutOfMemory>
        ensures { IfOk result (λ w. w ≡ record { words = replicate words 0; cards = replicate nodes 0 }) }
    {
        Words::holding(alloc, vec![in alloc; 0; words as usize]?, nodes)
    }

    /// A window that holds these values, with a free card for each of so many nodes.
    pub fn holding(alloc: Global, values: Vec<u64>, nodes: u32) -> Result<Words, OutOfMemory>
        ensures { IfOk result (λ w. w ≡ record { words = values.items; cards = replicate nodes 0 }) }
    {
        Ok(Words {
            words: values,
            cards: vec![in alloc; 0; nodes as usize]?,
        })
    }

    /// Makes one atom of the rank, and gives what it found, or 0 where it only writes.
    ///
    /// The atom's word or node is there. For a load or store through a card the rank is in the card of node `spot_home`,
    /// for a leave in the card that it leaves; no other atom looks at `spot_home`.
    #[inline(always)]
    pub fn apply(&mut self, spot_home: u32, rank: u32, atom: Atom) -> u64
        requires { CanDo spot_home rank atom self.old.words self.old.cards }
        ensures window { self.new ≡ do_atom rank atom self.old }
        ensures got { result ≡ do_got atom self.old.words self.old.cards }
    {
        match atom {
            Atom::Load { word } | Atom::CardLoad { word } => self.words[word as usize],
            Atom::Store { word, value } | Atom::CardStore { word, value } => {
                self.words[word as usize] = value;
                0
            }
            Atom::LocalCas { word, old, new } => {
                let got = self.words[word as usize];
                if got == old {
                    self.words[word as usize] = new;
                }
                got
            }
            Atom::Take { node } => {
                let got = self.cards[node as usize];
                if got == 0 {
                    self.cards[node as usize] = rank as u64 + 1;
                }
                got
            }
            Atom::Leave { node } => {
                self.cards[node as usize] = 0;
                0
            }
        }
    }

    /// The value of a word, one of the window's.
    #[inline(always)]
    pub fn value(&self, word: u32) -> u64
        requires { word < length self.now.words }
        ensures { result ≡ slice_index self.now.words word }
    {
        self.words[word as usize]
    }

    /// What stands in a node's card: 0 where no rank is in it, and else the rank's number and one.
    #[inline(always)]
    pub fn card(&self, node: u32) -> u64
        requires { node < length self.now.cards }
        ensures { result ≡ slice_index self.now.cards node }
    {
        self.cards[node as usize]
    }
}
