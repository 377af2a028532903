//! What kinds of words there are, and where one lives.

/// Which steps a word allows. Anybody may load any word.
#[derive(Clone, Copy, PartialEq, Eq, Debug)]
pub enum Class {
    /// Changed by local compare-and-swaps alone, of ranks that sit on the word's home.
    Local,
    /// Changed through the card of its home alone, by any rank.
    Card,
    /// Loaded and stored, and never compared.
    Plain,
    /// Never written.
    Fixed,
}

/// What a rank wants the lock for: to read what it guards, or to write it.
#[derive(Clone, Copy, PartialEq, Eq, Debug)]
pub enum Mode {
    Read,
    Write,
}

/// What a word is: its class, and the number of the node that it lives on.
#[derive(Clone, Copy, PartialEq, Eq, Debug)]
pub struct Spot {
    pub class: Class,
    pub home: u32,
}
