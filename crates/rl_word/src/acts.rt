//! What a lock asks for on a word, and the indivisible steps that it is made of.

/// What a lock asks for on the word with this number. A sum is taken modulo 2^64.
///
/// The three card acts are those that a network card makes for a remote rank: to the other cards they are one step,
/// but the home's own processor may act between their load and their store.
#[derive(Clone, Copy, PartialEq, Eq, Debug)]
pub enum Act {
    /// Reads the word.
    Load { word: u32 },
    /// Writes the value.
    Store { word: u32, value: u64 },
    /// Compare-and-swap by the processor of the word's home: writes `new` where the word is `old`.
    LocalCas { word: u32, old: u64, new: u64 },
    /// Compare-and-swap through the card of the word's home.
    CardCas { word: u32, old: u64, new: u64 },
    /// Swap through the card: writes the value and tells what was there.
    CardSwap { word: u32, value: u64 },
    /// Sum through the card: adds `by` and tells what was there.
    CardAdd { word: u32, by: u64 },
}

/// One indivisible step of a rank. `Take` and `Leave` are on the card of the node with this number.
#[derive(Clone, Copy, PartialEq, Eq, Debug)]
pub enum Atom {
    /// Reads a word.
    Load { word: u32 },
    /// Writes a word.
    Store { word: u32, value: u64 },
    /// Writes `new` where the word is `old`.
    LocalCas { word: u32, old: u64, new: u64 },
    /// Enters a card that is free.
    Take { node: u32 },
    /// Reads a word, by the rank in the card of its home.
    CardLoad { word: u32 },
    /// Writes a word, by the rank in the card of its home.
    CardStore { word: u32, value: u64 },
    /// Leaves a card, by the rank in it.
    Leave { node: u32 },
}
