//! The lists of a sketch. Contracts see lists.

ghost use Rattle.std.specs.Prelude.{◌≡◌, [], ◌∷◌, ◌++◌, OnOk};

use crate::sketch::SketchLine;
use std::alloc::{AllocError as OutOfMemory, Global};
use std::marker::Model;

/// Items in their order.
#[derive(Drop)]
pub struct InOrder<T: Drop> {
    list: Vec<T>,
}

impl<T: Drop> Model for InOrder<T> {
    ghost use Rattle.std.specs.Prelude.{List};

    ghost Value = { List T };

    ghost view = { λ l. l.list.items };
}

impl<T: Drop> InOrder<T> {
    /// No item.
    pub fn new(alloc: Global) -> InOrder<T>
        ensures { result ≡ [] }
    {
        InOrder {
            list: Vec::new(alloc),
        }
    }

    /// These items. It takes no memory.
    pub fn from_vec(list: Vec<T>) -> InOrder<T>
        ensures { result ≡ list.items }
    {
        InOrder { list }
    }

    /// The items.
    pub fn as_slice(&self) -> &[T]
        ensures { result.now ≡ self.now }
    {
        self.list.as_slice()
    }

    /// One more item, after those that are there.
    pub fn push(&mut self, item: T) -> Result<(), OutOfMemory>
        ensures { OnOk result (self.new ≡ self.old ++ item ∷ []) }
    {
        self.list.push(item)?;
        Ok(())
    }
}

/// Bytes of a line.
pub type LineText = InOrder<u8>;

/// Ranks in their order.
pub type RankList = InOrder<u8>;

/// The lines of a sketch in their order.
pub type SketchLines = InOrder<SketchLine>;
