//! Appending to a list.
ghost use Rattle.std.specs.Prelude.{◌≡◌, ◌++◌, ◌∷◌, [], OnOk, OnErr};

use std::alloc::AllocError as OutOfMemory;

/// Appends an item in place where the list has room, and only otherwise makes room. Where memory runs out the list is as
/// before.
#[inline(always)]
pub fn append<T: Drop>(list: &mut Vec<T>, item: T) -> Result<(), OutOfMemory>
    ensures ok { OnOk result (list.new.items ≡ list.old.items ++ item ∷ []) }
    ensures err { OnErr result (list.new.items ≡ list.old.items) }
{
    if list.len() >= list.capacity() {
        list.reserve(1)?;
    }
    list.push_reserved(item);
    Ok(())
}
