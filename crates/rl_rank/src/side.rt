//! The lock's side of a rank's view.

use crate::card_state::CardState;

/// What a rank knows of the lock, and where it stands in a split act.
#[derive(Clone, Copy)]
pub struct Side<V: Copy> {
    /// What it knows of the lock.
    pub view: V,
    /// Where it stands in a split act.
    pub card: CardState,
}
