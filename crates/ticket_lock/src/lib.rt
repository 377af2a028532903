//! A lock of one's own: a ticket lock with all that it has to show.
//!
//! - The *next ticket* is a card word on the shard's home. A rank *draws* a ticket by adding 1 to it through the card: what it
//!   found is the rank's own.
//! - The *served ticket* is a plain word there. A rank *waits* by loading it, again and again, until it is its own; then the
//!   rank is *inside*. To *release* the lock it stores the ticket after its own.
//!
//! Promise: [`Ticket`] meets all laws of a lock (`Algo`), so it excludes: at most one rank is inside. Readers are writers to it.
//! It has no settings. Tickets begin at 0 again after 2^64 of them, and that harms nobody, as there are fewer ranks. It has no dead
//! end (`Ending`), and says who goes on (`Guiding`).
//! Not said here: that a rank ever gets the lock, and that ranks get it in the order of their tickets.
//!
//! It is the ticket lock of textbooks, through the network card of the words' home. `docs/YOUR-OWN-LOCK.md` walks through it.
#![tactic(auto)]

mod ending;
mod ticket;
mod view;

pub use ticket::Ticket;
pub use view::{Phase, TicketView};
