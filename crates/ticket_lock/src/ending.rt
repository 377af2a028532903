//! The ticket lock has no dead end, and says who goes on.

ghost use Rattle.std.specs.Prelude.{length};
ghost use Rattle.ticket_lock.specs.laws.TicketEnding.{ticket_ends, ticket_guides};
ghost use Rattle.ticket_lock.specs.TicketLeft.{ticket_left, ticket_urgent};

use crate::ticket::Ticket;
use crate::view::{Phase, TicketView};
use rl_ending::{Ending, Guiding};
use rl_step::Words;

impl Ending for Ticket {
    ghost left = { λ s. ticket_left };

    ghost most = { λ s. 2 };

    ghost ends = { λ s. ticket_ends (length s.node_of.items) s.home };
}

impl Guiding for Ticket {
    ghost urgent = { λ s. ticket_urgent };

    fn urgency(&self, view: TicketView, words: &Words, base: u32) -> Option<u32> {
        match view.phase {
            Phase::Out => None,
            Phase::Waiting { ticket } if words.value(base + 1) != ticket => None,
            _ => Some(0),
        }
    }

    ghost guides = { λ s. ticket_guides (length s.node_of.items) s.home };
}
