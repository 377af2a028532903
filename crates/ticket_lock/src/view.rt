//! What a rank knows of a ticket lock.

/// Where a rank is in its use of the lock.
#[derive(Clone, Copy, PartialEq, Eq, Debug)]
pub enum Phase {
    /// It doesn't use the lock.
    Out,
    /// It draws a ticket.
    Drawing,
    /// It loads the ticket that is served until that is its own.
    Waiting { ticket: u64 },
    /// It has the lock.
    Inside { ticket: u64 },
    /// Its work is done, and it has the next ticket served.
    Releasing { ticket: u64 },
}

/// A rank's view of the lock: its own number, and where it is.
#[derive(Clone, Copy, PartialEq, Eq, Debug)]
pub struct TicketView {
    pub rank: u32,
    pub phase: Phase,
}
