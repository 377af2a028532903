//! Whole replays of a machine over any core: the steps of a schedule, where those of a rank that is known to rest are counted at once.
//!
//! - A rank *rests* with an answer where its next step counts the answer and changes nothing else (`Rests` of `rl_machine`): while another
//!   rank is in the card that it takes, or the word that it waits for has the value that it had, or once all its calls are done.
//! - A rank goes in a *round* of two loads where each leads it to the other: while both words have their values, so many of its steps
//!   change at most what it sees (`Round` of `rl_core`).
//! - A *note* ([`LastRest`]) says of a rank where it was seen to rest or to go in a round; it outlasts the steps of other ranks.
//!
//! Promise, for every core: `replay` is the definition's run of the schedule's ranks (`run_of`), however many steps were counted at once.
//! Not said here: that a rank ever rests; a core that sees nothing is stepped in full.
#![tactic(auto)]

mod last_rest;
mod noted;
mod rounds;
mod runs;

pub use last_rest::{LastRest, no_rests};
pub use runs::{replay, take_steps};
