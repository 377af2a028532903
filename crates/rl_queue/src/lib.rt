//! One queue of members: how a member joins it, is handed it and leaves it; and the lock that is one such queue of all ranks.
//!
//! - A *queue* has a *tail* word, 0 where it is empty and else one more than its last member; each *member* has a *next*
//!   word, which names the member behind it, and a *status* word, through which it is handed the queue (`QueueNames`).
//! - A member's *view* (`QueueView`) is its number and its *phase* (`Phase`); a *stage* (`Stage`) is what a layer above sees of it.
//! - The *head* is the first of the line. One that finds the queue empty must *settle*, as the layer above says; it then
//!   has the queue with the whole *budget*. A member hands the queue to the one behind it: as a *pass*, which costs one of
//!   the budget, or with "settle first" where none is left.
//! - `Dmcs` is the lock: one queue of all ranks, without limit.
//!
//! Promise: `specs/` says what a good queue is (`Lane`), for any numbering of members, any words and any class of tail, with
//! and without budget. Each planned act and each move keeps it good (`QueueMoves`), and with it first come, first served,
//! the pass budget and the count of tenures; it leaves other queues alone (`QueueFrame`). Where a member uses a good queue, some member
//! isn't stuck there (`LineGoes`). `Dmcs` meets all laws of a lock, and has no dead end (`Ending`), and says who goes on (`Guiding`).
//! Not said here: what a head has to do before it settles, and that a member that waits ever gets the queue.
#![tactic(auto)]

mod dmcs;
mod ending;
mod guiding;
mod laws;
mod queue;
mod ranks;
mod view;

pub use dmcs::Dmcs;
pub use laws::queue_laws;
pub use queue::{
    QueueNames, queue_holder, queue_idle, queue_join, queue_learn, queue_leave, queue_plan,
    queue_resume, queue_settled, queue_stage, queue_standing, queue_urgency,
};
pub use ranks::rank_words;
pub use view::{Phase, QueueView, Stage};
