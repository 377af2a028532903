//! The steps that lead a machine to the end of all its calls, for every core that says who goes on.
//!
//! - Which rank *goes next* each moment tells (`GoesNext` of `rl_machine`): its step leaves less to do.
//! - A *way on* ([`WayOn`]) is steps of whoever goes next, one after the other (`specs/WayOn`), written as the turns of a schedule.
//!
//! Promise, for every core that is `ShardGuiding`: [`finish`] makes the steps of a way on, and comes to the end of all calls where it may make
//! as many as are left to do (`machine_left` of `rl_machine`).
//! Not said here: that the way is short, or fair.
#![tactic(auto)]

mod finishing;

pub use finishing::{WayOn, finish};
