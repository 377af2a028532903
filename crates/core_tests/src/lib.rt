//! Tests of the two ways of working that stand on ALock, `rl_seq` and `rl_combine`: what the words of a shard hold in the midst of a replay, and at its end.
//!
//! The crate holds nothing but tests, and nothing stands on it. It sees the words by the states that `rl_shown` tells.
//!
//! The values that are expected were worked out by hand, from what a call replies on one thread, from the layout of a window's words, and from how many
//! words each stage loads and stores. What holds of all calls is proved in the crates themselves; `lock_tests` of `rmalock` has the answers of the same
//! schedules, by machines and by seats.
#![tactic(auto)]

#[cfg(test)]
mod replays;
#[cfg(test)]
mod states;
