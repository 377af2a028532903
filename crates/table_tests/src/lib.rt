//! Tests of a shard's table and of the work on it: the volume, the journal's words, and blocks under a lock.
//!
//! The crate holds nothing but tests, and nothing stands on it. It tests `rl_volume` (`volumes`), `rl_journal` (`journals`) and
//! `rl_work` (`blocks`) by their public calls.
//!
//! The values that are expected were worked out by hand, from what a call replies on one thread, from the layout of a window's words,
//! and from how many words each stage loads and stores. What holds of all calls is proved in the crates themselves.
#![tactic(auto)]

#[cfg(test)]
mod bench;
#[cfg(test)]
mod blocks;
#[cfg(test)]
mod journals;
#[cfg(test)]
mod volumes;
