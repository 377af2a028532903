//! Tests of the locks and of what they stand on: the rule of classes, atoms, queues, the tree, counters, the locks, and the window
//! that threads share.
//!
//! The crate holds nothing but tests, and nothing stands on it. It tests `rl_word` (`classes`), `rl_step` (`atoms`), `rl_queue`
//! (`members`), `rl_tree` (`trees`), `rl_counter` (`counters`), `rl_window` (`windows`), and the locks of `rl_spin`, `rl_queue`,
//! `rl_alock`, `rl_mcs` and `rl_rw` (`locks`) by their public calls.
//!
//! The values that are expected were worked out by hand, from what a card does, from the layout that a lock's definitions give its
//! words, and from the pseudocode of each lock. What holds in every order of steps is proved in the crates themselves.
#![tactic(auto)]

#[cfg(test)]
mod atoms;
#[cfg(test)]
mod classes;
#[cfg(test)]
mod counters;
#[cfg(test)]
mod locks;
#[cfg(test)]
mod members;
#[cfg(test)]
mod shapes;
#[cfg(test)]
mod trees;
#[cfg(test)]
mod windows;
