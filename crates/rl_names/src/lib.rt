//! The names of a shard's words, and the words of a step: its atom by the word's name, what that finds, its answer, and its events.
//!
//! - A shard's *words* are those of its table and its journal, then the lock's, and behind them those of a way of working. A *map* ([`WordMap`]) says
//!   where each part begins; [`WordMap::name_of`] gives a word its name ([`WordName`]), by which a listing and a picture tell of it.
//! - [`put_name`], [`put_atom`] and [`put_answer`] append the words of a name, an atom and an answer; [`put_step`] makes a step of a machine and appends its words.
//!
//! Promise: a name leads back to its word by the layout (`specs/Layout`), so no two words of a shard have one name; and what is appended is what `specs/Spelling`
//! and `specs/StepWords` say. Only want of memory is free.
//! Not said here: what a lock does with a word.
#![tactic(auto)]

mod printing;
mod stepping;
mod word_map;
mod word_name;

pub use printing::{put_answer, put_atom, put_name};
pub use stepping::put_step;
pub use word_map::WordMap;
pub use word_name::WordName;
