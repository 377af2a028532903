//! Lines, words and numbers of a text file, and why a text is refused.
//!
//! A text is a list of lines, each ended by one newline byte. The words of a line stand between single spaces. Nothing is
//! trimmed: two spaces make an empty word, and a carriage return is a byte of its word.
//!
//! - `Lines` hands out the lines of a text one after the other, and `LineWords` the words of a `Line`.
//! - `number` reads a word as a number, exactly where the word is the number's one decimal spelling.
//! - A reader takes a line word by word by `LineWords`, and its first fault is a `Refusal`: a line, a word and a cause
//!   (`Why`).
//! - `front_number` and its neighbours read what a text begins with, for a reader that takes the most common lines without
//!   looking for words.
//! - The printers append to a text what the readers read. The writers, as `write_number`, write it in place, into a line
//!   that has room for it.
//!
//! The promise: each reader equals a definition of `specs/Reading.antt`, which says what is read from the lines and which
//! fault comes first. What a file format means is said by the crates above; they put their lines together from these.
//! Reading takes no memory here.
#![tactic(auto)]

mod causes;
mod cutting;
mod failing;
mod front;
mod line;
mod line_words;
mod lines;
mod numbers;
mod printing;
mod short;
mod writing;

pub use causes::{Refusal, Why};
pub use cutting::cut;
pub use failing::TextErr;
pub use front::{after_byte, front_number, front_spaced};
pub use line::Line;
pub use line_words::LineWords;
pub use lines::{Lines, TEXT_LIMIT};
pub use numbers::number;
pub use printing::{put_number, put_refusal};
pub use writing::{write_byte, write_bytes, write_number, write_spaced};
