//! Programs that answer to what three files spell, for the words `PLACE CALLS SCHEDULE` and some behind them; among them viewers, which show a
//! replay or a window of its steps.
//!
//! - A **program** ([`Program`]) says which words behind the names of the files are a form, and answers to what the files spell. [`run`] is the
//!   whole of its `main`. [`answer_words`] is its top call: it reads the words and the files, and writes the answer, or the line that says why
//!   there is none.
//! - A **viewer** ([`Viewer`]) makes the bytes that show a replay, and says which bytes may show it. A **window** ([`Window`])
//!   is the steps that are shown, and a **form** ([`Form`]) says which words ask for which: [`Steps`] or [`Before`]. [`Show`] is the program of a
//!   viewer for words of a form.
//!
//! The promise, for every program, source and sink: the status and the bytes belong to the words and to the bytes of the named
//! files, and each fault has its cause (`IsDone` of `rl_inputs`, `Answers` of `specs/Answer`).
//!
//! Not said here: what a program answers, and what a viewer shows.
#![tactic(auto)]

mod asking;
mod program;
mod running;
mod viewing;

pub use asking::{Window, all_of};
pub use program::{Program, answer_words};
pub use running::run;
pub use viewing::{Before, Form, Show, Steps, Viewer};
