//! The data of a page: all that a page for a browser shows of a replay, as one text.
//!
//! - [`page_data`] puts together lines of its own, what the files say, the report, the state before the first step that is shown, and the list of the
//!   steps; [`Pager`] is the viewer that shows a replay so.
//!
//! Promise: the bytes are exactly those of `specs/PageData`, made of the texts that other crates define. Only want of memory is free.
//! Not said here: what a page draws of them.
#![tactic(auto)]

mod own_lines;
mod paging;

pub use paging::{Pager, page_data};
