//! The outside: where files are read from and where the output goes.
//!
//! - A **source** ([`Source`]) has files by name, of which one at a time is open.
//! - A **sink** ([`Sink`]) takes bytes at its end.
//! - A **gate** ([`Gate`]) is told of the calls and the steps of running ranks; [`OpenGate`] lets all of them pass.
//! - A **fault** is an answer [`Failed`] of the outside. Every source and every sink counts its faults.
//!   The count never falls, and it rises exactly with a fault.
//!
//! Promised here: [`read_file`] gives a file whole, or says why not; [`write_all`] writes a text whole,
//! or a front of it. Both are proved for every source and every sink, and blame the outside only where
//! its count rose. A source and a sink say which bytes they have, where they can know them: files and
//! sinks in memory tell theirs, the real ones tell none. A sink that tells its bytes also says for how
//! many more it goes on telling them, so that who writes less than that knows what the sink then has.
//!
//! Not said here: what a real file or a terminal gives or takes. [`RealFiles`] and [`RealOut`] are the
//! few lines where the program trusts the system; they keep its last reason for a failure.
#![tactic(auto)]

mod failing;
mod files;
mod gate;
mod outside;
mod real;
mod sinks;
mod whole;

pub use files::{MemFiles, SureFiles};
pub use gate::{Gate, OpenGate};
pub use outside::{Failed, Sink, Source};
pub use real::{RealFiles, RealOut};
pub use sinks::{FixedSink, MemSink};
pub use whole::{ReadErr, read_file, write_all};
