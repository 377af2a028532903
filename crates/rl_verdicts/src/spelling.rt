//! Calls and replies, as a report spells them.

use rl_explain::Quoted;
use rl_model::{Call, Reply};
use rl_ops::{LONGEST_CALL, write_call};
use std::fmt;

/// A call between quotation marks.
#[derive(Clone, Copy)]
pub struct SpelledCall(pub Call);

impl fmt::Display for SpelledCall {
    fn fmt<W: fmt::Write>(&self, f: &mut fmt::Formatter<W>) -> fmt::Result {
        let mut line = [0; LONGEST_CALL];
        let end = write_call(&mut line, 0, self.0);
        let quoted = Quoted(&line[..end]);
        write!(f, "{quoted}")
    }
}

/// A reply between quotation marks.
#[derive(Clone, Copy)]
pub struct SpelledReply(pub Reply);

impl fmt::Display for SpelledReply {
    fn fmt<W: fmt::Write>(&self, f: &mut fmt::Formatter<W>) -> fmt::Result {
        match self.0 {
            Reply::New => f.write_str("\"new\""),
            Reply::Was(value) => write!(f, "\"was {value}\""),
            Reply::Full => f.write_str("\"full\""),
            Reply::Val(value) => write!(f, "\"val {value}\""),
            Reply::Nothing => f.write_str("\"none\""),
            Reply::Sum(value) => write!(f, "\"sum {value}\""),
            Reply::Over(value) => write!(f, "\"over {value}\""),
            Reply::No(value) => write!(f, "\"no {value}\""),
            Reply::Held => f.write_str("\"held\""),
            Reply::Undone => f.write_str("\"undone\""),
        }
    }
}
