//! What a program answers, and how it is told: the bytes are written, and the status given.
ghost use Rattle.std.specs.Prelude.{◌≡◌, ◌≢◌, ◌<◌, IfOk, Ok};
ghost use Rattle.rl_inputs.specs.Done.{IsAnswerStatus, IsTold};

use crate::stop::Stop;
use rl_io::{Failed, Sink, write_all};
use std::marker::Model;

/// A status, and the bytes that belong to it.
#[derive(Drop)]
pub struct Answer {
    status: u8,
    text: Vec<u8>,
}

impl Model for Answer {
    ghost use Rattle.rl_inputs.specs.Done.{TheAnswer};

    ghost Value = { TheAnswer };

    ghost view = { λ a. record { status = a.status; text = a.text.items } };
}

impl Answer {
    pub fn new(status: u8, text: Vec<u8>) -> Answer
        ensures { result ≡ record { status = status; text = text.items } }
    {
        Answer { status, text }
    }

    pub fn status(&self) -> u8
        ensures { result ≡ self.now.status }
    {
        self.status
    }

    pub fn text(&self) -> &[u8]
        ensures { result.now ≡ self.now.text }
    {
        self.text.as_slice()
    }
}

/// Writes the bytes that belong to a status, and gives it; 4 where a write failed.
pub fn tell_text<K: Sink>(out: &mut K, status: u8, text: &[u8]) -> u8
    requires { IsAnswerStatus status }
    ensures told { IsTold K.written K.tells_on out.old out.new (Ok (record { status = status; text = text.now })) result }
    ensures write_fault { result ≡ 4 → K.faults out.old < K.faults out.new }
    ensures write_quiet { result ≢ 4 → K.faults out.new ≡ K.faults out.old }
{
    match write_all(out, text) {
        Ok(()) => status,
        Err(Failed) => 4,
    }
}

/// Writes an answer, or the line that refuses a file, and gives the status: the answer's, or 2; 3 where a file could not be read, 4 where a
/// write failed, 5 for want of memory.
pub fn tell<K: Sink>(answered: Result<Answer, Stop>, out: &mut K) -> u8
    requires { IfOk answered (λ answer. IsAnswerStatus answer.status) }
    ensures told { IsTold K.written K.tells_on out.old out.new answered result }
    ensures write_fault { result ≡ 4 → K.faults out.old < K.faults out.new }
    ensures write_quiet { result ≢ 4 → K.faults out.new ≡ K.faults out.old }
{
    match answered {
        Ok(answer) => tell_text(out, answer.status(), answer.text()),
        Err(Stop::Refused(line)) => tell_text(out, 2, line.as_slice()),
        Err(Stop::Fault) => 3,
        Err(Stop::Memory) => 5,
    }
}
