//! Sinks in memory: one that never fails, and one that fails on call.
ghost use Rattle.std.specs.Prelude.{◌≡◌, ◌≤◌, ◌<◌, ◌-◌, ◌^◌, [], true, length, take, min, IfOk, IsErr, OnOk, OnErr, Ok as ok};
ghost use Rattle.rl_io.specs.Script.{FailsNext, Counts};
ghost use Rattle.rl_io.specs.Outside.{Appends, GoesOn};
ghost use Rattle.rl_io.specs.Sinks.{kept_with, told, HasRoom};

use crate::failing::Failing;
use crate::outside::{Failed, Sink};
use std::alloc::{AllocError as OutOfMemory, Global};
use std::marker::Model;

/// Keeps the first bytes that it is given, up to its room, and drops later ones. It never fails.
///
/// Contracts see the bytes kept, the room, and whether they are all that was written.
#[derive(Drop)]
pub struct FixedSink {
    bytes: Vec<u8>,
    room: usize,
    all: bool,
}

impl Model for FixedSink {
    ghost use Rattle.std.specs.Prelude.{◌≤◌, vec_len, vec_capacity};
    ghost use Rattle.rl_io.specs.Sinks.{TheFixedSink};

    ghost Value = { TheFixedSink };

    ghost view = { λ s. record { bytes = s.bytes.items; room = s.room; all = s.all } };

    ghost invariant = { λ s. (vec_len s.bytes ≤ s.room) × (s.room ≤ vec_capacity s.bytes) };
}

impl FixedSink {
    /// Takes memory for `room` bytes at once, and later none.
    pub fn new(alloc: Global, room: u32) -> Result<FixedSink, OutOfMemory>
        ensures { IfOk result (λ sink. sink ≡ record { bytes = []; room = room; all = true }) }
    {
        let bytes = Vec::with_capacity(alloc, room as usize)?;
        Ok(FixedSink {
            bytes,
            room: room as usize,
            all: true,
        })
    }

    /// What it kept.
    pub fn bytes(&self) -> &[u8]
        ensures kept { result.now ≡ self.now.bytes }
        ensures fits { length result.now ≤ self.now.room }
    {
        &self.bytes
    }

    // Keeps what fits of a piece.
    fn keep(&mut self, piece: &[u8])
        ensures { self.new ≡ kept_with self.old piece.now }
    {
        let left = self.room - self.bytes.len();
        if piece.len() <= left {
            self.bytes.extend_from_slice(piece).unwrap();
        } else {
            self.bytes.extend_from_slice(&piece[..left]).unwrap();
            self.all = false;
        }
    }
}

impl Sink for FixedSink {
    ghost use Rattle.rl_io.specs.Sinks.{told, HasRoom};
    ghost use Rattle.rl_io.specs.laws.SinkLaws.{told-HasRoom, HasRoom-fewer};

    ghost written = { told };

    ghost tells_on = { HasRoom };

    ghost faults = { λ _. 0 };

    ghost tells = { told-HasRoom };

    ghost fewer = { HasRoom-fewer };

    /// Keeps the first bytes while there is room, drops the others, and never fails.
    fn write(&mut self, piece: &[u8]) -> Result<usize, Failed>
        ensures kept { self.new ≡ kept_with self.old piece.now }
        ensures took { result ≡ ok (length piece.now) }
        // As every sink.
        ensures count { IfOk result (λ n. n ≤ length piece.now) }
        ensures some { IfOk result (λ n. 0 < length piece.now → 0 < n) }
        ensures appends { IfOk result (λ n. Appends (told self.old) (take n piece.now) (told self.new)) }
        ensures goes_on { IfOk result (λ n. GoesOn HasRoom self.old n self.new) }
        ensures nothing { OnErr result (told self.new ≡ told self.old) }
        ensures still { OnErr result (GoesOn HasRoom self.old 0 self.new) }
    {
        self.keep(piece);
        Ok(piece.len())
    }
}

/// A sink in memory that fails on call, and keeps its bytes as [`FixedSink`] does.
///
/// Its writes are numbered from 0. Those whose numbers are in `failing` fail, and no others. Contracts
/// see what is kept, the piece, and the script of its writes.
#[derive(Drop)]
pub struct MemSink {
    kept: FixedSink,
    piece: u32,
    failing: Failing,
}

impl Model for MemSink {
    ghost use Rattle.std.specs.Prelude.{◌≤◌};
    ghost use Rattle.rl_io.specs.Sinks.{TheMemSink};

    ghost Value = { TheMemSink };

    ghost view = { λ s. record { kept = s.kept; piece = s.piece; script = s.failing } };

    ghost invariant = { λ s. 1 ≤ s.piece };
}

impl MemSink {
    /// Takes memory for `room` bytes at once, and later none. Each write takes at most `piece` bytes.
    pub fn new(
        alloc: Global,
        room: u32,
        piece: u32,
        failing: Vec<u32>,
    ) -> Result<MemSink, OutOfMemory>
        requires { 1 ≤ piece }
        ensures { IfOk result (λ sink. sink ≡ record {
          kept = record { bytes = []; room = room; all = true };
          piece = piece;
          script = record { numbers = failing.items; calls = 0; faults = 0 };
        }) }
    {
        Ok(MemSink {
            kept: FixedSink::new(alloc, room)?,
            piece,
            failing: Failing::new(failing),
        })
    }

    /// What it kept.
    pub fn bytes(&self) -> &[u8]
        ensures { result.now ≡ self.now.kept.bytes }
    {
        self.kept.bytes()
    }
}

impl Sink for MemSink {
    ghost use Rattle.rl_io.specs.Sinks.{told, HasRoom};
    ghost use Rattle.rl_io.specs.laws.SinkLaws.{told-HasRoom, HasRoom-fewer};

    ghost written = { λ s. told s.kept };

    ghost tells_on = { λ s n. HasRoom s.kept n };

    ghost faults = { λ s. s.script.faults };

    ghost tells = { λ s. told-HasRoom s.kept };

    ghost fewer = { λ s. HasRoom-fewer s.kept };

    /// Fails exactly where the number of the write is to fail, and else takes as much as a piece.
    fn write(&mut self, piece: &[u8]) -> Result<usize, Failed>
        ensures fails { self.old.script.calls < 2 ^ 64 - 1 → FailsNext self.old.script → IsErr result }
        ensures cause { IsErr result → FailsNext self.old.script }
        ensures took { IfOk result (λ n. n ≡ min (length piece.now) self.old.piece) }
        ensures kept { IfOk result (λ n. self.new.kept ≡ kept_with self.old.kept (take n piece.now)) }
        ensures unkept { OnErr result (self.new.kept ≡ self.old.kept) }
        ensures counts { Counts self.old.script self.new.script }
        // As every sink.
        ensures count { IfOk result (λ n. n ≤ length piece.now) }
        ensures some { IfOk result (λ n. 0 < length piece.now → 0 < n) }
        ensures appends { IfOk result (λ n. Appends (told self.old.kept) (take n piece.now) (told self.new.kept)) }
        ensures goes_on { IfOk result (λ n. GoesOn HasRoom self.old.kept n self.new.kept) }
        ensures nothing { OnErr result (told self.new.kept ≡ told self.old.kept) }
        ensures still { OnErr result (GoesOn HasRoom self.old.kept 0 self.new.kept) }
        ensures quiet { OnOk result (self.new.script.faults ≡ self.old.script.faults) }
        ensures risen { OnErr result (self.old.script.faults < self.new.script.faults) }
    {
        self.failing.call(true)?;
        let n = piece.len().min(self.piece as usize);
        self.kept.keep(&piece[..n]);
        Ok(n)
    }
}
