//! The real files and the real standard output: the edge that is trusted.
ghost use Rattle.std.specs.Prelude.{◌≡◌, ◌≢◌, ◌≤◌, ◌<◌, [], Some, None, false, OnOk, OnErr};

use crate::outside::{Failed, Sink, Source};
use std::fs::OpenOptions;
use std::io::{self, ErrorKind, Read};
use std::rt::Files;

// How often the system failed, and why it did the last time.
#[derive(Drop)]
struct Faults {
    count: u64,
    reason: Option<io::Error>,
    ghost told: { reason ≡ None → count ≡ 0 },
}

impl Faults {
    // Before the first fault.
    fn none() -> Faults
        ensures { result.count ≡ 0 }
    {
        Faults {
            count: 0,
            reason: None,
        }
    }

    // One more fault. A count of 2^64 - 1 can't rise: then there is no fault to answer.
    fn add(&mut self, reason: io::Error) -> Result<(), Failed>
        ensures quiet { OnOk result (self.new.count ≡ self.old.count) }
        ensures risen { OnErr result (self.old.count < self.new.count) }
        ensures end { OnOk result (self.old.count ≡ u64.MAX) }
    {
        self.reason = Some(reason);
        if self.count == u64::MAX {
            return Ok(());
        }
        self.count += 1;
        Err(Failed)
    }
}

/// The files of the system. It tells no bytes.
#[derive(Drop)]
pub struct RealFiles<R: Files + AllocGlobal + Drop> {
    rt: R,
    name: Option<String>,
    file: Option<R::File>,
    opened: bool,
    faults: Faults,
    ghost closed: { opened ≡ false → file ≡ None },
}

impl<R: Files + AllocGlobal + Drop> RealFiles<R> {
    /// The files that a runtime reaches, with none open.
    pub fn new(rt: R) -> RealFiles<R>
        ensures faults { ⟦<RealFiles<R> as Source>⟧.faults result ≡ 0 }
        ensures closed { ⟦<RealFiles<R> as Source>⟧.left result ≡ Some [] }
    {
        RealFiles {
            rt,
            name: None,
            file: None,
            opened: false,
            faults: Faults::none(),
        }
    }

    /// The name of the file that was asked for last, as far as there was memory to keep it.
    pub fn last_name(&self) -> Option<&str> {
        self.name.as_deref()
    }

    /// Why the system failed the last time; there where it has failed.
    pub fn reason(&self) -> Option<io::Error>
        ensures { 0 < ⟦<RealFiles<R> as Source>⟧.faults self.now → result ≢ None }
    {
        self.faults.reason
    }
}

impl<R: Files + AllocGlobal + Drop> Source for RealFiles<R> {
    ghost use Rattle.std.specs.Prelude.{Some, None, [], true, if◌then◌else◌};

    ghost file = { λ _ _. None };

    ghost left = { λ s. if s.opened then None else Some [] };

    ghost may_open = { λ _ _. true };

    ghost faults = { λ s. s.faults.count };

    fn open_file(&mut self, name: &str) -> Result<(), Failed> {
        self.file = None;
        self.opened = false;
        self.name = String::from_str(self.rt.alloc(), name).ok();
        match std::fs::open(&self.rt, name) {
            Ok(file) => self.file = Some(file),
            Err(reason) => self.faults.add(reason)?,
        }
        self.opened = true;
        Ok(())
    }

    fn read(&mut self, buf: &mut [u8]) -> Result<usize, Failed> {
        let Some(file) = &mut self.file else {
            return Ok(0);
        };
        match file.read(buf) {
            Ok(n) => Ok(n),
            Err(reason) => {
                self.faults.add(reason)?;
                Ok(0)
            }
        }
    }
}

/// The standard output. It tells no bytes.
#[derive(Drop)]
pub struct RealOut<P: Print + Drop> {
    rt: P,
    faults: Faults,
}

impl<P: Print + Drop> RealOut<P> {
    /// The output that a runtime prints to.
    pub fn new(rt: P) -> RealOut<P>
        ensures { ⟦<RealOut<P> as Sink>⟧.faults result ≡ 0 }
    {
        RealOut {
            rt,
            faults: Faults::none(),
        }
    }

    /// Why the system failed the last time; there where it has failed.
    pub fn reason(&self) -> Option<io::Error>
        ensures { 0 < ⟦<RealOut<P> as Sink>⟧.faults self.now → result ≢ None }
    {
        self.faults.reason
    }
}

impl<P: Print + Drop> Sink for RealOut<P> {
    ghost use Rattle.std.specs.Prelude.{None};

    ghost written = { λ _. None };

    ghost tells_on = { λ _ _. ⊥ };

    ghost faults = { λ s. s.faults.count };

    ghost tells = { λ _ _ never. absurd never };

    ghost fewer = { λ _ _ _ never. never };

    fn write(&mut self, piece: &[u8]) -> Result<usize, Failed> {
        let reason = match self.rt.write_some(piece) {
            Ok(n) if n > 0 || piece.is_empty() => return Ok(n),
            Ok(_) => io::Error::from(ErrorKind::WriteZero),
            Err(reason) => reason,
        };
        self.faults.add(reason)?;
        Ok(piece.len())
    }
}
