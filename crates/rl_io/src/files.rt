//! Files in memory: some that never fail, and some that fail on call.
ghost use Rattle.std.specs.Prelude.{◌≡◌, ◌≤◌, ◌<◌, ◌-◌, ◌^◌, [], Some, None, true, drop, is_some, length, IfOk, IsErr, OnOk, OnErr};
ghost use Rattle.rl_io.specs.Script.{unbegun, FailsNext, Counts};
ghost use Rattle.rl_io.specs.Files.{place_of, bytes_at, bytes_of, FailsToOpen};
ghost use Rattle.rl_io.specs.Outside.{Comes, Reads, SameFiles};

use crate::failing::Failing;
use crate::outside::{Failed, Source};
use std::marker::Model;

/// Files in memory that never fail. A name that isn't held opens as an empty file.
///
/// Contracts see its files, and what is left of the open one.
#[derive(Drop)]
pub struct SureFiles {
    files: Vec<(String, Vec<u8>)>,
    chosen: usize,
    at: usize,
}

impl Model for SureFiles {
    ghost use Rattle.std.specs.Prelude.{◌≤◌, drop, length};
    ghost use Rattle.rl_io.specs.Files.{TheSureFiles, bytes_at};

    ghost Value = { TheSureFiles };

    ghost view = { λ s. record { files = s.files.items; left = drop s.at (bytes_at s.files.items s.chosen) } };

    ghost invariant = { λ s. s.at ≤ length (bytes_at s.files.items s.chosen) };
}

impl SureFiles {
    /// These files by their names, with none open. Of two files of one name the first counts.
    pub fn new(files: Vec<(String, Vec<u8>)>) -> SureFiles
        ensures { result ≡ record { files = files.items; left = [] } }
    {
        let chosen = files.len();
        SureFiles {
            files,
            chosen,
            at: 0,
        }
    }

    // Whether a file has this name.
    fn holds(&self, name: &str) -> bool
        ensures { result ≡ is_some (place_of self.now.files name.now) }
    {
        place(&self.files, name).is_some()
    }

    // Opens the file of a name, or an empty file.
    fn open_held(&mut self, name: &str)
        ensures { self.new ≡ record { files = self.old.files; left = bytes_of self.old.files name.now } }
    {
        self.chosen = place(&self.files, name).unwrap_or(self.files.len());
        self.at = 0;
    }

    // Opens no file.
    fn close(&mut self)
        ensures { self.new ≡ record { files = self.old.files; left = [] } }
    {
        self.chosen = self.files.len();
        self.at = 0;
    }

    // Moves at most so many bytes of the open file to the buffer.
    fn take(&mut self, buf: &mut [u8], most: usize) -> usize
        requires { 1 ≤ most }
        ensures count { (result ≤ length buf.old) × (result ≤ most) }
        ensures comes { Comes self.old.left result buf.old buf.new }
        ensures shelf { self.new ≡ record { files = self.old.files; left = drop result self.old.left } }
    {
        let n = copy_front(&content(&self.files, self.chosen)[self.at..], buf, most);
        self.at += n;
        n
    }
}

fn place(files: &[(String, Vec<u8>)], name: &str) -> Option<usize>
    ensures { result ≡ place_of files.now name.now }
{
    files.iter().position(|file| file.0.as_str() == name)
}

fn content(files: &[(String, Vec<u8>)], chosen: usize) -> &[u8]
    ensures { result.now ≡ bytes_at files.now chosen }
{
    match files.get(chosen) {
        Some(file) => file.1.as_slice(),
        None => &[],
    }
}

// As many bytes as there are, as the buffer takes, and as are asked for.
fn copy_front(rest: &[u8], buf: &mut [u8], most: usize) -> usize
    requires { 1 ≤ most }
    ensures count { (result ≤ length buf.old) × (result ≤ most) }
    ensures comes { Comes rest.now result buf.old buf.new }
{
    let n = rest.len().min(buf.len()).min(most);
    buf[..n].copy_from_slice(&rest[..n]);
    n
}

impl Source for SureFiles {
    ghost use Rattle.std.specs.Prelude.{Some, true};
    ghost use Rattle.rl_io.specs.Files.{bytes_of};

    ghost file = { λ s name. Some (bytes_of s.files name) };

    ghost left = { λ s. Some s.left };

    ghost may_open = { λ _ _. true };

    ghost faults = { λ _. 0 };

    fn open_file(&mut self, name: &str) -> Result<(), Failed> {
        self.open_held(name);
        Ok(())
    }

    fn read(&mut self, buf: &mut [u8]) -> Result<usize, Failed> {
        Ok(self.take(buf, usize::MAX))
    }
}

/// Files in memory that fail on call. A name that isn't held is a fault.
///
/// Its calls are numbered from 0, opens and reads together. Those whose numbers are in `failing` fail,
/// and no others but the opens of a name that isn't held. Contracts see its files, what is left of the
/// open one, the piece, and the script of its calls.
#[derive(Drop)]
pub struct MemFiles {
    shelf: SureFiles,
    piece: u32,
    failing: Failing,
}

impl Model for MemFiles {
    ghost use Rattle.std.specs.Prelude.{◌≤◌};
    ghost use Rattle.rl_io.specs.Files.{TheMemFiles};

    ghost Value = { TheMemFiles };

    ghost view = { λ s. record { files = s.shelf.files; left = s.shelf.left; piece = s.piece; script = s.failing } };

    ghost invariant = { λ s. 1 ≤ s.piece };
}

impl MemFiles {
    /// These files by their names, with none open. Of two files of one name the first counts. Each read
    /// gives at most `piece` bytes.
    pub fn new(files: Vec<(String, Vec<u8>)>, piece: u32, failing: Vec<u32>) -> MemFiles
        requires { 1 ≤ piece }
        ensures { result ≡ record { files = files.items; left = []; piece = piece; script = unbegun failing.items } }
    {
        MemFiles {
            shelf: SureFiles::new(files),
            piece,
            failing: Failing::new(failing),
        }
    }
}

impl Source for MemFiles {
    ghost use Rattle.std.specs.Prelude.{Some, true};
    ghost use Rattle.rl_io.specs.Files.{bytes_of};

    ghost file = { λ s name. Some (bytes_of s.files name) };

    ghost left = { λ s. Some s.left };

    ghost may_open = { λ _ _. true };

    ghost faults = { λ s. s.script.faults };

    /// Fails exactly where the number of the call is to fail, or no file has the name.
    fn open_file(&mut self, name: &str) -> Result<(), Failed>
        ensures fails { self.old.script.calls < 2 ^ 64 - 1 → FailsToOpen self.old name.now → IsErr result }
        ensures cause { IsErr result → FailsToOpen self.old name.now }
        ensures counts { Counts self.old.script self.new.script }
        // As every source.
        ensures opened { OnOk result (Some self.new.left ≡ Some (bytes_of self.old.files name.now)) }
        ensures closed { OnErr result (Some self.new.left ≡ Some []) }
        ensures quiet { OnOk result (self.new.script.faults ≡ self.old.script.faults) }
        ensures risen { OnErr result (self.old.script.faults < self.new.script.faults) }
        ensures same { SameFiles (λ s name. Some (bytes_of s.files name)) (λ _ _. true) self.old self.new }
    {
        let there = self.shelf.holds(name);
        self.shelf.close();
        self.failing.call(there)?;
        self.shelf.open_held(name);
        Ok(())
    }

    /// Fails exactly where the number of the call is to fail, and else gives at most a piece.
    fn read(&mut self, buf: &mut [u8]) -> Result<usize, Failed>
        ensures fails { self.old.script.calls < 2 ^ 64 - 1 → FailsNext self.old.script → IsErr result }
        ensures cause { IsErr result → FailsNext self.old.script }
        ensures piece { IfOk result (λ n. n ≤ self.old.piece) }
        ensures counts { Counts self.old.script self.new.script }
        // As every source.
        ensures count { IfOk result (λ n. n ≤ length buf.old) }
        ensures reads { IfOk result (λ n. Reads (Some self.old.left) n buf.old buf.new (Some self.new.left)) }
        ensures nothing { OnErr result (Some self.new.left ≡ Some self.old.left) }
        ensures quiet { OnOk result (self.new.script.faults ≡ self.old.script.faults) }
        ensures risen { OnErr result (self.old.script.faults < self.new.script.faults) }
        ensures same { SameFiles (λ s name. Some (bytes_of s.files name)) (λ _ _. true) self.old self.new }
    {
        self.failing.call(true)?;
        Ok(self.shelf.take(buf, self.piece as usize))
    }
}
