//! Files whose bytes are kept as they come.
ghost use Rattle.std.specs.Prelude.{◌≡◌, ◌≤◌, ◌<◌, Some, [], IfOk, OnOk, OnErr, length};

use rl_io::{Failed, Source};
use std::alloc::{AllocError as OutOfMemory, Global};

/// A file that was opened, and the bytes that came of it.
#[derive(Drop)]
pub struct KeptText {
    pub name: String,
    pub bytes: Vec<u8>,
}

/// The texts of the files that were opened, in their order. For want of memory there are fewer, and then it isn't whole.
#[derive(Drop)]
pub struct Kept {
    alloc: Global,
    texts: Vec<KeptText>,
    whole: bool,
}

impl Kept {
    /// No text yet.
    fn none(alloc: Global) -> Kept {
        Kept {
            alloc,
            texts: Vec::new(alloc),
            whole: true,
        }
    }

    // A further text, empty as yet.
    fn begin(&mut self, name: &str) -> Result<(), OutOfMemory> {
        let name = String::from_str(self.alloc, name)?;
        let bytes = Vec::new(self.alloc);
        self.texts.push(KeptText { name, bytes })?;
        Ok(())
    }

    // More bytes of the last text.
    fn append(&mut self, piece: &[u8]) -> Result<(), OutOfMemory> {
        match self.texts.last_mut() {
            Some(text) => text.bytes.extend_from_slice(piece),
            None => Ok(()),
        }
    }

    /// Notes that a file is opened.
    fn opened(&mut self, name: &str) {
        if self.begin(name).is_err() {
            self.whole = false;
        }
    }

    /// Notes what came of the file that is open.
    fn came(&mut self, piece: &[u8]) {
        if self.append(piece).is_err() {
            self.whole = false;
        }
    }

    /// The texts, where memory sufficed for all of them, and none else.
    pub fn texts(&self) -> &[KeptText] {
        if self.whole {
            self.texts.as_slice()
        } else {
            &[]
        }
    }
}

/// The files of a source, as they are, whose bytes are kept as they come. It fails where the source does, and nowhere else.
#[derive(Drop)]
pub struct KeptFiles<S: Source + Drop> {
    files: S,
    kept: Kept,
}

impl<S: Source + Drop> KeptFiles<S> {
    /// These files, of which nothing is kept yet.
    pub fn new(alloc: Global, files: S) -> KeptFiles<S> {
        KeptFiles {
            files,
            kept: Kept::none(alloc),
        }
    }

    /// The source itself.
    pub fn files(&self) -> &S {
        &self.files
    }

    /// What is kept of the files.
    pub fn kept(&self) -> &Kept {
        &self.kept
    }
}

impl<S: Source + Drop> Source for KeptFiles<S> {
    ghost file = { λ s. S.file s.files };

    ghost left = { λ s. S.left s.files };

    ghost may_open = { λ s. S.may_open s.files };

    ghost faults = { λ s. S.faults s.files };

    fn open_file(&mut self, name: &str) -> Result<(), Failed> {
        self.kept.opened(name);
        self.files.open_file(name)
    }

    fn read(&mut self, buf: &mut [u8]) -> Result<usize, Failed> {
        let n = self.files.read(buf)?;
        self.kept.came(&buf[..n]);
        Ok(n)
    }
}
