//! A worked case, and whether what came of it is what must come.
ghost use Rattle.std.specs.Prelude.{◌≡◌, ◌↔◌, IsTrue, Some};

/// What must come of a command line: a status, and what is written. A case that tells no status can't be met.
#[derive(Drop)]
pub struct Wanted {
    pub status: Option<u8>,
    pub output: Vec<u8>,
}

/// A command line with its files by their names, and what must come of it.
#[derive(Drop)]
pub struct Case {
    pub name: String,
    pub words: Vec<String>,
    pub files: Vec<(String, Vec<u8>)>,
    pub wanted: Wanted,
}

impl Wanted {
    /// Whether this status and these bytes are what must come.
    pub fn is_met(&self, status: u8, output: &[u8]) -> bool
        ensures { IsTrue result ↔ ((self.now.status ≡ Some status) × (self.now.output.items ≡ output.now)) }
    {
        self.status == Some(status) && self.output.as_slice() == output
    }
}
