//! What a source of files and a sink of bytes are.
ghost use Rattle.std.specs.Prelude.{◌≡◌, ◌≤◌, ◌<◌, ℕ, ◌+◌, List, [], Option, Some, length, take, IfOk, OnOk, OnErr, IsSome, Bool, IsTrue};
ghost use Rattle.rl_io.specs.Outside.{Reads, Appends, GoesOn, SameFiles};

/// The outside failed: a file couldn't be opened or read, or bytes couldn't be written.
#[derive(Clone, Copy, Debug, PartialEq, Eq)]
pub struct Failed;

/// Files by name, of which one at a time is open.
///
/// No call changes which names may be opened, the bytes of a file, or whether they are told.
pub trait Source {
    /// The bytes of the file of a name, where the source tells them.
    ghost file: { Self → List ℕ → Option (List ℕ) };

    /// What is left of the open file, where the source tells it.
    ghost left: { Self → Option (List ℕ) };

    /// Which names may be opened.
    ghost may_open: { Self → List ℕ → Bool };

    /// How often the source has failed.
    ghost faults: { Self → ℕ };

    /// Opens the file of a name, in place of the one that is open, and stands at its start. A file that
    /// isn't there is a fault. After a fault no file is open.
    fn open_file(&mut self, name: &str) -> Result<(), Failed>
        requires { IsTrue (may_open self.old name.now) }
        ensures opened { OnOk result (left self.new ≡ file self.old name.now) }
        ensures closed { OnErr result (left self.new ≡ Some []) }
        ensures quiet { OnOk result (faults self.new ≡ faults self.old) }
        ensures risen { OnErr result (faults self.old < faults self.new) }
        ensures same { SameFiles file may_open self.old self.new };

    /// Moves bytes of the open file to the front of the buffer, and answers how many. For a buffer that
    /// isn't empty the answer is 0 exactly where nothing is left, as where no file is open. A fault
    /// takes nothing.
    fn read(&mut self, buf: &mut [u8]) -> Result<usize, Failed>
        ensures count { IfOk result (λ n. n ≤ length buf.old) }
        ensures reads { IfOk result (λ n. Reads (left self.old) n buf.old buf.new (left self.new)) }
        ensures nothing { OnErr result (left self.new ≡ left self.old) }
        ensures quiet { OnOk result (faults self.new ≡ faults self.old) }
        ensures risen { OnErr result (faults self.old < faults self.new) }
        ensures same { SameFiles file may_open self.old self.new };
}

/// Takes bytes, and keeps them in order.
pub trait Sink {
    /// The bytes written so far, where the sink tells them.
    ghost written: { Self → Option (List ℕ) };

    /// The sink tells its bytes, and goes on telling them for so many bytes more.
    ghost tells_on: { Self → ℕ → Type 0 };

    /// How often the sink has failed.
    ghost faults: { Self → ℕ };

    /// Writes a front of the piece, and answers how many bytes: at least one, where there is one. A
    /// fault writes nothing.
    fn write(&mut self, piece: &[u8]) -> Result<usize, Failed>
        ensures count { IfOk result (λ n. n ≤ length piece.now) }
        ensures some { IfOk result (λ n. 0 < length piece.now → 0 < n) }
        ensures appends { IfOk result (λ n. Appends (written self.old) (take n piece.now) (written self.new)) }
        ensures goes_on { IfOk result (λ n. GoesOn tells_on self.old n self.new) }
        ensures nothing { OnErr result (written self.new ≡ written self.old) }
        ensures still { OnErr result (GoesOn tells_on self.old 0 self.new) }
        ensures quiet { OnOk result (faults self.new ≡ faults self.old) }
        ensures risen { OnErr result (faults self.old < faults self.new) };

    /// A sink that goes on telling its bytes tells them now.
    ghost tells: { (sink : Self) (n : ℕ) → tells_on sink n → IsSome (written sink) };

    /// A sink that goes on telling its bytes goes on for fewer.
    ghost fewer: { (sink : Self) (n m : ℕ) → tells_on sink (n + m) → tells_on sink m };
}
