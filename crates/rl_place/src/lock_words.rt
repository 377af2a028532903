//! The names of the locks, as words.
ghost use Rattle.std.specs.Prelude.{◌≡◌, find};
ghost use Rattle.std.specs.Str.{bytes_eq};
ghost use Rattle.rl_place.specs.LockWords.{lock_word, lock_named};

use rl_word::LockName;

// The names of the locks.
const NAMES: [LockName; 7] = [
    LockName::Spin,
    LockName::Dmcs,
    LockName::Alock,
    LockName::Mcs,
    LockName::Rw,
    LockName::Seq,
    LockName::Combine,
];

/// The name of a lock in small letters, as files and reports spell it.
pub fn lock_word(name: LockName) -> &'static str
    ensures { result.now ≡ lock_word name }
{
    match name {
        LockName::Spin => "spin",
        LockName::Dmcs => "dmcs",
        LockName::Alock => "alock",
        LockName::Mcs => "mcs",
        LockName::Rw => "rw",
        LockName::Seq => "seq",
        LockName::Combine => "combine",
    }
}

// Which of these names a word is.
fn named_in(names: &[LockName], word: &[u8]) -> Option<LockName>
    ensures { result ≡ find (λ name. bytes_eq (lock_word name) word.now) names.now }
{
    names
        .iter()
        .copied()
        .find(|name| lock_word(*name).as_bytes() == word)
}

/// The lock of which a word is the name. `None` where it is no lock's name.
#[tactic(auto, unfolding(crate::specs::LockWords::lock_named))]
pub fn lock_named(word: &[u8]) -> Option<LockName>
    ensures { result ≡ lock_named word.now }
{
    named_in(&NAMES, word)
}
