//! The lock's words stand in the window behind the others: its atoms and answers, with the window's numbers.

ghost use Rattle.std.specs.Prelude.{◌≡◌};
ghost use Rattle.rl_rank.specs.Whole.{shifted, shifted_answer, IsShiftable, IsAnswerShiftable};

use rl_step::Stepped;
use rl_word::Atom;

/// An atom of the lock, on the window's word.
#[inline(always)]
pub fn shift(base: u32, atom: Atom) -> Atom
    requires { IsShiftable base atom }
    ensures { result ≡ shifted base atom }
{
    match atom {
        Atom::Load { word } => Atom::Load { word: base + word },
        Atom::Store { word, value } => Atom::Store {
            word: base + word,
            value,
        },
        Atom::LocalCas { word, old, new } => Atom::LocalCas {
            word: base + word,
            old,
            new,
        },
        Atom::Take { node } => Atom::Take { node },
        Atom::CardLoad { word } => Atom::CardLoad { word: base + word },
        Atom::CardStore { word, value } => Atom::CardStore {
            word: base + word,
            value,
        },
        Atom::Leave { node } => Atom::Leave { node },
    }
}

/// An answer of the lock, with the window's word.
#[inline(always)]
pub fn shift_answer(base: u32, stepped: Stepped) -> Stepped
    requires { IsAnswerShiftable base stepped }
    ensures { result ≡ shifted_answer base stepped }
{
    match stepped {
        Stepped::Waiting { word, value } => Stepped::Waiting {
            word: base + word,
            value,
        },
        _ => stepped,
    }
}
