//! The words of a window before the first block, and what an atom of the work does to them.

ghost use Rattle.std.specs.Prelude.{◌≡◌, ◌++◌, ◌≤◌, [], replicate, IfOk};
ghost use Rattle.rl_model.specs.Geom.{GeomFits};
ghost use Rattle.rl_step.specs.Do.{CanDo, do_got, do_words};
ghost use Rattle.rl_work.specs.PlainWork.{IsPlain};
ghost use Rattle.rl_site.specs.Site.{Site, places};
ghost use Rattle.rl_site.specs.Opens.{opening_words};

use rl_model::Geom;
use rl_site::{journal_base, opening_word};
use rl_word::Atom;
use std::alloc::Global;
use std::test::*;

/// The words before the first block, with room for so many updates in the journal, and so many words behind it.
pub fn opening(alloc: Global, geom: Geom, updates: u32, behind: u32) -> Result<Vec<u64>, Fail>
    requires fits { GeomFits geom }
    requires few { updates ≤ 20000 }
    ensures { (s : Site) → s.geom ≡ geom → places s ≡ updates → IfOk result (λ words. words.items ≡ opening_words s ++ replicate behind 0) }
{
    let mut words = Vec::new(alloc);
    for word in 0..journal_base(geom) + 6 * updates {
        words.push(opening_word(geom, word))?;
    }
    for _ in 0..behind {
        words.push(0)?;
    }
    Ok(words)
}

/// Makes a load or a store, and gives what it found.
pub fn made(words: &mut [u64], atom: Atom) -> u64
    requires plain { IsPlain atom }
    requires can { CanDo 0 0 atom words.old [] }
    ensures words { words.new ≡ do_words atom words.old }
    ensures got { result ≡ do_got atom words.old [] }
{
    match atom {
        Atom::Load { word } => words[word as usize],
        Atom::Store { word, value } => {
            words[word as usize] = value;
            0
        }
        _ => 0,
    }
}
