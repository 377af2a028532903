//! Appending the words of a name, of an atom and of an answer, each after a space. After want of memory a part of them may stand there.

ghost use Rattle.std.specs.Prelude.{◌≡◌, ◌++◌, ◌∷◌, [], codes, decimal, OnOk};
ghost use Rattle.rl_model.specs.Geom.{GeomFits};
ghost use Rattle.rl_report.specs.Naming.{queue_word};
ghost use Rattle.rl_report.specs.Printing.{spaced};
ghost use Rattle.rl_names.specs.Spelling.{post_part, name_words, word_words, swap_words, atom_words, answer_words};

use crate::word_map::WordMap;
use crate::word_name::WordName;
use rl_report::{Naming, put_value, put_word};
use rl_step::Stepped;
use rl_word::Atom;
use std::alloc::AllocError as OutOfMemory;

/// A word and a number.
fn put_of(out: &mut Vec<u8>, word: &[u8], number: u32) -> Result<(), OutOfMemory>
    ensures { OnOk result (out.new.items ≡ out.old.items ++ spaced (word.now ∷ decimal number ∷ [])) }
{
    put_word(out, word)?;
    put_value(out, u64::from(number))
}

/// Two words.
fn put_both(out: &mut Vec<u8>, first: &[u8], second: &[u8]) -> Result<(), OutOfMemory>
    ensures { OnOk result (out.new.items ≡ out.old.items ++ spaced (first.now ∷ second.now ∷ [])) }
{
    put_word(out, first)?;
    put_word(out, second)
}

/// Two words and a number.
fn put_both_of(
    out: &mut Vec<u8>,
    first: &[u8],
    second: &[u8],
    number: u32,
) -> Result<(), OutOfMemory>
    ensures { OnOk result (out.new.items ≡ out.old.items ++ spaced (first.now ∷ second.now ∷ decimal number ∷ [])) }
{
    put_word(out, first)?;
    put_of(out, second, number)
}

/// A word of an element, which has the name of its queue.
fn put_of_element(
    out: &mut Vec<u8>,
    naming: &Naming,
    word: &[u8],
    element: u32,
) -> Result<(), OutOfMemory>
    ensures { OnOk result (out.new.items ≡ out.old.items ++ spaced (word.now ∷ codes "of" ∷ queue_word naming.now element ∷ [])) }
{
    put_both(out, word, b"of")?;
    match naming.queues.get(element as usize) {
        Some(queue) => put_word(out, queue.word.as_slice()),
        None => put_word(out, b""),
    }
}

/// One of the nine words of a post.
fn put_post(out: &mut Vec<u8>, rank: u32, word: u32) -> Result<(), OutOfMemory>
    ensures { OnOk result (out.new.items ≡ out.old.items ++ spaced (post_part word ++ decimal rank ∷ [])) }
{
    match word {
        0 => put_of(out, b"flag", rank),
        1 => put_of(out, b"kind", rank),
        2 => put_both_of(out, b"post", b"key", rank),
        3 => put_of(out, b"first", rank),
        4 => put_of(out, b"second", rank),
        5 => put_of(out, b"number", rank),
        6 => put_of(out, b"place", rank),
        7 => put_of(out, b"code", rank),
        _ => put_both_of(out, b"post", b"value", rank),
    }
}

/// The words of a word's name.
pub fn put_name(out: &mut Vec<u8>, naming: &Naming, name: WordName) -> Result<(), OutOfMemory>
    ensures { OnOk result (out.new.items ≡ out.old.items ++ spaced (name_words naming.now name)) }
{
    match name {
        WordName::Fixed => put_word(out, b"fixed"),
        WordName::Count => put_word(out, b"count"),
        WordName::Free => put_word(out, b"free"),
        WordName::State { bucket } => put_of(out, b"state", bucket),
        WordName::Key { bucket } => put_of(out, b"key", bucket),
        WordName::Value { bucket } => put_of(out, b"value", bucket),
        WordName::Link { cell } => put_of(out, b"link", cell),
        WordName::CellKey { cell } => put_both_of(out, b"cell", b"key", cell),
        WordName::CellValue { cell } => put_both_of(out, b"cell", b"value", cell),
        WordName::Journal { place, word } => {
            put_of(out, b"journal", place)?;
            put_value(out, u64::from(word))
        }
        WordName::Lock => put_word(out, b"word"),
        WordName::Tail => put_word(out, b"tail"),
        WordName::LocalTail => put_both(out, b"local", b"tail"),
        WordName::RemoteTail => put_both(out, b"remote", b"tail"),
        WordName::Victim => put_word(out, b"victim"),
        WordName::Next { rank } => put_of(out, b"next", rank),
        WordName::Status { rank } => put_of(out, b"status", rank),
        WordName::ElementTail { element } => put_of_element(out, naming, b"tail", element),
        WordName::ElementNext { element } => put_of_element(out, naming, b"next", element),
        WordName::ElementStatus { element } => put_of_element(out, naming, b"status", element),
        WordName::Arrive { group } => put_of(out, b"arrive", group),
        WordName::Depart { group } => put_of(out, b"depart", group),
        WordName::Version => put_word(out, b"version"),
        WordName::Post { rank, word } => put_post(out, rank, word),
    }
}

/// What is done to a word, and the word's name.
fn put_act(
    out: &mut Vec<u8>,
    naming: &Naming,
    map: &WordMap,
    act: &[u8],
    word: u32,
) -> Result<(), OutOfMemory>
    requires { GeomFits map.now.geom }
    ensures { OnOk result (out.new.items ≡ out.old.items ++ spaced (act.now ∷ word_words naming.now map.now word)) }
{
    put_word(out, act)?;
    put_name(out, naming, map.name_of(word))
}

/// What is done to a word, and the value that was found, or is written, behind this sign.
fn put_valued(
    out: &mut Vec<u8>,
    naming: &Naming,
    map: &WordMap,
    act: &[u8],
    word: u32,
    sign: &[u8],
    value: u64,
) -> Result<(), OutOfMemory>
    requires { GeomFits map.now.geom }
    ensures { OnOk result (out.new.items ≡ out.old.items ++ spaced (act.now ∷ (word_words naming.now map.now word ++ sign.now ∷ decimal value ∷ []))) }
{
    put_act(out, naming, map, act, word)?;
    put_word(out, sign)?;
    put_value(out, value)
}

/// A compare-and-swap: its guess, what it writes where that is met, and what it found.
fn put_swap(
    out: &mut Vec<u8>,
    naming: &Naming,
    map: &WordMap,
    word: u32,
    old: u64,
    new: u64,
    found: u64,
) -> Result<(), OutOfMemory>
    requires { GeomFits map.now.geom }
    ensures { OnOk result (out.new.items ≡ out.old.items ++ spaced (swap_words naming.now map.now word old new found)) }
{
    put_act(out, naming, map, b"local-cas", word)?;
    put_value(out, old)?;
    put_word(out, b"to")?;
    put_value(out, new)?;
    put_word(out, b"=")?;
    put_value(out, found)
}

/// The words of an atom, by its word's name, with what it found: a load tells what it found, a store what it writes, a compare-and-swap both.
pub fn put_atom(
    out: &mut Vec<u8>,
    naming: &Naming,
    map: &WordMap,
    atom: Atom,
    found: u64,
) -> Result<(), OutOfMemory>
    requires { GeomFits map.now.geom }
    ensures { OnOk result (out.new.items ≡ out.old.items ++ spaced (atom_words naming.now map.now atom found)) }
{
    match atom {
        Atom::Load { word } => put_valued(out, naming, map, b"load", word, b"=", found),
        Atom::Store { word, value } => put_valued(out, naming, map, b"store", word, b":=", value),
        Atom::LocalCas { word, old, new } => put_swap(out, naming, map, word, old, new, found),
        Atom::Take { node } => put_both_of(out, b"take", b"card", node),
        Atom::CardLoad { word } => put_valued(out, naming, map, b"card-load", word, b"=", found),
        Atom::CardStore { word, value } => {
            put_valued(out, naming, map, b"card-store", word, b":=", value)
        }
        Atom::Leave { node } => put_both_of(out, b"leave", b"card", node),
    }
}

/// The words of a step's answer: what was guessed where a compare was lost, or a get that reads without the lock, and which rank is
/// in a card that is busy.
pub fn put_answer(out: &mut Vec<u8>, answer: Stepped) -> Result<(), OutOfMemory>
    ensures { OnOk result (out.new.items ≡ out.old.items ++ spaced (answer_words answer)) }
{
    match answer {
        Stepped::Moved => put_word(out, b"moved"),
        Stepped::Waiting { .. } => put_word(out, b"waiting"),
        Stepped::Lost { guess, .. } => {
            put_word(out, b"lost")?;
            put_value(out, guess)
        }
        Stepped::Busy { holder, .. } => put_of(out, b"busy", holder),
        Stepped::Finished => put_word(out, b"finished"),
    }
}
