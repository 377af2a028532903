//! How an act is split into atoms, on plain data.

ghost use Rattle.std.specs.Prelude.{◌≡◌, ◌+◌, ◌<◌, ◌^◌, true};
ghost use Rattle.rl_word.specs.Acts.{word_of, written as written_by, told as told_by, by_card as is_by_card};
ghost use Rattle.rl_rank.specs.Split.{first_at, atom_at, card_word as card_word_at, skips as skips_at, effect_at, answer_of, guess_of, HolderFits};

use crate::card_state::CardState;
use crate::effect::Effect;
use rl_step::Stepped;
use rl_word::{Act, Atom};

/// The word that an act is made on.
pub fn word(act: Act) -> u32
    ensures { result ≡ word_of act }
{
    match act {
        Act::Load { word }
        | Act::Store { word, .. }
        | Act::LocalCas { word, .. }
        | Act::CardCas { word, .. }
        | Act::CardSwap { word, .. }
        | Act::CardAdd { word, .. } => word,
    }
}

/// The word whose home is asked for, by the planned act and the card state: none where the act isn't made through a card.
#[inline(always)]
pub fn card_word(plan: Option<Act>, card: CardState) -> Option<u32>
    ensures { result ≡ card_word_at plan card }
{
    let act = plan?;
    match card {
        CardState::Free => if by_card(act) { Some(word(act)) } else { None },
        CardState::InCard | CardState::Loaded { .. } | CardState::ToLeave { .. } => Some(word(act)),
    }
}

/// What an act writes where its word has this value.
fn written(act: Act, value: u64) -> u64
    ensures { result ≡ written_by act value }
{
    match act {
        Act::Load { .. } => value,
        Act::Store { value: new, .. } | Act::CardSwap { value: new, .. } => new,
        Act::LocalCas { old, new, .. } | Act::CardCas { old, new, .. } => {
            if value == old { new } else { value }
        }
        Act::CardAdd { by, .. } => value.wrapping_add(by),
    }
}

/// What an act tells where its word had this value.
fn told(act: Act, value: u64) -> u64
    ensures { result ≡ told_by act value }
{
    match act {
        Act::Store { .. } => 0,
        _ => value,
    }
}

/// Whether an act is made through a card.
pub fn by_card(act: Act) -> bool
    ensures { result ≡ is_by_card act }
{
    match act {
        Act::Load { .. } | Act::Store { .. } | Act::LocalCas { .. } => false,
        Act::CardCas { .. } | Act::CardSwap { .. } | Act::CardAdd { .. } => true,
    }
}

/// Whether an act stores nothing where its load gave this value.
fn skips(act: Act, got: u64) -> bool
    ensures { result ≡ skips_at act got }
{
    match act {
        Act::LocalCas { old, .. } | Act::CardCas { old, .. } => got != old,
        Act::Load { .. } | Act::Store { .. } | Act::CardSwap { .. } | Act::CardAdd { .. } => false,
    }
}

/// The first atom of an act whose word has this home.
fn first(home: u32, act: Act) -> Atom
    ensures { result ≡ first_at home act }
{
    match act {
        Act::Load { word } => Atom::Load { word },
        Act::Store { word, value } => Atom::Store { word, value },
        Act::LocalCas { word, old, new } => Atom::LocalCas { word, old, new },
        Act::CardCas { .. } | Act::CardSwap { .. } | Act::CardAdd { .. } => {
            Atom::Take { node: home }
        }
    }
}

/// The next atom of a rank, by its planned act and its card state.
#[inline(always)]
pub fn next_atom(home: u32, plan: Option<Act>, card: CardState) -> Option<Atom>
    ensures { result ≡ atom_at home plan card }
{
    match card {
        CardState::ToLeave { node } => Some(Atom::Leave { node }),
        CardState::Free => Some(first(home, plan?)),
        CardState::InCard => Some(Atom::CardLoad { word: word(plan?) }),
        CardState::Loaded { value } => {
            let act = plan?;
            Some(Atom::CardStore {
                word: word(act),
                value: written(act, value),
            })
        }
    }
}

/// What the first atom of an act means.
fn effect_of_first(home: u32, act: Act, got: u64) -> Effect
    requires { is_by_card act ≡ true → got < 2 ^ 32 + 1 }
    ensures { result ≡ effect_at home (Some act) CardState.Free got }
{
    if !by_card(act) {
        return Effect::Learn {
            card: CardState::Free,
            told: got,
            lost: skips(act, got),
        };
    }
    if got == 0 {
        Effect::Stay {
            card: CardState::InCard,
            stepped: Stepped::Moved,
        }
    } else {
        Effect::Stay {
            card: CardState::Free,
            stepped: Stepped::Busy {
                node: home,
                holder: (got - 1) as u32,
            },
        }
    }
}

/// What a load in the card means.
fn effect_of_load(home: u32, act: Act, got: u64) -> Effect
    ensures { result ≡ effect_at home (Some act) CardState.InCard got }
{
    if skips(act, got) {
        Effect::Learn {
            card: CardState::ToLeave { node: home },
            told: got,
            lost: true,
        }
    } else {
        Effect::Stay {
            card: CardState::Loaded { value: got },
            stepped: Stepped::Moved,
        }
    }
}

/// What an atom that gave this means, by the planned act and the card state.
#[inline(always)]
pub fn effect(home: u32, plan: Option<Act>, card: CardState, got: u64) -> Effect
    requires { HolderFits plan card got }
    ensures { result ≡ effect_at home plan card got }
{
    match card {
        CardState::ToLeave { .. } => Effect::Stay {
            card: CardState::Free,
            stepped: Stepped::Moved,
        },
        CardState::Free => match plan {
            None => Effect::Work,
            Some(act) => effect_of_first(home, act, got),
        },
        CardState::InCard => match plan {
            None => Effect::Work,
            Some(act) => effect_of_load(home, act, got),
        },
        CardState::Loaded { value } => match plan {
            None => Effect::Work,
            Some(act) => Effect::Learn {
                card: CardState::ToLeave { node: home },
                told: told(act, value),
                lost: false,
            },
        },
    }
}

/// The value that a compare-and-swap hopes to find.
fn guess(act: Act) -> u64
    ensures { result ≡ guess_of act }
{
    match act {
        Act::LocalCas { old, .. } | Act::CardCas { old, .. } => old,
        Act::Load { .. } | Act::Store { .. } | Act::CardSwap { .. } | Act::CardAdd { .. } => 0,
    }
}

/// The answer of a learnt act, with its word as the lock numbers it.
#[inline(always)]
pub fn answer(plan: Option<Act>, got: u64, lost: bool, waits: bool) -> Stepped
    ensures { result ≡ answer_of plan got lost waits }
{
    match plan {
        None => Stepped::Moved,
        Some(act) => {
            if lost {
                Stepped::Lost {
                    guess: guess(act),
                    seen: got,
                }
            } else if waits {
                Stepped::Waiting {
                    word: word(act),
                    value: got,
                }
            } else {
                Stepped::Moved
            }
        }
    }
}
