//! What holds of the texts of placements. There is nothing to run.
ghost use Rattle.std.specs.Prelude.{◌≡◌, ◌↔◌, ℕ, List, None};
ghost use Rattle.rl_place.specs.Places.{ThePlace, IsProper};
ghost use Rattle.rl_place.specs.Reading.{place_fault};
ghost use Rattle.rl_place.specs.Spelling.{place_spelling};

/// A text has no fault exactly where it is the spelling of a placement, and a placement has one spelling and no other
/// placement has it.
pub fn no_fault()
    ensures spelled { (text : List ℕ) → (place_fault text ≡ None) ↔ ((place : ThePlace) × IsProper place × (text ≡ place_spelling place)) }
    ensures one { (a b : ThePlace) → IsProper a → IsProper b → place_spelling a ≡ place_spelling b → a ≡ b }
{}
