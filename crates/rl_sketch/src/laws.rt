//! What holds of the texts of sketches. There is nothing to run.

ghost use Rattle.std.specs.Prelude.{◌≡◌, ◌<◌, ◌^◌, ◌↔◌, ℕ, List, None, Ok};
ghost use Rattle.rl_sketch.specs.declared.sketch.Sketch.{Sketch};
ghost use Rattle.rl_sketch.specs.Sketch.{SpellsSketch};
ghost use Rattle.rl_sketch.specs.SketchReading.{sketch_at, sketch_fault};

/// A text has no fault exactly where it is the spelling of some sketch, and it is then read as that sketch: a sketch has one spelling, and no other has it.
pub fn no_sketch_fault()
    ensures spelled { (ranks : ℕ) (text : List ℕ) → ranks < 2 ^ 32 →
        (sketch_fault ranks text ≡ None) ↔ ((sketch : Sketch) × SpellsSketch ranks sketch text) }
    ensures read { (ranks : ℕ) (text : List ℕ) (sketch : Sketch) → ranks < 2 ^ 32 →
        (sketch_at ranks text ≡ Ok sketch) ↔ SpellsSketch ranks sketch text }
{}
