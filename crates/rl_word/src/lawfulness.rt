//! The rule of classes.

ghost use Rattle.std.specs.Prelude.{◌<◌, ◌↔◌, IsTrue, length};
ghost use Rattle.rl_word.specs.Acts.{IsAllowed};

use crate::acts::Act;
use crate::classes::{Class, Spot};
use crate::shapes::Shape;

/// Whether a rank may make an act on a word of this class and home.
///
/// A load is always allowed; a store on plain words alone; a local compare-and-swap on local words alone, by ranks of
/// the word's home; card acts on card words alone. The rank is one of the shape's. The act's own word number isn't
/// looked at: `spot` says what the word is.
pub fn lawful(shape: &Shape, rank: u32, spot: Spot, act: Act) -> bool
    requires { rank < length shape.now.node_of }
    ensures { IsTrue result ↔ IsAllowed shape.now.node_of rank spot act }
{
    match act {
        Act::Load { .. } => true,
        Act::Store { .. } => spot.class == Class::Plain,
        Act::LocalCas { .. } => {
            spot.class == Class::Local && shape.node_of[rank as usize] == spot.home
        }
        Act::CardCas { .. } | Act::CardSwap { .. } | Act::CardAdd { .. } => {
            spot.class == Class::Card
        }
    }
}
