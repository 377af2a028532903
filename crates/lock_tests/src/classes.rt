//! What the rule of classes says of acts that look alike.

use crate::shapes::two_nodes;
use rl_word::{Act, Class, Spot, lawful};
use std::alloc::AllocError;

#[test]
fn compare_and_swaps_keep_to_their_class(rt: HostRuntime) -> Result<(), AllocError> {
    let shape = two_nodes(rt.alloc())?;
    let local = Act::LocalCas {
        word: 0,
        old: 0,
        new: 1,
    };
    let card = Act::CardCas {
        word: 0,
        old: 0,
        new: 1,
    };
    for (class, home, act, want) in [
        (Class::Card, 0, local, false),
        (Class::Local, 0, card, false),
        (Class::Local, 0, local, true),
        (Class::Local, 1, local, false),
        (Class::Card, 1, card, true),
        (Class::Plain, 0, local, false),
        (Class::Fixed, 0, Act::Load { word: 0 }, true),
        (Class::Fixed, 0, Act::Store { word: 0, value: 1 }, false),
        (Class::Card, 0, Act::Store { word: 0, value: 1 }, false),
        (Class::Plain, 1, Act::Store { word: 0, value: 1 }, true),
    ] {
        assert_eq!(rt; lawful(&shape, 0, Spot { class, home }, act), want);
    }
    Ok(())
}
