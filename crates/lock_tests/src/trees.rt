//! One rank on a node under a group under the root: its words, and how it joins, comes in over all levels, and begins to leave.

ghost use Rattle.std.specs.Prelude.{◌≡◌, None, IfOk};
ghost use Rattle.lock_tests.specs.Tower.{tower as the_tower};

use crate::shapes::ROOT;
use rl_queue::Phase;
use rl_step::{Event, Events, Standing};
use rl_tree::{Tree, TreeView, tree_enter, tree_laws};
use rl_word::{Act, Class, Element, Shape, Spot};
use std::alloc::{AllocError as OutOfMemory, Global};

/// The tree: the group has a budget of 2 and the node one of 1.
fn tower(alloc: Global) -> Result<Tree, OutOfMemory>
    ensures { IfOk result (λ tree. tree.rooted ≡ record { home = 0; shape = the_tower; root = None }) }
{
    let group = Element {
        parent: Some(0),
        first_node: 0,
        budget: Some(2),
    };
    let node = Element {
        parent: Some(1),
        first_node: 0,
        budget: Some(1),
    };
    let shape = Shape {
        node_of: vec![in alloc; 0]?,
        nodes: 1,
        leaf_of: vec![in alloc; 2]?,
        elements: vec![in alloc; ROOT, group, node]?,
    };
    Tree::new(alloc, &shape, 0, None)
}

#[test]
fn tails_stand_before_the_words_of_members(rt: HostRuntime) -> Result<(), OutOfMemory> {
    let tree = tower(rt.alloc())?;
    assert_eq!(rt; tree.words(), 9);
    for word in 0..9u32 {
        let class = if word < 3 { Class::Card } else { Class::Plain };
        assert_eq!(rt; tree.spot(word), Spot { class, home: 0 }, "of word {word}");
    }
    tree_laws();
    Ok(())
}

#[test]
fn comes_in_over_three_levels(rt: HostRuntime) -> Result<(), OutOfMemory> {
    let tree = tower(rt.alloc())?;
    let out = tree.first(0);
    assert_eq!(rt; out, TreeView::out(0, 2));
    assert_eq!(rt; out.standing(), Standing::Out);
    let asks = out.join();
    assert_eq!(rt; asks.standing(), Standing::Asking);
    assert_eq!(rt; tree.plan(asks), Some(Act::Store { word: 7, value: 0 }));
    let mut events = Events::new();
    let mut joins = asks.at_level(0, Phase::Swing { guess: 0 });
    assert!(rt; !tree.learn(&mut joins, 0, &mut events));
    assert_eq!(rt;
        events.as_slice()[0],
        Event::Join {
            queue: 2,
            member: 0
        }
    );
    assert_eq!(rt; joins, asks.at_level(1, Phase::Clear));
    let mut head = asks.at_level(2, Phase::Settle);
    assert!(rt; head.is_at_hook());
    let mut events = Events::new();
    tree.resume(&mut head, &mut events);
    tree_enter(&head, &mut events);
    let told = [
        Event::Settle {
            queue: 0,
            member: 1,
        },
        Event::Settle {
            queue: 1,
            member: 2,
        },
        Event::Settle {
            queue: 2,
            member: 0,
        },
        Event::EnterW { rank: 0 },
    ];
    assert_eq!(rt; events.as_slice(), &told[..]);
    assert_eq!(rt; head, out.at_level(0, Phase::Granted { left: 1 }));
    Ok(())
}

#[test]
fn gives_up_what_is_above_before_it_leaves(rt: HostRuntime) -> Result<(), OutOfMemory> {
    let tree = tower(rt.alloc())?;
    let inside = tree.first(0).at_level(0, Phase::Granted { left: 1 });
    assert_eq!(rt; inside.standing(), Standing::Writer);
    let mut view = inside.leave();
    assert_eq!(rt; view.standing(), Standing::Leaving);
    assert_eq!(rt; tree.plan(view), Some(Act::Load { word: 7 }));
    assert!(rt; !tree.learn(&mut view, 0, &mut Events::new()));
    assert!(rt; view.query);
    assert_eq!(rt; view.level, 1);
    assert_eq!(rt; tree.plan(view), Some(Act::Load { word: 6 }));
    assert!(rt; !tree.learn(&mut view, 3, &mut Events::new()));
    assert_eq!(rt;
        view.phase,
        Phase::Look {
            left: 1,
            upper: true
        }
    );
    Ok(())
}
