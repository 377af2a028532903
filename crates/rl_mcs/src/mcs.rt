//! RMA-MCS: the lock that the tree of elements is by itself.

ghost use Rattle.std.specs.Prelude.{◌≡◌, ◌≤◌, None, refl, length, true};
ghost use Rattle.rl_word.specs.declared.locks.LockName.TheVariants as TheName;
ghost use Rattle.rl_word.specs.Shapes.{layout_of};
ghost use Rattle.rl_step.specs.Lock.{no_more, told_as};
ghost use Rattle.rl_tree.specs.laws.SameViews.{same_tree};
ghost use Rattle.rl_tree.specs.Tree.{at_hook};
ghost use Rattle.rl_tree.specs.Elements.{tree_of};
ghost use Rattle.rl_tree.specs.Fits.{IsPlaced};
ghost use Rattle.rl_tree.specs.TreeShape.{IsBudgeted, levels_of};
ghost use Rattle.rl_tree.specs.laws.TreeLaid.{well_shaped};
ghost use Rattle.rl_mcs.specs.Mcs.{mcs_tree, past_hook as past_the_hook, mcs_table, McsGood};
ghost use Rattle.rl_mcs.specs.laws.McsLaws.{mcs_laws};

use rl_step::{Algo, Events, Standing};
use rl_tree::{Tree, TreeView, tree_enter};
use rl_word::{Act, Knobs, LockName, Mode, Shape, Spot};
use std::alloc::{AllocError as OutOfMemory, Global};

/// RMA-MCS, the lock of Schmid, Besta and Hoefler for remote memory: a queue for each element of the tree of nodes. A rank joins its
/// node's queue; a queue's head joins the queue above for its element, and so up to the root, which has no limit. All other elements
/// have a budget: so often their queue is passed on before what is above is given up.
///
/// A queue for each element, numbered as these are; their words are those of the tree. Readers are writers to it. It reads no setting.
#[derive(Drop)]
pub struct Mcs {
    tree: Tree,
    ghost unlimited: { tree.rooted.root ≡ None },
}

/// Goes on from the hook in the same act: nothing is above the root. Whether the load that led to the view has to be made again.
#[inline(always)]
fn past_hook(tree: &Tree, view: &mut TreeView, waits: bool, events: &mut Events) -> bool
    requires placed { at_hook view.old ≡ true → IsPlaced tree.now.rooted view.old }
    requires room { at_hook view.old ≡ true → length events.old.items ≤ 3 }
    ensures { told_as view.new events.new.items result ≡
        past_the_hook (tree_of tree.now.rooted) (at_hook view.old) (told_as view.old events.old.items waits) }
{
    if view.is_at_hook() {
        tree.resume(view, events);
        false
    } else {
        waits
    }
}

impl Algo for Mcs {
    type View = TreeView;

    ghost table = { λ s. mcs_table s.tree.rooted };

    ghost good = { λ s. McsGood s.tree.rooted (levels_of s.tree.rooted.shape) };

    ghost further = { λ s. no_more };

    ghost layout = { λ s. layout_of s.tree.rooted.shape };

    ghost defined = { λ shape home knobs. mcs_table (mcs_tree home shape) };

    ghost promised = { λ shape home knobs. no_more };

    ghost name = { TheName.Mcs };

    ghost has_queues = { λ shape home knobs. refl };

    ghost has_shares = { λ shape home knobs. refl };

    ghost has_cohorts = { λ shape home knobs. refl };

    ghost suits_knobs = { λ shape knobs. IsBudgeted shape };

    fn lock_name() -> LockName {
        LockName::Mcs
    }

    fn make(alloc: Global, shape: &Shape, home: u32, _knobs: Knobs) -> Result<Self, OutOfMemory> {
        let tree = Tree::new(alloc, shape, home, None)?;
        Ok(Mcs { tree })
    }

    fn words(&self) -> u32 {
        self.tree.words()
    }

    fn spot(&self, word: u32) -> Spot {
        self.tree.spot(word)
    }

    fn first(&self, rank: u32) -> TreeView {
        self.tree.first(rank)
    }

    fn ask(&self, view: TreeView, _mode: Mode) -> TreeView {
        view.join()
    }

    #[inline(always)]
    fn plan(&self, view: TreeView) -> Option<Act> {
        self.tree.plan(view)
    }

    #[inline(always)]
    fn learn(&self, view: &mut TreeView, got: u64, events: &mut Events) -> bool {
        let turn = self.tree.learn(view, got, events);
        let waits = past_hook(&self.tree, view, turn, events);
        tree_enter(view, events);
        waits
    }

    fn leave(&self, view: TreeView) -> TreeView {
        view.leave()
    }

    fn standing(&self, view: TreeView) -> Standing {
        view.standing()
    }

    ghost same_views = { same_tree };

    ghost laws = { λ s. mcs_laws s.tree.rooted (levels_of s.tree.rooted.shape) (well_shaped s.tree.rooted s.tree.laid) s.unlimited };
}
