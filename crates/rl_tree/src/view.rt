//! What a rank knows of the tree: where it works, and what it has left behind below.

ghost use Rattle.std.specs.Prelude.{◌≡◌, true};
ghost use Rattle.rl_step.specs.Lock.{IsHolder};
ghost use Rattle.rl_step.specs.declared.events.Standing.TheVariants as TheStanding;
ghost use Rattle.rl_queue.specs.Queue.{leave_at};
ghost use Rattle.rl_tree.specs.Tree.{at_level as level_view, at_hook, tree_standing};
ghost use Rattle.rl_tree.specs.Elements.{out_at};

use rl_queue::{Phase, QueueView, queue_standing};
use rl_step::Standing;

/// A rank's view of the tree. It works in one queue on its path, at a level that counts from its node's queue up. On its way up it must
/// settle in each queue below; on its way out it has looked in each queue below, and found these successors.
#[derive(Clone, Copy, PartialEq, Eq, Debug)]
pub struct TreeView {
    pub rank: u32,
    /// The element of the rank's node.
    pub leaf: u32,
    /// 0 at the node's queue, 3 at most.
    pub level: u32,
    /// The phase of the member for which the rank works at this level: itself at level 0, else the element below.
    pub phase: Phase,
    /// The rank is about to load the status of that member.
    pub query: bool,
    /// The successor that was found at each level below.
    pub behind: [Option<u32>; 3],
}

impl TreeView {
    /// A rank that is out. The leaf is the element of its node.
    pub fn out(rank: u32, leaf: u32) -> TreeView
        ensures { result ≡ out_at rank leaf }
    {
        TreeView {
            rank,
            leaf,
            level: 0,
            phase: Phase::Idle,
            query: false,
            behind: [None; 3],
        }
    }

    /// The view at a level in a phase.
    #[inline(always)]
    pub fn at_level(self, level: u32, phase: Phase) -> TreeView
        ensures { result ≡ level_view self level phase }
    {
        let mut view = self;
        view.go_to(level, phase);
        view
    }

    /// Goes to a level, in a phase.
    #[inline(always)]
    pub fn go_to(&mut self, level: u32, phase: Phase)
        ensures { self.new ≡ level_view self.old level phase }
    {
        self.level = level;
        self.phase = phase;
        self.query = false;
    }

    /// A rank that is out asks: it begins to join its node's queue.
    pub fn join(self) -> TreeView
        requires { tree_standing self ≡ TheStanding.Out }
        ensures { result ≡ level_view self 0 Phase.Clear }
    {
        self.at_level(0, Phase::Clear)
    }

    /// A rank that is inside begins to leave its node's queue, which has something above it.
    pub fn leave(self) -> TreeView
        requires { IsHolder (tree_standing self) }
        ensures { result ≡ level_view self 0 (leave_at self.phase true) }
    {
        match self.phase {
            Phase::Granted { left } => self.at_level(0, Phase::Look { left, upper: true }),
            _ => self.at_level(0, self.phase),
        }
    }

    /// Whether the rank stands at the hook above the root: it must settle there, or gives up what is above.
    #[inline(always)]
    pub fn is_at_hook(self) -> bool
        ensures { result ≡ at_hook self }
    {
        !self.query && matches!(self.phase, Phase::Settle | Phase::Above { .. })
    }

    /// How the rank stands.
    #[inline(always)]
    pub fn standing(self) -> Standing
        ensures { result ≡ tree_standing self }
    {
        if self.query {
            Standing::Leaving
        } else {
            queue_standing(QueueView {
                member: self.rank,
                phase: self.phase,
            })
        }
    }
}
