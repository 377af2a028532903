//! What a rank knows of RMA-RW: the tree, and the counters.

use rl_counter::CounterView;
use rl_tree::TreeView;

/// A rank's view. While it has a task at the counters it makes the acts of that; a writer then stands at the hook of the tree.
#[derive(Clone, Copy, PartialEq, Eq, Debug)]
pub struct RwView {
    pub tree: TreeView,
    pub counter: CounterView,
}
