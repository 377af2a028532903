//! The tree of a shape: a queue for each element, their words, and where these live.

ghost use Rattle.std.specs.Prelude.{◌≡◌, ℕ, ◌+◌, ◌*◌, ◌<◌, ◌≤◌, ◌^◌, ◌∷◌, Some, length, IfOk};
ghost use Rattle.rl_word.specs.Shapes.{IsProper};
ghost use Rattle.rl_step.specs.LockQueues.{stands};
ghost use Rattle.rl_queue.specs.RankWords.{every_second};
ghost use Rattle.rl_tree.specs.Tree.{path, is_none};
ghost use Rattle.rl_tree.specs.Elements.{how_many, ranks_in, leaf_of_rank, of_tree, names_by, names_in, all_names, upto, path_row, tree_of, tree_spot, out_at};
ghost use Rattle.rl_tree.specs.TreeShape.{IsBudgeted, IsParented, IsTreeLaid, levels_of};

use crate::rooted::Rooted;
use crate::view::TreeView;
use rl_queue::{QueueNames, rank_words};
use rl_word::{Class, Shape, Spot};
use std::alloc::{AllocError as OutOfMemory, Global};

/// The tree of a shape, for the queues of one lock: a queue for each element, of which the root, element 0, has a budget that the lock
/// gives it, or none.
///
/// Words come in this order: the tail of each element; the next word and the status word of each element but the root; those of each
/// rank. Tails are card words, the root's on the shard's home and any other on its element's first node; the others are plain, an
/// element's on its first node and a rank's on the rank's node.
#[derive(Drop)]
pub struct Tree {
    rooted: Rooted,
    queues: Vec<QueueNames>,
    /// The spot of each word.
    spots: Vec<Spot>,
    /// The path up from each element. The elements say as much: it is here for speed, since each atom of a rank asks for one or two
    /// elements of its path.
    paths: Vec<[u32; 4]>,
    ghost laid: { IsTreeLaid rooted (levels_of rooted.shape) },
    ghost named: { queues.items ≡ all_names rooted.shape rooted.root },
    ghost placed: { spots.items ≡ upto (tree_spot rooted) (of_tree rooted) },
    ghost pathed: { paths.items ≡ upto (path_row rooted) (how_many rooted) },
    ghost parented: { IsParented rooted },
}

/// The next words of all elements, or their status words, with 0 for the root, which has none.
fn element_words(alloc: Global, from: u32, below_root: u32) -> Result<Vec<u32>, OutOfMemory>
    requires { from + 2 * below_root < 2 ^ 32 }
    ensures { IfOk result (λ words. words.items ≡ 0 ∷ every_second from below_root) }
{
    let mut words = Vec::new(alloc);
    words.push(0)?;
    for element in 0..below_root {
        words.push(from + 2 * element)?;
    }
    Ok(words)
}

/// Whether an element is a node.
fn is_node(shape: &Shape, element: u32) -> bool
    ensures { result ≡ stands shape.now.leaf_of element }
{
    shape.leaf_of.contains(&element)
}

/// The words of the queue of an element: of a node's ranks, or of the elements below one.
fn names_for(
    alloc: Global,
    shape: &Shape,
    element: u32,
    root: Option<u32>,
) -> Result<QueueNames, OutOfMemory>
    requires there { element < length shape.now.elements }
    requires ranks { length shape.now.node_of ≤ 32 }
    requires elements { length shape.now.elements ≤ 128 }
    ensures { IfOk result (λ names. names ≡ names_by shape.now root element) }
{
    let ranks = shape.node_of.len() as u32;
    let elements = shape.elements.len() as u32;
    let of_ranks = elements + 2 * (elements - 1);
    let node = is_node(shape, element);
    let next = if node {
        rank_words(alloc, of_ranks, ranks)?
    } else {
        element_words(alloc, elements, elements - 1)?
    };
    let status = if node {
        rank_words(alloc, of_ranks + 1, ranks)?
    } else {
        element_words(alloc, elements + 1, elements - 1)?
    };
    let budget = if element == 0 {
        root
    } else {
        shape.elements[element as usize].budget
    };
    Ok(QueueNames {
        queue: element,
        tail: element,
        tail_class: Class::Card,
        next,
        status,
        budget,
    })
}

/// The words of all queues.
fn names_for_all(
    alloc: Global,
    shape: &Shape,
    root: Option<u32>,
) -> Result<Vec<QueueNames>, OutOfMemory>
    requires ranks { length shape.now.node_of ≤ 32 }
    requires elements { length shape.now.elements ≤ 128 }
    ensures { IfOk result (λ queues. queues.items ≡ all_names shape.now root) }
{
    let mut queues = Vec::new(alloc);
    for element in 0..shape.elements.len() as u32 {
        queues.push(names_for(alloc, shape, element, root)?)?;
    }
    Ok(queues)
}

/// The spots of all words.
fn spots_of(alloc: Global, rooted: &Rooted) -> Result<Vec<Spot>, OutOfMemory>
    requires { IsTreeLaid rooted.now (levels_of rooted.now.shape) }
    ensures { IfOk result (λ spots. spots.items ≡ upto (tree_spot rooted.now) (of_tree rooted.now)) }
{
    let mut spots = Vec::new(alloc);
    for word in 0..rooted.words() {
        spots.push(rooted.spot(word))?;
    }
    Ok(spots)
}

/// The paths up from all elements.
fn paths_of(alloc: Global, rooted: &Rooted) -> Result<Vec<[u32; 4]>, OutOfMemory>
    requires { how_many rooted.now ≤ 128 }
    ensures { IfOk result (λ paths. paths.items ≡ upto (path_row rooted.now) (how_many rooted.now)) }
{
    let mut paths = Vec::new(alloc);
    for element in 0..rooted.shape.elements.len() as u32 {
        paths.push(rooted.path(element))?;
    }
    Ok(paths)
}

/// A copy of a shape.
fn copy_of(shape: &Shape) -> Result<Shape, OutOfMemory>
    ensures { IfOk result (λ copy. copy ≡ shape.now) }
{
    let node_of = shape.node_of.clone()?;
    let leaf_of = shape.leaf_of.clone()?;
    let elements = shape.elements.clone()?;
    Ok(Shape {
        node_of,
        nodes: shape.nodes,
        leaf_of,
        elements,
    })
}

impl Tree {
    /// The tree of a proper shape, in which each element but the root has a budget; the root has the one given, 1000 at most, or none.
    /// The home is that of the shard.
    pub fn new(
        alloc: Global,
        shape: &Shape,
        home: u32,
        root: Option<u32>,
    ) -> Result<Self, OutOfMemory>
        requires proper { IsProper shape.now }
        requires homed { home < shape.now.nodes }
        requires budgeted { IsBudgeted shape.now }
        requires modest { (budget : ℕ) → root ≡ Some budget → budget ≤ 1000 }
        ensures { IfOk result (λ tree. tree.rooted ≡ record { home = home; shape = shape.now; root = root }) }
    {
        let queues = names_for_all(alloc, shape, root)?;
        let copy = copy_of(shape)?;
        let rooted = Rooted {
            home,
            shape: copy,
            root,
        };
        let spots = spots_of(alloc, &rooted)?;
        let paths = paths_of(alloc, &rooted)?;
        Ok(Tree {
            rooted,
            queues,
            spots,
            paths,
        })
    }

    /// How many words the tree has.
    pub fn words(&self) -> u32
        ensures { result ≡ of_tree self.now.rooted }
    {
        self.spots.len() as u32
    }

    /// The class of a word, and where it lives.
    #[inline(always)]
    pub fn spot(&self, word: u32) -> Spot
        requires { word < of_tree self.now.rooted }
        ensures { result ≡ tree_spot self.now.rooted word }
    {
        self.spots[word as usize]
    }

    /// The view of a rank that is out.
    pub fn first(&self, rank: u32) -> TreeView
        requires { rank < ranks_in self.now.rooted }
        ensures { result ≡ out_at rank (leaf_of_rank self.now.rooted rank) }
    {
        let node = self.rooted.shape.node_of[rank as usize];
        TreeView::out(rank, self.rooted.shape.leaf_of[node as usize])
    }

    /// The element at a level of the path up from a leaf.
    #[inline(always)]
    pub(crate) fn element_at(&self, leaf: u32, level: u32) -> u32
        requires low { level ≤ 3 }
        requires there { leaf < how_many self.now.rooted }
        ensures { result ≡ path (tree_of self.now.rooted) leaf level }
    {
        self.paths[leaf as usize][level as usize]
    }

    /// Whether the element at a level of the path up from a leaf, which is there, is the root.
    #[inline(always)]
    pub(crate) fn is_top(&self, leaf: u32, level: u32) -> bool
        requires low { level ≤ 3 }
        requires leaf { leaf < how_many self.now.rooted }
        requires there { path (tree_of self.now.rooted) leaf level < how_many self.now.rooted }
        ensures { result ≡ is_none ((tree_of self.now.rooted).parent (path (tree_of self.now.rooted) leaf level)) }
    {
        self.element_at(leaf, level) == 0
    }

    /// The words of the queue of an element.
    #[inline(always)]
    pub(crate) fn names(&self, element: u32) -> &QueueNames
        requires { element < how_many self.now.rooted }
        ensures { result.now ≡ names_in self.now.rooted element }
    {
        &self.queues[element as usize]
    }
}
