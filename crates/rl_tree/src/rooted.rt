//! A shape as a lock's tree stands on it.

ghost use Rattle.std.specs.Prelude.{◌≡◌, ◌<◌, unwrap_or};
ghost use Rattle.rl_tree.specs.Elements.{of_tree, path_row, tree_of, tree_spot};
ghost use Rattle.rl_tree.specs.TreeShape.{IsTreeLaid, levels_of};

use rl_word::{Class, Shape, Spot};

/// A shape, with the home of the shard and the budget of the root's queue.
#[derive(Drop)]
pub struct Rooted {
    /// The node on which the root's tail lives.
    pub home: u32,
    pub shape: Shape,
    /// 1000 at most, or none.
    pub root: Option<u32>,
}

impl Rooted {
    /// How many words the tree has.
    pub(crate) fn words(&self) -> u32
        requires { IsTreeLaid self.now (levels_of self.now.shape) }
        ensures { result ≡ of_tree self.now }
    {
        let elements = self.shape.elements.len() as u32;
        elements + 2 * (elements - 1) + 2 * self.shape.node_of.len() as u32
    }

    /// The parent of an element; 0 where it has none, as the root.
    fn above(&self, element: u32) -> u32
        ensures { result ≡ unwrap_or ((tree_of self.now).parent element) 0 }
    {
        match self.shape.elements.get(element as usize) {
            Some(there) => match there.parent {
                Some(parent) => parent,
                None => 0,
            },
            None => 0,
        }
    }

    /// The path up from an element: the element, and the three above it.
    pub(crate) fn path(&self, element: u32) -> [u32; 4]
        ensures { result ≡ path_row self.now element }
    {
        let first = self.above(element);
        let second = self.above(first);
        let third = self.above(second);
        [element, first, second, third]
    }

    /// The class of a word, and where it lives.
    pub(crate) fn spot(&self, word: u32) -> Spot
        requires laid { IsTreeLaid self.now (levels_of self.now.shape) }
        requires there { word < of_tree self.now }
        ensures { result ≡ tree_spot self.now word }
    {
        let elements = self.shape.elements.len() as u32;
        let of_ranks = elements + 2 * (elements - 1);
        if word == 0 {
            Spot {
                class: Class::Card,
                home: self.home,
            }
        } else if word < elements {
            Spot {
                class: Class::Card,
                home: self.shape.elements[word as usize].first_node,
            }
        } else if word < of_ranks {
            Spot {
                class: Class::Plain,
                home: self.shape.elements[((word - elements) / 2 + 1) as usize].first_node,
            }
        } else {
            Spot {
                class: Class::Plain,
                home: self.shape.node_of[((word - of_ranks) / 2) as usize],
            }
        }
    }
}
