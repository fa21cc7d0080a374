//! The roots of a graph.
ghost use Rattle.std.specs.Prelude.{◌≡◌, length};

use std::marker::Model;

/// A list of nodes, the roots of a graph.
#[derive(Drop)]
pub struct Roots {
    nodes: Vec<usize>,
}

impl Model for Roots {
    ghost use Rattle.std.specs.Prelude.{List, ℕ};

    ghost Value = { List ℕ };

    ghost view = { λ r. r.nodes.items };
}

impl Roots {
    /// The roots of a list.
    pub fn from_list(nodes: Vec<usize>) -> Roots
        ensures { result ≡ nodes.items }
    {
        Roots { nodes }
    }

    /// How many roots there are.
    pub fn len(&self) -> usize
        ensures { result ≡ length self.now }
    {
        self.nodes.len()
    }

    /// The roots, in order.
    pub fn as_slice(&self) -> &[usize]
        ensures { result.now ≡ self.now }
    {
        &self.nodes
    }
}
