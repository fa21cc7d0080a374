//! Equality of graphs, node by node, and their hash.
ghost use Rattle.std.specs.Prelude.{◌≡◌, ◌↔◌, IsTrue};

use crate::graph::Graph;
use std::hash::{Hash, Hasher};

impl PartialEq for Graph {
    ghost use Rattle.mars_tree.specs.Equality.{same_nodes};
    ghost use Rattle.mars_tree.specs.EqualityLaws.{nodes_partial_equivalence};

    ghost eq = { same_nodes };

    ghost laws = { nodes_partial_equivalence };

    /// Whether two graphs have the same nodes in the same order. Linear in the nodes and their kids.
    fn eq(&self, other: &Graph) -> bool
        ensures value { result ≡ same_nodes self.now other.now }
        ensures same { IsTrue result ↔ (self.now ≡ other.now) }
    {
        self.labels == other.labels && self.kids == other.kids
    }
}

impl Eq for Graph {
    ghost use Rattle.mars_tree.specs.EqualityLaws.{nodes_equivalence};

    ghost laws = { nodes_equivalence };
}

impl Hash for Graph {
    ghost use Rattle.mars_tree.specs.Equality.{node_writes};
    ghost use Rattle.mars_tree.specs.EqualityLaws.{nodes_alike};

    ghost hash_input = { node_writes };

    ghost respects_eq = { nodes_alike };

    /// Hashes all labels, and then all kids.
    fn hash<H: Hasher>(&self, state: &mut H) {
        self.labels.hash(state);
        self.kids.hash(state);
    }
}
