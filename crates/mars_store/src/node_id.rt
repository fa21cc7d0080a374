//! Numbers of nodes.
ghost use Rattle.std.specs.Prelude.{◌≡◌};

use mars_tree::NodeNumber;
use std::marker::Model;

/// A node of a store: its number, counted from 0 in the order of adding. The default is number 0.
#[derive(Clone, Copy, Debug, Default, PartialEq, Eq, PartialOrd, Ord, Hash)]
pub struct NodeId(pub(crate) usize);

impl Model for NodeId {
    ghost use Rattle.std.specs.Prelude.{ℕ};

    ghost Value = { ℕ };

    ghost view = { λ node. node.0 };

    ghost inverse = { λ n. record { 0 = n } };
}

impl NodeId {
    /// How many nodes were added before it.
    pub fn number(self) -> usize
        ensures { result ≡ self }
    {
        self.0
    }
}

impl NodeNumber for NodeId {
    ghost number_of = { λ node. node };

    fn node_number(self) -> usize {
        self.0
    }
}
