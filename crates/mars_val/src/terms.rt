//! Nodes in the order in which they were met, each once.
ghost use Rattle.std.specs.Prelude.{◌≡◌, ◌<◌, ◌++◌, ◌∷◌, [], length, slice_get, Contains, Some, MatchOption, OnOk, OnErr};
ghost use Rattle.mars_reach.specs.Order.{AreDistinct};

use indexmap::IndexSet;
use mars_base::NoMemory;
use mars_store::NodeId;
use std::alloc::Global;
use std::marker::Model;

/// Nodes, each once, in the order in which they were met.
#[derive(Drop)]
pub(crate) struct Terms {
    met: IndexSet<NodeId>,
}

impl Model for Terms {
    ghost use Rattle.std.specs.Prelude.{List, ℕ};

    ghost Value = { List ℕ };

    ghost view = { λ t. t.met.keys };
}

impl Terms {
    /// No node.
    pub(crate) fn new(alloc: Global) -> Terms
        ensures { result ≡ [] }
    {
        Terms {
            met: IndexSet::new(alloc),
        }
    }

    /// The place of a node that was met.
    pub(crate) fn find(&self, node: NodeId) -> Option<usize>
        ensures { MatchOption result (Contains self.now node → ⊥) (λ place. slice_get self.now place ≡ Some node) }
    {
        self.met.get_index_of(&node)
    }

    /// Adds a node that wasn't met.
    pub(crate) fn add(&mut self, node: NodeId) -> Result<(), NoMemory>
        requires { Contains self.old node → ⊥ }
        ensures ok { OnOk result (self.new ≡ self.old ++ node ∷ []) }
        ensures distinct { OnOk result (AreDistinct self.new) }
        ensures err { OnErr result (self.new ≡ self.old) }
    {
        self.met.insert_full(node)?;
        Ok(())
    }

    /// The node that was met at a place, counted from 0.
    pub(crate) fn get(&self, place: usize) -> NodeId
        requires { place < length self.now }
        ensures { slice_get self.now place ≡ Some result }
    {
        self.met[place]
    }
}
