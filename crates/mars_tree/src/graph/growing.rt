//! Graphs that grow at their ends and are cut there.
ghost use Rattle.std.specs.Prelude.{◌≡◌, ◌<◌, ◌≤◌, ◌+◌, ◌++◌, ◌∷◌, [], length, map, take, IfOk, OnOk, OnErr, All};
ghost use Rattle.mars_tree.specs.Graph.{IsGraph, arity_at};
ghost use Rattle.mars_tree.specs.Renumbered.{renumbered, HaveKids, KidsFit};
ghost use Rattle.mars_tree.specs.Stored.{kid_count, nodes_of};

use crate::graph::Graph;
use crate::graph::flat::{push_all_kids, push_labels, push_starts};
use crate::label::Label;
use crate::numbers::{NewNumbers, NodeNumber, push_kids};
use mars_base::NoMemory;

impl Graph {
    /// Adds a node with its label, or a free leaf, and with its kids, which may be older nodes or the node itself.
    /// Gives its number. Linear in its kids.
    pub fn add_node<K: NodeNumber>(
        &mut self,
        label: Option<Label>,
        kids: &[K],
    ) -> Result<usize, NoMemory>
        requires arity { length kids.now ≡ arity_at label }
        requires in_range { All (λ kid. K.number_of kid ≤ length self.old) kids.now }
        ensures node { IfOk result (λ n. n ≡ length self.old) }
        ensures ok { OnOk result (self.new ≡ self.old ++ record { label = label; kids = map K.number_of kids.now } ∷ []) }
        ensures err { OnErr result (self.new ≡ self.old) }
    {
        self.labels.reserve(1)?;
        self.starts.reserve(1)?;
        self.kids.reserve(kids.len())?;
        let node = self.labels.len();
        self.labels.push_reserved(label);
        self.starts.push_reserved(self.kids.len());
        push_kids(kids, &mut self.kids);
        Ok(node)
    }

    /// Adds a node for each label, with the kids of each after those of the node before. Linear in the labels and the
    /// kids. Out of memory leaves the graph as it was.
    pub fn append(&mut self, labels: &[Option<Label>], kids: &[usize]) -> Result<(), NoMemory>
        requires size { length kids.now ≡ kid_count labels.now }
        requires in_range { All (λ kid. kid < length self.old + length labels.now) kids.now }
        ensures ok { OnOk result (self.new ≡ self.old ++ nodes_of labels.now kids.now) }
        ensures err { OnErr result (self.new ≡ self.old) }
    {
        self.labels.reserve(labels.len())?;
        self.kids.reserve(kids.len())?;
        push_starts(labels, self.kids.len(), &mut self.starts)?;
        // there is room, so that neither fails
        self.labels.extend_from_slice(labels)?;
        self.kids.extend_from_slice(kids)?;
        Ok(())
    }

    /// Adds the nodes of a list as they are in another graph, with their kids under other numbers. Linear in the nodes
    /// and their kids. Out of memory leaves the graph as it was.
    pub fn append_renumbered<N: NewNumbers>(
        &mut self,
        from: &Graph,
        nodes: &[usize],
        numbers: &N,
    ) -> Result<(), NoMemory>
        requires nodes_in { All (λ n. n < length from.now) nodes.now }
        requires numbered { HaveKids (N.has_number numbers.now) from.now nodes.now }
        requires fits { KidsFit from.now (N.number_in numbers.now) (length self.old + length nodes.now) nodes.now }
        ensures ok { OnOk result (self.new ≡ self.old ++ renumbered from.now (N.number_in numbers.now) nodes.now) }
        ensures err { OnErr result (self.new ≡ self.old) }
    {
        let _nodes = from.len();
        let count = self.labels.len();
        let start = self.kids.len();
        self.starts.reserve(nodes.len())?;
        self.labels.reserve(nodes.len())?;
        push_all_kids(from, nodes, numbers, &mut self.kids)?;
        // there is room, so that neither fails
        push_labels(from, nodes, &mut self.labels)?;
        push_starts(&self.labels[count..], start, &mut self.starts)?;
        Ok(())
    }

    /// Drops all nodes but the first ones, linear in what goes. The kids of those that stay are among them.
    pub fn truncate(&mut self, len: usize)
        requires { IsGraph (take len self.old) }
        ensures { self.new ≡ take len self.old }
    {
        if len < self.labels.len() {
            let start = self.starts[len];
            self.labels.truncate(len);
            self.starts.truncate(len);
            self.kids.truncate(start);
        }
    }
}
