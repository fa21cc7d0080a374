//! The nodes of a tree that is being written: one for each term, with one leaf for each variable.
ghost use Rattle.std.specs.Prelude.{◌≡◌, ◌<◌, ◌||◌, List, ℕ, None, Some, length, not, map, Bool, IfOk, OnOk, OnErr, IfSome, All};
ghost use Rattle.mars_tree.specs.declared.label.NameId.{NameId};
ghost use Rattle.mars_tree.specs.Label.{arity_of};
ghost use Rattle.mars_tree.specs.Graph.{labelled, label_of};
ghost use Rattle.mars_graphs.specs.Making.{tied_nodes};
ghost use Rattle.mars_graphs.specs.Nodes.{no_nodes, AreNodes, leaf_of_variable, target_at, gives_way, nodes_with, nodes_with_variable, nodes_with_target, tied_graph};

use crate::redirect::{redirect, set_kids};
use indexmap::IndexMap;
use mars_base::NoMemory;
use mars_tree::{Graph, Label, NameId};
use std::alloc::Global;
use std::marker::Model;

/// The nodes so far. A leaf of a variable gives way to another node once the variable has an equation.
#[derive(Drop)]
pub(crate) struct NodeMaker {
    graph: Graph,
    targets: Vec<usize>,
    leaves: IndexMap<NameId, usize>,
}

impl Model for NodeMaker {
    ghost use Rattle.mars_graphs.specs.Nodes.{Nodes};

    ghost Value = { Nodes };

    ghost use Rattle.mars_graphs.specs.NodesInside.{nodes_inside, AreNodesInside};

    ghost view = { nodes_inside };

    ghost invariant = { AreNodesInside };
}

impl NodeMaker {
    /// No nodes, no variables.
    pub(crate) fn new(alloc: Global) -> NodeMaker
        ensures { result ≡ no_nodes }
    {
        NodeMaker {
            graph: Graph::new(alloc),
            targets: Vec::new(alloc),
            leaves: IndexMap::new(alloc),
        }
    }

    /// The leaf of a variable, if it has one.
    fn leaf(&self, name: NameId) -> Option<usize>
        ensures leaf { result ≡ leaf_of_variable self.now name }
        ensures in_range { IfSome result (λ n. n < length self.now.nodes) }
    {
        self.leaves.get(&name).copied()
    }

    /// The leaf of a variable, which is new where the variable is.
    pub(crate) fn variable(&mut self, name: NameId) -> Result<usize, NoMemory>
        ensures leaf { IfOk result (λ n. leaf_of_variable self.new name ≡ Some n) }
        ensures in_range { IfOk result (λ n. n < length self.new.nodes) }
        ensures ok { OnOk result (self.new ≡ nodes_with_variable self.old name) }
        ensures err { OnErr result (self.new ≡ self.old) }
        ensures nodes { AreNodes self.old }
    {
        let _known = &self.targets;
        match self.leaf(name) {
            Some(leaf) => Ok(leaf),
            None => self.add_variable(name),
        }
    }

    /// A leaf for a new variable.
    #[inline(never)]
    fn add_variable(&mut self, name: NameId) -> Result<usize, NoMemory>
        requires { leaf_of_variable self.old name ≡ None }
        ensures leaf { IfOk result (λ n. leaf_of_variable self.new name ≡ Some n) }
        ensures in_range { IfOk result (λ n. n < length self.new.nodes) }
        ensures ok { OnOk result (self.new ≡ nodes_with_variable self.old name) }
        ensures err { OnErr result (self.new ≡ self.old) }
    {
        self.targets.reserve(1)?;
        self.leaves.reserve(1)?;
        let leaf = self.graph.add_free()?;
        self.leaves.insert(name, leaf)?;
        self.targets.push_reserved(leaf);
        Ok(leaf)
    }

    /// A node with a label and kids, which are older nodes.
    #[inline(always)]
    pub(crate) fn apply(&mut self, label: Label, kids: &[usize]) -> Result<usize, NoMemory>
        requires arity { length kids.now ≡ arity_of label }
        requires kids_in { All (λ kid. kid < length self.old.nodes) kids.now }
        ensures node { IfOk result (λ n. n ≡ length self.old.nodes) }
        ensures ok { OnOk result (self.new ≡ nodes_with self.old (labelled label kids.now)) }
        ensures err { OnErr result (self.new ≡ self.old) }
        ensures nodes { AreNodes self.old }
    {
        self.targets.reserve(1)?;
        let node = self.graph.add(label)?;
        set_kids(&mut self.graph, node, kids);
        self.targets.push_reserved(node);
        Ok(node)
    }

    /// Whether a leaf gives way to another node.
    pub(crate) fn gives_way(&self, leaf: usize) -> bool
        requires { leaf < length self.now.nodes }
        ensures { result ≡ gives_way self.now leaf }
    {
        let _known = &self.graph;
        self.targets[leaf] != leaf
    }

    /// The label of a node, none at a variable's leaf.
    pub(crate) fn label(&self, node: usize) -> Option<Label>
        requires { node < length self.now.nodes }
        ensures { result ≡ label_of self.now.nodes node }
    {
        self.graph.label(node)
    }

    /// From now on a variable's leaf gives way to a labelled root, unless it gives way already.
    pub(crate) fn tie(&mut self, leaf: usize, root: usize)
        requires leaf { (x : NameId) × (leaf_of_variable self.old x ≡ Some leaf) }
        requires root { root < length self.old.nodes }
        ensures { self.new ≡ tied_nodes self.old (Some leaf) root (label_of self.old.nodes root) }
    {
        let Some(_) = self.label(root) else {
            return;
        };
        if self.gives_way(leaf) {
            return;
        }
        self.targets[leaf] = root;
    }

    /// The graph of all nodes, and what the root gives way to.
    pub(crate) fn finish(self, root: usize) -> (Graph, usize)
        requires { root < length self.nodes }
        ensures graph { result.0 ≡ tied_graph self }
        ensures root { result.1 ≡ target_at self root }
        ensures root_in { result.1 < length result.0 }
    {
        let NodeMaker {
            mut graph,
            targets,
            leaves: _,
        } = self;
        redirect(&mut graph, &targets);
        (graph, targets[root])
    }
}
