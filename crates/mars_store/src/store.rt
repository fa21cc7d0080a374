//! A store of nodes and bindings, seen as a system of equations.
ghost use Rattle.std.specs.Prelude.{◌≡◌, ◌≢◌, ◌<◌, ◌≤◌, ◌++◌, ◌∷◌, [], length, map, slice_get, slice_set, Some, None, OnOk, OnErr, IfOk, All, MatchOption};
ghost use Rattle.mars_tree.specs.Label.{arity_of};
ghost use Rattle.mars_tree.specs.Graph.{arity_at, label_of, kids_of, labelled, free_leaf};
ghost use Rattle.mars_store.specs.System.{IsSystem, IsUnbound, IsMark, resolve, linked, equation_of, with_node, IsNodeAt, node_at, mark_of, undone};
ghost use Rattle.mars_store.specs.Laws.{IsForced, IsUnforced};

use crate::mark::Mark;
use crate::node_id::NodeId;
use crate::nodes::Nodes;
use crate::registers::Registers;
use mars_base::NoMemory;
use mars_tree::Label;
use std::alloc::Global;
use std::marker::Model;

/// A system of equations over its nodes, each a label over older nodes, or a variable that may be bound.
/// A node that isn't bound is linked to itself. At `NoMemory` each call leaves the store as before.
#[derive(Drop)]
pub struct Store {
    nodes: Nodes,
    trail: Vec<(usize, usize)>,
}

impl Model for Store {
    ghost use Rattle.mars_store.specs.System.{System};

    ghost Value = { System };

    ghost use Rattle.mars_store.specs.LinksInside.{IsStored};

    ghost view = { λ s. record { nodes = s.nodes.nodes; bound = s.trail.items } };

    ghost invariant = { λ s. IsStored s.nodes.nodes s.nodes.links s.trail.items };
}

impl Store {
    /// A system without nodes.
    pub fn new(alloc: Global) -> Store
        ensures { result ≡ record { nodes = []; bound = [] } }
    {
        Store {
            nodes: Nodes::new(alloc),
            trail: Vec::new(alloc),
        }
    }

    /// Adds a node with a label over kids, linear in these.
    #[inline]
    pub fn add(&mut self, label: Label, kids: &[NodeId]) -> Result<NodeId, NoMemory>
        requires arity { length kids.now ≡ arity_of label }
        requires inside { All (λ kid. kid < length self.old.nodes) kids.now }
        ensures node { IfOk result (λ node. node ≡ length self.old.nodes) }
        ensures ok { OnOk result (self.new ≡ with_node self.old (labelled label kids.now)) }
        ensures err { OnErr result (self.new ≡ self.old) }
    {
        self.push(Some(label), kids)
    }

    /// Adds a variable.
    #[inline]
    pub fn add_free(&mut self) -> Result<NodeId, NoMemory>
        ensures node { IfOk result (λ node. node ≡ length self.old.nodes) }
        ensures ok { OnOk result (self.new ≡ with_node self.old free_leaf) }
        ensures err { OnErr result (self.new ≡ self.old) }
    {
        self.push(None, &[])
    }

    /// Adds a node with a label over the nodes of places, linear in these.
    #[inline]
    pub fn add_over(
        &mut self,
        label: Label,
        places: &[usize],
        nodes: &Registers,
    ) -> Result<NodeId, NoMemory>
        requires arity { length places.now ≡ arity_of label }
        requires filled { All (IsNodeAt nodes.now (length self.old.nodes)) places.now }
        ensures node { IfOk result (λ node. node ≡ length self.old.nodes) }
        ensures ok { OnOk result (self.new ≡ with_node self.old (labelled label (map (node_at nodes.now) places.now))) }
        ensures err { OnErr result (self.new ≡ self.old) }
    {
        let node = self.nodes.len();
        self.nodes.push_over(label, places, nodes)?;
        Ok(NodeId(node))
    }

    #[inline]
    fn push(&mut self, label: Option<Label>, kids: &[NodeId]) -> Result<NodeId, NoMemory>
        requires arity { length kids.now ≡ arity_at label }
        requires inside { All (λ kid. kid < length self.old.nodes) kids.now }
        ensures node { IfOk result (λ node. node ≡ length self.old.nodes) }
        ensures ok { OnOk result (self.new ≡ with_node self.old (record { label = label; kids = kids.now })) }
        ensures err { OnErr result (self.new ≡ self.old) }
    {
        let node = self.nodes.len();
        self.nodes.push(label, kids)?;
        Ok(NodeId(node))
    }

    /// Makes a free variable, itself an end of links, equal to the other end that a node's links lead to:
    /// of two variables the younger is linked to the older. Linear in the links.
    #[inline]
    pub fn bind(&mut self, var: NodeId, to: NodeId) -> Result<(), NoMemory>
        requires var_in { var < length self.old.nodes }
        requires free { label_of self.old.nodes var ≡ None }
        requires end { resolve self.old.bound var ≡ var }
        requires to_in { to < length self.old.nodes }
        requires elsewhere { resolve self.old.bound to ≢ var }
        ensures ok { OnOk result (self.new ≡ linked self.old var (resolve self.old.bound to)) }
        ensures err { OnErr result (self.new ≡ self.old) }
        ensures system { IsSystem self.new }
    {
        let last = self.deref(to);
        let (young, old) = self.in_order(var.0, last.0);
        link(&mut self.nodes, &mut self.trail, young, old)?;
        Ok(())
    }

    /// Makes a free variable, itself an end of links, equal to a node that has a label.
    #[inline]
    pub fn bind_to(&mut self, var: NodeId, to: NodeId) -> Result<(), NoMemory>
        requires var_in { var < length self.old.nodes }
        requires free { label_of self.old.nodes var ≡ None }
        requires end { resolve self.old.bound var ≡ var }
        requires labelled { label_of self.old.nodes to ≢ None }
        ensures ok { OnOk result (self.new ≡ linked self.old var to) }
        ensures err { OnErr result (self.new ≡ self.old) }
        ensures system { IsSystem self.new }
    {
        link(&mut self.nodes, &mut self.trail, var.0, to.0)?;
        Ok(())
    }

    /// The equation of two ends of links, from the younger variable to the other.
    #[inline]
    fn in_order(&self, var: usize, last: usize) -> (usize, usize)
        requires free { label_of self.now.nodes var ≡ None }
        requires last_in { last < length self.now.nodes }
        ensures { result ≡ equation_of self.now.nodes var last }
    {
        match self.nodes.label(last) {
            None if var < last => (last, var),
            _ => (var, last),
        }
    }

    /// The end of a node's links, linear in these.
    #[inline]
    pub fn deref(&self, node: NodeId) -> NodeId
        requires { node < length self.now.nodes }
        ensures end { result ≡ resolve self.now.bound node }
        ensures inside { result < length self.now.nodes }
        ensures unbound { IsUnbound self.now.bound result }
        ensures system { IsSystem self.now }
    {
        let mut last = node.0;
        while self.nodes.link(last) != last {
            last = self.nodes.link(last);
        }
        NodeId(last)
    }

    /// The label that a node was added with, `None` exactly for a variable; links aren't followed.
    #[inline]
    pub fn label(&self, node: NodeId) -> Option<Label>
        requires { node < length self.now.nodes }
        ensures { result ≡ label_of self.now.nodes node }
    {
        self.nodes.label(node.0)
    }

    /// The label at the root of a node's tree, `None` exactly where it isn't forced.
    #[inline]
    pub fn root_label(&self, node: NodeId) -> Option<Label>
        requires { node < length self.now.nodes }
        ensures label { result ≡ label_of self.now.nodes (resolve self.now.bound node) }
        ensures forced { MatchOption result (IsUnforced self.now node []) (IsForced self.now node []) }
        ensures system { IsSystem self.now }
    {
        let last = self.deref(node);
        self.nodes.label(last.0)
    }

    /// The kid at a place of the root of a node's tree.
    #[inline]
    pub fn kid(&self, node: NodeId, place: usize) -> NodeId
        requires inside { node < length self.now.nodes }
        requires place { place < length (kids_of self.now.nodes (resolve self.now.bound node)) }
        ensures kid { slice_get (kids_of self.now.nodes (resolve self.now.bound node)) place ≡ Some result }
        ensures kid_in { result < length self.now.nodes }
        ensures system { IsSystem self.now }
    {
        let last = self.deref(node);
        self.nodes.kid(last.0, place)
    }

    /// The kids of a node that has so many; links aren't followed.
    #[inline(always)]
    pub fn kids(&self, node: NodeId, arity: usize) -> &[NodeId]
        requires inside { node < length self.now.nodes }
        requires arity { arity ≡ length (kids_of self.now.nodes node) }
        ensures kids { result.now ≡ kids_of self.now.nodes node }
        ensures system { IsSystem self.now }
    {
        self.nodes.kids(node.0, arity)
    }

    /// The equation at a place of the trail, counted from 0 in the order of binding.
    pub fn equation(&self, place: usize) -> (NodeId, NodeId)
        requires { place < length self.now.bound }
        ensures { slice_get self.now.bound place ≡ Some result }
    {
        let (variable, node) = self.trail[place];
        (NodeId(variable), NodeId(node))
    }

    /// The present state.
    #[inline]
    pub fn mark(&self) -> Mark
        ensures mark { result ≡ mark_of self.now }
        ensures system { IsSystem self.now }
    {
        Mark {
            nodes: self.nodes.len(),
            bound: self.trail.len(),
        }
    }

    /// Goes back to a state that was marked, linear in what was added since.
    pub fn undo_to(&mut self, mark: Mark)
        requires { IsMark self.old mark }
        ensures { self.new ≡ undone self.old mark }
    {
        while self.trail.len() > mark.bound {
            match self.trail.pop() {
                Some((var, _)) => self.nodes.set_link(var, var),
                None => unreachable!(),
            }
        }
        self.nodes.truncate(mark.nodes);
    }
}

/// Links a variable to a node, and remembers it on the trail.
#[inline]
fn link(
    nodes: &mut Nodes,
    trail: &mut Vec<(usize, usize)>,
    young: usize,
    old: usize,
) -> Result<(), NoMemory>
    requires { young < length nodes.old.nodes }
    ensures nodes { nodes.new.nodes ≡ nodes.old.nodes }
    ensures links { OnOk result (nodes.new.links ≡ slice_set nodes.old.links young old) }
    ensures trail { OnOk result (trail.new.items ≡ trail.old.items ++ (young, old) ∷ []) }
    ensures err { OnErr result (nodes.new ≡ nodes.old) }
    ensures trail_err { OnErr result (trail.new.items ≡ trail.old.items) }
{
    trail.push((young, old))?;
    nodes.set_link(young, old);
    Ok(())
}
