//! A graph that grows at its end and is cut there, with a link for each node: a cell has a node's label, where its kids
//! begin, and its link; all kids are in one list. A node's kids are put there from where they are found, without a list
//! between.
ghost use Rattle.std.specs.Prelude.{◌≡◌, ◌<◌, ◌≤◌, ◌+◌, ◌++◌, ◌∷◌, [], ℕ, length, map, take, drop, slice_get, slice_set, slice_index_or, Some, OnOk, OnErr, All};
ghost use Rattle.mars_tree.specs.Label.{arity_of};
ghost use Rattle.mars_tree.specs.Graph.{IsGraph, Node, arity_at, label_of, kids_of, labelled};
ghost use Rattle.mars_store.specs.System.{IsNodeAt, node_at};
ghost use Rattle.mars_store.specs.CellsInside.{LinkedNodes, with_cell};

use crate::node_id::NodeId;
use crate::registers::Registers;
use mars_base::NoMemory;
use mars_tree::Label;
use std::alloc::Global;
use std::marker::Model;

/// What is kept of a node beside its kids.
#[derive(Clone, Copy)]
struct Cell {
    label: Option<Label>,
    start: usize,
    link: usize,
}

/// A list of nodes, each a label with its kids, or a variable, and each with a link.
#[derive(Drop)]
pub(crate) struct Nodes {
    cells: Vec<Cell>,
    kids: Vec<NodeId>,
}

impl Model for Nodes {
    ghost use Rattle.mars_store.specs.CellsInside.{LinkedNodes, labels_in, starts_in, links_in};

    ghost Value = { LinkedNodes };

    ghost use Rattle.mars_tree.specs.Stored.{nodes_of, IsLaid};

    ghost view = { λ g. record { nodes = nodes_of (labels_in g.cells.items) g.kids.items; links = links_in g.cells.items } };

    ghost invariant = { λ g. IsLaid (labels_in g.cells.items) (starts_in g.cells.items) g.kids.items };
}

impl Nodes {
    pub(crate) fn new(alloc: Global) -> Nodes
        ensures { result ≡ record { nodes = []; links = [] } }
    {
        Nodes {
            cells: Vec::new(alloc),
            kids: Vec::new(alloc),
        }
    }

    #[inline(always)]
    pub(crate) fn len(&self) -> usize
        ensures nodes { result ≡ length self.now.nodes }
        ensures links { result ≡ length self.now.links }
    {
        self.cells.len()
    }

    /// Adds a node that is linked to itself, linear in its kids.
    #[inline]
    pub(crate) fn push(&mut self, label: Option<Label>, kids: &[NodeId]) -> Result<(), NoMemory>
        requires arity { length kids.now ≡ arity_at label }
        requires inside { All (λ kid. kid < length self.old.nodes) kids.now }
        ensures ok { OnOk result (self.new ≡ with_cell self.old (record { label = label; kids = kids.now })) }
        ensures err { OnErr result (self.new ≡ self.old) }
    {
        self.cells.reserve(1)?;
        self.kids.reserve(kids.len())?;
        self.cells.push_reserved(Cell {
            label,
            start: self.kids.len(),
            link: self.cells.len(),
        });
        push_all(kids, &mut self.kids);
        Ok(())
    }

    /// Adds a node whose kids are the nodes of places, linear in these. It is linked to itself.
    #[inline]
    pub(crate) fn push_over(
        &mut self,
        label: Label,
        places: &[usize],
        nodes: &Registers,
    ) -> Result<(), NoMemory>
        requires arity { length places.now ≡ arity_of label }
        requires filled { All (IsNodeAt nodes.now (length self.old.nodes)) places.now }
        ensures ok { OnOk result (self.new ≡ with_cell self.old (labelled label (map (node_at nodes.now) places.now))) }
        ensures err { OnErr result (self.new ≡ self.old) }
    {
        self.cells.reserve(1)?;
        self.kids.reserve(places.len())?;
        self.cells.push_reserved(Cell {
            label: Some(label),
            start: self.kids.len(),
            link: self.cells.len(),
        });
        push_found(places, nodes, &mut self.kids);
        Ok(())
    }

    /// Drops all nodes but the first ones, linear in what goes.
    pub(crate) fn truncate(&mut self, len: usize)
        requires some { len ≤ length self.old.nodes }
        requires graph { IsGraph (take len self.old.nodes) }
        ensures { self.new ≡ record { nodes = take len self.old.nodes; links = take len self.old.links } }
    {
        if len < self.cells.len() {
            let start = self.cells[len].start;
            self.cells.truncate(len);
            self.kids.truncate(start);
        }
    }

    /// The label of a node, `None` exactly for a variable.
    #[inline(always)]
    pub(crate) fn label(&self, node: usize) -> Option<Label>
        requires { node < length self.now.nodes }
        ensures { result ≡ label_of self.now.nodes node }
    {
        self.cells[node].label
    }

    /// The node that a node is linked to.
    #[inline(always)]
    pub(crate) fn link(&self, node: usize) -> usize
        requires { node < length self.now.nodes }
        ensures { result ≡ slice_index_or self.now.links node result }
    {
        self.cells[node].link
    }

    /// Links a node to another.
    #[inline(always)]
    pub(crate) fn set_link(&mut self, node: usize, to: usize)
        requires { node < length self.old.nodes }
        ensures nodes { self.new.nodes ≡ self.old.nodes }
        ensures links { self.new.links ≡ slice_set self.old.links node to }
    {
        self.cells[node].link = to;
    }

    #[inline(always)]
    pub(crate) fn kid(&self, node: usize, place: usize) -> NodeId
        requires inside { node < length self.now.nodes }
        requires place { place < length (kids_of self.now.nodes node) }
        ensures kid { slice_get (kids_of self.now.nodes node) place ≡ Some result }
        ensures kid_in { result < length self.now.nodes }
    {
        self.kids[self.cells[node].start + place]
    }

    /// The kids of a node that has so many.
    #[inline(always)]
    pub(crate) fn kids(&self, node: usize, arity: usize) -> &[NodeId]
        requires inside { node < length self.now.nodes }
        requires arity { arity ≡ length (kids_of self.now.nodes node) }
        ensures { result.now ≡ kids_of self.now.nodes node }
    {
        part(&self.kids, self.cells[node].start, arity)
    }
}

/// As many kids as are asked for, from a place on.
#[inline(always)]
fn part(kids: &[NodeId], start: usize, count: usize) -> &[NodeId]
    requires { start + count ≤ length kids.now }
    ensures { result.now ≡ take count (drop start kids.now) }
{
    &kids[start..start + count]
}

/// Puts kids last in a list, which has room for them.
#[inline]
fn push_all(kids: &[NodeId], into: &mut Vec<NodeId>)
    requires room { into.old.len + length kids.now ≤ into.old.cap }
    ensures { into.new.items ≡ into.old.items ++ kids.now }
{
    for kid in kids {
        into.push_reserved(*kid);
    }
}

/// Puts the nodes of places last in a list, which has room for them. Those of two and three places, as most nodes have,
/// are put there without a loop.
#[inline]
fn push_found(places: &[usize], nodes: &Registers, into: &mut Vec<NodeId>)
    requires room { into.old.len + length places.now ≤ into.old.cap }
    requires filled { All (λ place. (node : ℕ) × (slice_get nodes.now place ≡ Some (Some node))) places.now }
    ensures { into.new.items ≡ into.old.items ++ map (node_at nodes.now) places.now }
{
    match places.len() {
        2 => {
            into.push_reserved(nodes.node(places[0]));
            into.push_reserved(nodes.node(places[1]));
        }
        3 => {
            into.push_reserved(nodes.node(places[0]));
            into.push_reserved(nodes.node(places[1]));
            into.push_reserved(nodes.node(places[2]));
        }
        _ => push_each(places, nodes, into),
    }
}

/// Puts the nodes of places last in a list, which has room for them, one after the other.
#[inline]
fn push_each(places: &[usize], nodes: &Registers, into: &mut Vec<NodeId>)
    requires room { into.old.len + length places.now ≤ into.old.cap }
    requires filled { All (λ place. (node : ℕ) × (slice_get nodes.now place ≡ Some (Some node))) places.now }
    ensures { into.new.items ≡ into.old.items ++ map (node_at nodes.now) places.now }
{
    for place in places {
        into.push_reserved(nodes.node(*place));
    }
}
