//! Term graphs: nodes with labels over kids, and free leaves, in flat vectors.
ghost use Rattle.std.specs.Prelude.{◌≡◌, ◌<◌, ◌≤◌, ◌+◌, ◌++◌, ◌∷◌, [], length, replicate, slice_get, Some, IfOk, OnOk, OnErr, All, take, drop, get_or};
ghost use Rattle.mars_tree.specs.Label.{arity_of};
ghost use Rattle.mars_tree.specs.Graph.{IsGraph, label_of, kids_of, with_kid, labelled, free_leaf};
ghost use Rattle.mars_tree.specs.Stored.{kid_count, nodes_of};

mod equality;
mod flat;
mod growing;

use crate::graph::flat::push_starts;
use crate::label::{Label, kid_places};
use mars_base::NoMemory;
use std::alloc::Global;
use std::marker::Model;

/// A list of nodes, each a label with as many kids as its arity, or a free leaf.
#[derive(Drop)]
pub struct Graph {
    labels: Vec<Option<Label>>,
    starts: Vec<usize>,
    kids: Vec<usize>,
}

impl Model for Graph {
    ghost use Rattle.std.specs.Prelude.{List};
    ghost use Rattle.mars_tree.specs.Graph.{Node};

    ghost Value = { List Node };

    ghost use Rattle.mars_tree.specs.Stored.{nodes_of, IsLaid};

    ghost view = { λ g. nodes_of g.labels.items g.kids.items };

    ghost invariant = { λ g. IsLaid g.labels.items g.starts.items g.kids.items };
}

impl Graph {
    /// A graph without nodes.
    pub fn new(alloc: Global) -> Graph
        ensures { result ≡ [] }
    {
        Graph {
            labels: Vec::new(alloc),
            starts: Vec::new(alloc),
            kids: Vec::new(alloc),
        }
    }

    /// The graph with these labels, where the kids of each node come after those of the node before. Linear in the
    /// labels. The only error is out of memory.
    pub fn from_lists(
        alloc: Global,
        labels: Vec<Option<Label>>,
        kids: Vec<usize>,
    ) -> Result<Graph, NoMemory>
        requires size { length kids.items ≡ kid_count labels.items }
        requires in_range { All (λ kid. kid < length labels.items) kids.items }
        ensures { IfOk result (λ g. g ≡ nodes_of labels.items kids.items) }
    {
        let mut starts = Vec::new(alloc);
        push_starts(&labels, 0, &mut starts)?;
        Ok(Graph {
            labels,
            starts,
            kids,
        })
    }

    /// Adds a node whose kids are all itself, and gives its number, which is how many nodes there were. Out of
    /// memory leaves the graph as it was, as with each call that adds nodes.
    pub fn add(&mut self, label: Label) -> Result<usize, NoMemory>
        ensures node { IfOk result (λ n. n ≡ length self.old) }
        ensures ok { OnOk result (self.new ≡ self.old ++ labelled label (replicate (arity_of label) (length self.old)) ∷ []) }
        ensures err { OnErr result (self.new ≡ self.old) }
    {
        self.labels.reserve(1)?;
        self.starts.reserve(1)?;
        let node = self.labels.len();
        let start = self.kids.len();
        self.kids.resize(start + label.arity(), node)?;
        self.labels.push_reserved(Some(label));
        self.starts.push_reserved(start);
        Ok(node)
    }

    /// Adds a free leaf, and gives its number.
    pub fn add_free(&mut self) -> Result<usize, NoMemory>
        ensures node { IfOk result (λ n. n ≡ length self.old) }
        ensures ok { OnOk result (self.new ≡ self.old ++ free_leaf ∷ []) }
        ensures err { OnErr result (self.new ≡ self.old) }
    {
        self.labels.reserve(1)?;
        self.starts.reserve(1)?;
        let node = self.labels.len();
        self.labels.push_reserved(None);
        self.starts.push_reserved(self.kids.len());
        Ok(node)
    }

    /// Makes node `to` the kid of `node` at a place, counted from 0.
    pub fn set_kid(&mut self, node: usize, place: usize, to: usize)
        requires node_in { node < length self.old }
        requires place_in { place < length (kids_of self.old node) }
        requires to_in { to < length self.old }
        ensures { self.new ≡ with_kid self.old node place to }
    {
        let start = self.starts[node];
        self.kids[start + place] = to;
    }

    /// How many nodes there are.
    pub fn len(&self) -> usize
        ensures len { result ≡ length self.now }
        ensures graph { IsGraph self.now }
    {
        self.labels.len()
    }

    /// The label of a node, `None` exactly for a free leaf.
    pub fn label(&self, node: usize) -> Option<Label>
        requires { node < length self.now }
        ensures { result ≡ label_of self.now node }
    {
        self.labels[node]
    }

    /// How many kids a node has.
    pub fn arity(&self, node: usize) -> usize
        requires { node < length self.now }
        ensures { result ≡ length (kids_of self.now node) }
    {
        kid_places(self.labels[node])
    }

    /// The kid of a node at a place, counted from 0.
    pub fn kid(&self, node: usize, place: usize) -> usize
        requires node_in { node < length self.now }
        requires place_in { place < length (kids_of self.now node) }
        ensures kid { slice_get (kids_of self.now node) place ≡ Some result }
        ensures kid_in { result < length self.now }
    {
        self.kids[self.starts[node] + place]
    }

    /// The kids of a node, in order.
    pub fn kids(&self, node: usize) -> &[usize]
        requires { node < length self.now }
        ensures kids { result.now ≡ kids_of self.now node }
        ensures in_range { All (λ kid. kid < length self.now) result.now }
    {
        let start = self.starts[node];
        part(
            &self.kids,
            start,
            end(&self.starts, node, self.kids.len()) - start,
        )
    }
}

/// Where the kids of a node end: where those of the next begin, or at the last one's end.
fn end(starts: &[usize], node: usize, last: usize) -> usize
    requires { node < length starts.now }
    ensures { result ≡ get_or starts.now (node + 1) last }
{
    if node + 1 < starts.len() {
        starts[node + 1]
    } else {
        last
    }
}

/// As many numbers as are asked for, from a place on.
fn part(numbers: &[usize], start: usize, count: usize) -> &[usize]
    requires { start + count ≤ length numbers.now }
    ensures { result.now ≡ take count (drop start numbers.now) }
{
    &numbers[start..start + count]
}
