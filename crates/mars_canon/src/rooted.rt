//! Canonical graphs with their roots.
ghost use Rattle.std.specs.Prelude.{◌≡◌, ◌<◌, ◌↔◌, IsTrue, length, slice_get, Some, All};
ghost use Rattle.mars_tree.specs.Graph.{IsGraph, IsGround, label_of, kids_of};
ghost use Rattle.mars_tree.specs.Canonical.{IsCanonical};

use mars_reach::Roots;
use mars_tree::{Graph, Label};
use std::hash::{Hash, Hasher};
use std::marker::Model;

/// The smallest graph of some trees, in its one numbering, with the nodes of these trees, its roots.
/// No two nodes are the same tree; the roots come first, in order, and then the kids of node 0, of node 1 and so on.
#[derive(Drop)]
pub struct Canon {
    graph: Graph,
    roots: Roots,
}

impl Model for Canon {
    ghost use Rattle.mars_canon.specs.Canon.{Rooted};

    ghost Value = { Rooted };

    ghost use Rattle.mars_canon.specs.CanonInside.{rooted_of, HoldsCanon};

    ghost view = { rooted_of };

    ghost invariant = { HoldsCanon };
}

impl Canon {
    /// Puts a canonical graph and its roots together.
    pub(crate) fn new(graph: Graph, roots: Roots) -> Canon
        requires graph { IsGraph graph }
        requires canonical { IsCanonical graph roots }
        requires roots_in { All (λ root. root < length graph) roots }
        ensures { result ≡ record { nodes = graph; roots = roots } }
    {
        Canon { graph, roots }
    }

    /// How many nodes there are.
    pub fn len(&self) -> usize
        ensures len { result ≡ length self.now.nodes }
        ensures graph { IsGraph self.now.nodes }
        ensures canonical { IsCanonical self.now.nodes self.now.roots }
        ensures roots_in { All (λ root. root < length self.now.nodes) self.now.roots }
    {
        let _roots = &self.roots;
        self.graph.len()
    }

    /// The nodes as a graph.
    pub fn graph(&self) -> &Graph
        ensures nodes { result.now ≡ self.now.nodes }
        ensures graph { IsGraph result.now }
    {
        &self.graph
    }

    /// The nodes of the trees, in order.
    pub fn roots(&self) -> &[usize]
        ensures roots { result.now ≡ self.now.roots }
        ensures in_range { All (λ root. root < length self.now.nodes) result.now }
    {
        self.roots.as_slice()
    }

    /// The label of a node, `None` exactly for a free leaf.
    pub fn label(&self, node: usize) -> Option<Label>
        requires { node < length self.now.nodes }
        ensures { result ≡ label_of self.now.nodes node }
    {
        self.graph.label(node)
    }

    /// How many kids a node has.
    pub fn arity(&self, node: usize) -> usize
        requires { node < length self.now.nodes }
        ensures { result ≡ length (kids_of self.now.nodes node) }
    {
        self.graph.arity(node)
    }

    /// The kid of a node at a place, counted from 0.
    pub fn kid(&self, node: usize, place: usize) -> usize
        requires node_in { node < length self.now.nodes }
        requires place_in { place < length (kids_of self.now.nodes node) }
        ensures kid { slice_get (kids_of self.now.nodes node) place ≡ Some result }
        ensures kid_in { result < length self.now.nodes }
    {
        self.graph.kid(node, place)
    }

    /// The kids of a node, in order.
    pub fn kids(&self, node: usize) -> &[usize]
        requires { node < length self.now.nodes }
        ensures kids { result.now ≡ kids_of self.now.nodes node }
        ensures in_range { All (λ kid. kid < length self.now.nodes) result.now }
    {
        self.graph.kids(node)
    }

    /// Whether no node is a free leaf. Linear in the nodes.
    pub fn ground(&self) -> bool
        ensures { IsTrue result ↔ IsGround self.now.nodes }
    {
        for node in 0..self.graph.len() {
            if self.graph.label(node).is_none() {
                return false;
            }
        }
        true
    }
}

impl PartialEq for Canon {
    ghost use Rattle.mars_canon.specs.Canon.{same_rooted, HaveAlikeWalks, HaveSameTrees};
    ghost use Rattle.mars_canon.specs.CanonLaws.{rooted_partial_equivalence};

    ghost eq = { same_rooted };

    ghost laws = { rooted_partial_equivalence };

    /// Whether two have the same nodes and the same roots, so whether they have the same trees. Linear in the nodes
    /// and their kids.
    fn eq(&self, other: &Canon) -> bool
        ensures value { result ≡ same_rooted self.now other.now }
        ensures same { IsTrue result ↔ (self.now ≡ other.now) }
        ensures walks { IsTrue result ↔ HaveAlikeWalks self.now other.now }
        ensures trees { IsTrue result ↔ HaveSameTrees self.now other.now }
    {
        self.graph == other.graph && self.roots.as_slice() == other.roots.as_slice()
    }
}

impl Eq for Canon {
    ghost use Rattle.mars_canon.specs.CanonLaws.{rooted_equivalence};

    ghost laws = { rooted_equivalence };
}

impl Hash for Canon {
    ghost use Rattle.mars_canon.specs.Canon.{rooted_writes};
    ghost use Rattle.mars_canon.specs.CanonLaws.{rooted_alike};

    ghost hash_input = { rooted_writes };

    ghost respects_eq = { rooted_alike };

    /// Hashes the nodes, and then the roots.
    fn hash<H: Hasher>(&self, state: &mut H) {
        self.graph.hash(state);
        self.roots.as_slice().hash(state);
    }
}
