//! Trees: ground canonical graphs with one root, in flat vectors.
ghost use Rattle.std.specs.Prelude.{◌≡◌, ◌<◌, ◌≤◌, ◌-◌, ◌^◌, min, ◌↔◌, ◌++◌, ◌∷◌, [], IsTrue, length, slice_get, Some, IfOk, OnOk, All, map};
ghost use Rattle.std.specs.Option.{SomeIff};
ghost use Rattle.mars_tree.specs.Graph.{label_of, kids_of};
ghost use Rattle.mars_tree.specs.Equality.{all_kids};
ghost use Rattle.mars_canon.specs.Tree.{IsTree, FitsTree};

use crate::rooted::Canon;
use mars_base::{NoMemory, Numbers};
use mars_reach::Roots;
use mars_tree::{Graph, Label};
use std::alloc::Global;
use std::hash::{Hash, Hasher};
use std::marker::Model;
use std::mem::size_of;

/// How many nodes a tree may have.
pub const MOST_NODES: usize = 16_384;

/// A rational tree: a canonical graph without free leaves, with the one root 0 and at most `MOST_NODES` nodes. It takes
/// 16 bytes for each label, 4 for where the label's kids start (8 where all kids are 2^32 or more), and 2 for each kid, so
/// at most 52 a node where no label has over 16 kids.
#[derive(Drop)]
pub struct Tree {
    labels: Vec<Label>,
    starts: Numbers,
    kids: Vec<u16>,
}

const _: () = prove!(size_of::<Label>() == 16);

impl Model for Tree {
    ghost use Rattle.std.specs.Prelude.{List};
    ghost use Rattle.mars_tree.specs.Graph.{Node};

    ghost Value = { List Node };

    ghost use Rattle.mars_canon.specs.TreeInside.{tree_nodes, HoldsTree};

    ghost view = { tree_nodes };

    ghost invariant = { HoldsTree };
}

impl Tree {
    /// The tree of a canonical graph's root, `None` exactly where the graph has a free leaf, more or fewer than one root,
    /// or more than `MOST_NODES` nodes. Linear in the nodes and their kids. The error is out of memory alone.
    pub fn of(alloc: Global, canon: &Canon) -> Result<Option<Tree>, NoMemory>
        ensures { IfOk result (λ answer. SomeIff answer (FitsTree canon.now) canon.now.nodes) }
    {
        if canon.roots().len() != 1 || canon.len() > MOST_NODES || !canon.ground() {
            return Ok(None);
        }
        Ok(Some(laid_out(alloc, canon)?))
    }

    /// The same tree once more. The error is out of memory alone.
    pub fn copy(&self) -> Result<Tree, NoMemory>
        ensures { IfOk result (λ tree. tree ≡ self.now) }
    {
        Ok(Tree {
            labels: self.labels.clone()?,
            starts: self.starts.copy()?,
            kids: self.kids.clone()?,
        })
    }

    /// The canonical graph of the tree, with the one root 0. The error is out of memory alone.
    pub fn canon(&self) -> Result<Canon, NoMemory>
        ensures { IfOk result (λ canon. canon ≡ record { nodes = self.now; roots = 0 ∷ [] }) }
    {
        let alloc = *self.labels.allocator();
        let labels = labels_there(alloc, &self.labels)?;
        let kids = widened(alloc, &self.kids)?;
        let graph = Graph::from_lists(alloc, labels, kids)?;
        Ok(Canon::new(graph, Roots::from_list(vec![in alloc; 0]?)))
    }

    /// How many nodes there are.
    pub fn len(&self) -> usize
        ensures len { result ≡ length self.now }
        ensures tree { IsTree self.now }
    {
        self.labels.len()
    }

    /// The label of a node.
    pub fn label(&self, node: usize) -> Label
        requires { node < length self.now }
        ensures { label_of self.now node ≡ Some result }
    {
        self.labels[node]
    }

    /// How many kids a node has.
    pub fn arity(&self, node: usize) -> usize
        requires { node < length self.now }
        ensures { result ≡ length (kids_of self.now node) }
    {
        self.labels[node].arity()
    }

    /// The kid of a node at a place, counted from 0.
    pub fn kid(&self, node: usize, place: usize) -> usize
        requires node_in { node < length self.now }
        requires place_in { place < length (kids_of self.now node) }
        ensures kid { slice_get (kids_of self.now node) place ≡ Some result }
        ensures kid_in { result < length self.now }
    {
        self.kids[self.starts.get(node) + place] as usize
    }
}

/// How many kids all nodes have together, for which room is reserved. It stops at 2^64 - 1.
fn count_kids(canon: &Canon) -> usize
    ensures { result ≡ min (length (all_kids canon.now.nodes)) (2 ^ 64 - 1) }
{
    let mut count: usize = 0;
    for node in 0..canon.len() {
        count = count.saturating_add(canon.arity(node));
    }
    count
}

/// Labels as those of nodes that are no free leaves.
fn labels_there(alloc: Global, labels: &[Label]) -> Result<Vec<Option<Label>>, NoMemory>
    ensures { IfOk result (λ all. all.items ≡ map Some labels.now) }
{
    Ok(labels.iter().map(|label| Some(*label)).collect(alloc)?)
}

/// The same numbers, each in 8 bytes.
fn widened(alloc: Global, numbers: &[u16]) -> Result<Vec<usize>, NoMemory>
    ensures { IfOk result (λ all. all.items ≡ numbers.now) }
{
    Ok(
        numbers
            .iter()
            .map(|number| *number as usize)
            .collect(alloc)?,
    )
}

/// Puts kids after others.
fn push_kids(kids: &[usize], into: &mut Vec<u16>) -> Result<(), NoMemory>
    requires { All (λ kid. kid < 2 ^ 16) kids.now }
    ensures { OnOk result (into.new.items ≡ into.old.items ++ kids.now) }
{
    for kid in kids {
        into.push(*kid as u16)?;
    }
    Ok(())
}

/// Lays out the nodes of a graph that fits a tree.
fn laid_out(alloc: Global, canon: &Canon) -> Result<Tree, NoMemory>
    requires { FitsTree canon.now }
    ensures { IfOk result (λ tree. tree ≡ canon.now.nodes) }
{
    let count = count_kids(canon);
    let mut labels = Vec::with_capacity(alloc, canon.len())?;
    let mut starts = Numbers::with_capacity(alloc, canon.len(), count)?;
    let mut kids = Vec::with_capacity(alloc, count)?;
    for node in 0..canon.len() {
        labels.push(canon.label(node).unwrap())?;
        starts.push(kids.len())?;
        push_kids(canon.kids(node), &mut kids)?;
    }
    Ok(Tree {
        labels,
        starts,
        kids,
    })
}

impl PartialEq for Tree {
    ghost use Rattle.mars_tree.specs.Equality.{same_nodes};
    ghost use Rattle.mars_tree.specs.EqualityLaws.{nodes_partial_equivalence};
    ghost use Rattle.mars_canon.specs.Tree.{IsSameTree};

    ghost eq = { same_nodes };

    ghost laws = { nodes_partial_equivalence };

    /// Whether two have the same nodes, so whether they are the same tree. Linear in the nodes and their kids.
    fn eq(&self, other: &Tree) -> bool
        ensures value { result ≡ same_nodes self.now other.now }
        ensures same { IsTrue result ↔ (self.now ≡ other.now) }
        ensures trees { IsTrue result ↔ IsSameTree self.now other.now }
    {
        self.labels == other.labels && self.kids == other.kids
    }
}

impl Eq for Tree {
    ghost use Rattle.mars_tree.specs.EqualityLaws.{nodes_equivalence};

    ghost laws = { nodes_equivalence };
}

impl Hash for Tree {
    ghost use Rattle.mars_canon.specs.Tree.{tree_writes};
    ghost use Rattle.mars_canon.specs.CanonLaws.{tree_alike};

    ghost hash_input = { tree_writes };

    ghost respects_eq = { tree_alike };

    /// Hashes all labels, and then all kids.
    fn hash<H: Hasher>(&self, state: &mut H) {
        self.labels.hash(state);
        self.kids.hash(state);
    }
}
