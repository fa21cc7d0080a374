//! The graph that has one node for each tree that roots reach.
ghost use Rattle.std.specs.Prelude.{◌≡◌, ◌<◌, ◌≤◌, ◌++◌, length, map, IfOk, OnOk, All};
ghost use Rattle.mars_tree.specs.Graph.{IsGraph};
ghost use Rattle.mars_tree.specs.Canonical.{KeepsWalks};
ghost use Rattle.mars_refine.specs.Refine.{class_of, AreTrees};
ghost use Rattle.mars_reach.specs.Image.{IsImage};
ghost use Rattle.mars_minim.specs.Minimal.{IsMinimal};

use mars_base::NoMemory;
use mars_reach::{Roots, rooted_part};
use mars_refine::{Classes, classes_by_tree};
use mars_tree::Graph;
use std::alloc::Global;

/// A graph in which no two nodes are the same tree, with the roots that reach all its nodes.
#[derive(Drop)]
pub struct Minimal {
    pub graph: Graph,
    pub roots: Roots,
}

/// Puts the classes of nodes last in a list.
fn push_classes(classes: &Classes, nodes: &[usize], into: &mut Vec<usize>) -> Result<(), NoMemory>
    requires { All (λ n. n < length classes.now.of) nodes.now }
    ensures { OnOk result (into.new.items ≡ into.old.items ++ map (class_of classes.now.of) nodes.now) }
{
    for node in nodes {
        into.push(classes.of(*node))?;
    }
    Ok(())
}

/// The graph with one node for each class, which has the label of its members and the classes of their kids. Linear in
/// the classes and their kids.
fn quotient(alloc: Global, graph: &Graph, classes: &Classes) -> Result<Graph, NoMemory>
    requires size { length classes.now.of ≡ length graph.now }
    requires trees { AreTrees graph.now classes.now.of }
    ensures { IfOk result (λ h. IsImage graph.now (λ n. n < length graph.now) (class_of classes.now.of) h) }
{
    let _nodes = graph.len();
    let mut labels = Vec::with_capacity(alloc, classes.count())?;
    let mut kids = Vec::new(alloc);
    for class in 0..classes.count() {
        let node = classes.members(class).get(0);
        labels.push(graph.label(node))?;
        push_classes(classes, graph.kids(node), &mut kids)?;
    }
    let quotient = Graph::from_lists(alloc, labels, kids)?;
    Ok(quotient)
}

/// The smallest graph in which all walks from the roots show what they show in this one, and the roots' numbers in
/// it: what the roots reach, one node for each tree. Partition refinement by the smaller half after Hopcroft, so for
/// bounded arities n log n in the nodes that are reached. The error is out of memory alone.
pub fn minimise(alloc: Global, graph: &Graph, roots: &[usize]) -> Result<Minimal, NoMemory>
    requires { All (λ root. root < length graph.now) roots.now }
    ensures keeps { IfOk result (λ m. KeepsWalks graph.now roots.now m.graph m.roots) }
    ensures minimal { IfOk result (λ m. IsMinimal m.graph m.roots) }
    ensures graph { IfOk result (λ m. IsGraph m.graph) }
    ensures roots_in { IfOk result (λ m. All (λ root. root < length m.graph) m.roots) }
    ensures small { IfOk result (λ m. length m.graph ≤ length graph.now) }
{
    let part = rooted_part(alloc, graph, roots)?;
    let _nodes = part.graph.len();
    let classes = classes_by_tree(alloc, &part.graph)?;
    let mut places = Vec::new(alloc);
    push_classes(&classes, part.roots.as_slice(), &mut places)?;
    let graph = quotient(alloc, &part.graph, &classes)?;
    Ok(Minimal {
        graph,
        roots: Roots::from_list(places),
    })
}
