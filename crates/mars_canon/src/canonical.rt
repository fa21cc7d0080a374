//! The one form of a graph: the smallest graph of its roots' trees, numbered breadth first.
ghost use Rattle.std.specs.Prelude.{◌≡◌, ◌<◌, ◌≤◌, length, IfOk, All};
ghost use Rattle.mars_tree.specs.Canonical.{IsCanonical, KeepsWalks};
ghost use Rattle.mars_reach.specs.Part.{IsReduced};

use crate::rooted::Canon;
use mars_base::NoMemory;
use mars_minim::minimise;
use mars_reach::rooted_part;
use mars_tree::Graph;
use std::alloc::Global;

/// What roots reach in a graph with one node for each tree, numbered breadth first: the roots, then the kids of node 0,
/// of node 1 and so on. Linear in the roots and in the kids of what is reached. The error is out of memory alone.
fn numbered(alloc: Global, graph: &Graph, roots: &[usize]) -> Result<Canon, NoMemory>
    requires roots_in { All (λ root. root < length graph.now) roots.now }
    requires apart { IsReduced graph.now }
    ensures keeps { IfOk result (λ c. KeepsWalks graph.now roots.now c.nodes c.roots) }
    ensures small { IfOk result (λ c. length c.nodes ≤ length graph.now) }
{
    let part = rooted_part(alloc, graph, roots)?;
    Ok(Canon::new(part.graph, part.roots))
}

/// The canonical graph of some nodes' trees: one node for each tree that the nodes reach, in the one numbering that their
/// order gives. Mauborgne's unique representation; equal for two graphs exactly where the trees are the same. It takes
/// as long as `minimise`: for bounded arities n log n in the nodes that are reached. The error is out of memory alone.
pub fn canon(alloc: Global, graph: &Graph, roots: &[usize]) -> Result<Canon, NoMemory>
    requires { All (λ root. root < length graph.now) roots.now }
    ensures keeps { IfOk result (λ c. KeepsWalks graph.now roots.now c.nodes c.roots) }
    ensures canonical { IfOk result (λ c. IsCanonical c.nodes c.roots) }
    ensures small { IfOk result (λ c. length c.nodes ≤ length graph.now) }
{
    let minimal = minimise(alloc, graph, roots)?;
    numbered(alloc, &minimal.graph, minimal.roots.as_slice())
}
