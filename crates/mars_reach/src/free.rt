//! Whether a root reaches a free leaf.
ghost use Rattle.std.specs.Prelude.{◌≡◌, ◌≢◌, ◌<◌, ◌↔◌, ℕ, IsTrue, false, Some, None, length, slice_get, All, IfOk};
ghost use Rattle.mars_tree.specs.Graph.{label_of};
ghost use Rattle.mars_reach.specs.Reach.{ReachesFree, ReachesNoFree, HasFree, HasNoFree};

use crate::order::Order;
use crate::queue::reached;
use mars_base::NoMemory;
use mars_tree::Graph;
use std::alloc::Global;

/// Whether a node is a free leaf.
fn is_free(graph: &Graph, node: usize) -> bool
    requires { node < length graph.now }
    ensures { IsTrue result ↔ (label_of graph.now node ≡ None) }
{
    graph.label(node).is_none()
}

/// Whether one of the nodes is a free leaf.
fn has_free(graph: &Graph, nodes: &Order) -> bool
    requires { All (λ n. n < length graph.now) nodes.now }
    ensures some { IsTrue result → HasFree graph.now nodes.now }
    ensures none { result ≡ false → HasNoFree graph.now nodes.now }
{
    for place in 0..nodes.len() {
        if is_free(graph, nodes.get(place)) {
            return true;
        }
    }
    false
}

/// Whether a path from a node ends at a free leaf. Linear in what the node reaches. The error is out of memory alone.
pub fn reaches_free(alloc: Global, graph: &Graph, root: usize) -> Result<bool, NoMemory>
    requires root_in { root < length graph.now }
    ensures reaches { IfOk result (λ yes. IsTrue yes ↔ ReachesFree graph.now root) }
    ensures reaches_none { IfOk result (λ yes. yes ≡ false → ReachesNoFree graph.now root) }
{
    let order = reached(alloc, graph, &[root])?;
    let free = has_free(graph, &order);
    Ok(free)
}
