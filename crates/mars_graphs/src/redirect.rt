//! Kids of a graph set in one pass.
ghost use Rattle.std.specs.Prelude.{◌≡◌, ◌<◌, List, ℕ, length, map, slice_set, All};
ghost use Rattle.mars_tree.specs.Graph.{label_of, kids_of};
ghost use Rattle.mars_graphs.specs.Nodes.{kids_set, tied, tied_at};

use mars_tree::Graph;

/// Gives a node these kids.
pub(crate) fn set_kids(graph: &mut Graph, node: usize, kids: &[usize])
    requires node_in { node < length graph.old }
    requires as_many { length kids.now ≡ length (kids_of graph.old node) }
    requires kids_in { All (λ kid. kid < length graph.old) kids.now }
    ensures { graph.new ≡ kids_set graph.old node kids.now }
{
    for (place, kid) in kids.iter().enumerate() {
        graph.set_kid(node, place, *kid);
    }
}

/// Puts in place of each kid of a node what it gives way to.
fn redirect_kids(graph: &mut Graph, node: usize, targets: &[usize])
    requires node_in { node < length graph.old }
    requires as_many { length targets.now ≡ length graph.old }
    requires targets_in { All (λ target. target < length graph.old) targets.now }
    ensures { graph.new ≡ tied_at targets.now graph.old node }
{
    for place in 0..graph.arity(node) {
        let kid = graph.kid(node, place);
        graph.set_kid(node, place, targets[kid]);
    }
}

/// Puts in place of each kid of each node what it gives way to.
pub(crate) fn redirect(graph: &mut Graph, targets: &[usize])
    requires as_many { length targets.now ≡ length graph.old }
    requires targets_in { All (λ target. target < length graph.old) targets.now }
    ensures { graph.new ≡ map (tied targets.now) graph.old }
{
    for node in 0..graph.len() {
        redirect_kids(graph, node, targets);
    }
}
