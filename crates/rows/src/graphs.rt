//! Calls on graphs whose conditions are tested first, since a row may write any number.
ghost use Rattle.std.specs.Prelude.{◌<◌, length, IsTrue, All};
ghost use Rattle.mars_tree.specs.Graph.{IsGround};

use crate::stopping::Stop;
use mars_canon::{Canon, canon};
use mars_tree::{Graph, Label};
use std::alloc::Global;

/// Whether all numbers are below a count.
pub fn are_below(numbers: &[usize], count: usize) -> bool
    ensures { IsTrue result → All (λ number. number < count) numbers.now }
{
    for number in numbers {
        if *number >= count {
            return false;
        }
    }
    true
}

/// Whether no node is a free leaf.
pub fn are_ground(graph: &Graph) -> bool
    ensures { IsTrue result → IsGround graph.now }
{
    for node in 0..graph.len() {
        if graph.label(node).is_none() {
            return false;
        }
    }
    true
}

/// The canonical graph of some nodes' trees.
pub fn canon_of(alloc: Global, graph: &Graph, roots: &[usize]) -> Result<Canon, Stop> {
    if !are_below(roots, graph.len()) {
        return Err(Stop::NoNode);
    }
    Ok(canon(alloc, graph, roots)?)
}

/// The label of a node, none where the number is no node.
pub fn label_at(graph: &Graph, node: usize) -> Option<Label> {
    if node < graph.len() {
        graph.label(node)
    } else {
        None
    }
}

/// The kids of a node, none where the number is no node.
pub fn kids_at(graph: &Graph, node: usize) -> &[usize] {
    if node < graph.len() {
        graph.kids(node)
    } else {
        &[]
    }
}

/// Makes a node the kid of another at a place, where there are both nodes and the place.
pub fn set_kid_at(graph: &mut Graph, node: usize, place: usize, to: usize) {
    if node < graph.len() && to < graph.len() && place < graph.arity(node) {
        graph.set_kid(node, place, to);
    }
}
