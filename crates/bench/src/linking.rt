//! Labels and kids of the graphs that are measured.
use mars_tree::{Graph, Label, NameId};

/// The label of a name of so many kids.
pub(crate) fn named(name: u32, arity: u32) -> Label {
    Label::Name {
        name: NameId(name),
        arity,
    }
}

/// Makes a node the kid of another, where there are both and the place.
pub(crate) fn link(graph: &mut Graph, node: usize, place: usize, to: usize) {
    if node < graph.len() && to < graph.len() && place < graph.arity(node) {
        graph.set_kid(node, place, to);
    }
}
