//! The trees that are kept.
use mars_base::NoMemory;
use mars_canon::{Tree, canon};
use mars_tree::{Graph, Label, NameId};
use std::alloc::Global;

/// The tree of one node with a name of so many arguments, each of which is the node itself.
pub(crate) fn one_node(alloc: Global, name: u32, arity: u32) -> Result<Option<Tree>, NoMemory> {
    let mut graph = Graph::new(alloc);
    graph.add(Label::Name {
        name: NameId(name),
        arity,
    })?;
    let form = canon(alloc, &graph, &[0])?;
    Tree::of(alloc, &form)
}
