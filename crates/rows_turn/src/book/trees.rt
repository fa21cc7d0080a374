//! The tree that is kept.
use mars_base::NoMemory;
use mars_canon::{Tree, canon};
use mars_tree::{Graph, Label, NameId};
use std::alloc::Global;

/// The tree `x where x = ff(x)`: one node, whose kid is itself.
pub(crate) fn cycle(alloc: Global) -> Result<Option<Tree>, NoMemory> {
    let mut graph = Graph::new(alloc);
    graph.add(Label::Name {
        name: NameId(0),
        arity: 1,
    })?;
    let form = canon(alloc, &graph, &[0])?;
    Tree::of(alloc, &form)
}
