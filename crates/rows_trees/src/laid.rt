//! The row `lists`, a graph of two lists.
use mars_base::NoMemory;
use mars_tree::{Graph, Label, NameId, Names};
use rows::{Stop, push_nodes};
use std::alloc::Global;

/// A dot over a node and a free leaf, the free leaf, and the built-in name `eq` over the dot.
fn dot_and_leaf(alloc: Global) -> Result<Graph, NoMemory> {
    let eq = Label::Name {
        name: NameId(0),
        arity: 1,
    };
    let labels = vec![in alloc; Some(Label::Dot), None, Some(eq)]?;
    let kids = vec![in alloc; 2, 1, 0]?;
    Graph::from_lists(alloc, labels, kids)
}

/// Answers with the nodes that two lists give.
pub fn answer_lists(alloc: Global, into: &mut Vec<u8>) -> Result<(), Stop> {
    let graph = dot_and_leaf(alloc)?;
    push_nodes(&Names::new(alloc), &graph, into)?;
    Ok(())
}
