//! Large graphs.
use crate::graphs::set_kid_at;
use mars_base::NoMemory;
use mars_tree::{Graph, Label};
use std::alloc::Global;

/// Adds so many nodes with a label.
fn add_nodes(graph: &mut Graph, count: usize, label: Label) -> Result<(), NoMemory> {
    for _ in 0..count {
        graph.add(label)?;
    }
    Ok(())
}

/// A ring of so many nodes, each over the next: the first has one label, the others another.
pub fn ring(alloc: Global, count: usize, first: Label, other: Label) -> Result<Graph, NoMemory> {
    let mut graph = Graph::new(alloc);
    add_ring(&mut graph, count, first, other)?;
    Ok(graph)
}

/// Adds a ring to a graph without nodes.
fn add_ring(graph: &mut Graph, count: usize, first: Label, other: Label) -> Result<(), NoMemory> {
    if count == 0 {
        return Ok(());
    }
    graph.add(first)?;
    add_nodes(graph, count - 1, other)?;
    for node in 0..count {
        set_kid_at(graph, node, 0, (node + 1) % count);
    }
    Ok(())
}

/// A list of so many dots over one element. Node 0 is the element, node 1 the end, and then come the dots, the last dot
/// of the list first.
pub fn list(alloc: Global, count: usize, element: Label, end: Label) -> Result<Graph, NoMemory> {
    let mut graph = Graph::new(alloc);
    add_list(&mut graph, count, element, end)?;
    Ok(graph)
}

/// Adds a list to a graph.
fn add_list(graph: &mut Graph, count: usize, element: Label, end: Label) -> Result<(), NoMemory> {
    let element = graph.add(element)?;
    let mut tail = graph.add(end)?;
    for _ in 0..count {
        let dot = graph.add(Label::Dot)?;
        set_kid_at(graph, dot, 0, element);
        set_kid_at(graph, dot, 1, tail);
        tail = dot;
    }
    Ok(())
}

/// Two tuples, the nodes 0 and 1, over the same leaves, of which each has the same label.
pub fn tuples(alloc: Global, width: u32, leaf: Label) -> Result<Graph, NoMemory> {
    let mut graph = Graph::new(alloc);
    add_tuples(&mut graph, width, leaf)?;
    Ok(graph)
}

/// Adds two tuples over the same leaves to a graph.
fn add_tuples(graph: &mut Graph, width: u32, leaf: Label) -> Result<(), NoMemory> {
    let left = graph.add(Label::Tup(width))?;
    let right = graph.add(Label::Tup(width))?;
    for place in 0..width as usize {
        let node = graph.add(leaf)?;
        set_kid_at(graph, left, place, node);
        set_kid_at(graph, right, place, node);
    }
    Ok(())
}
