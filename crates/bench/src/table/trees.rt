//! The trees that are measured.
use crate::linking::{link, named};
use mars_base::NoMemory;
use mars_canon::{Tree, canon};
use mars_tree::{Graph, Label, NameId};
use std::alloc::Global;

/// How many elements a large tree has. It has twice as many nodes, and the end of the list.
const ELEMENTS: usize = 8_191;

/// The tree of a node, where it has one that isn't too large.
fn tree_of(alloc: Global, graph: &Graph, root: usize) -> Result<Option<Tree>, NoMemory> {
    if root >= graph.len() {
        return Ok(None);
    }
    let form = canon(alloc, graph, &[root])?;
    Tree::of(alloc, &form)
}

/// A tree of five nodes, of which four depend on a number.
pub fn small_tree(alloc: Global, number: usize) -> Result<Option<Tree>, NoMemory> {
    let mut graph = Graph::new(alloc);
    let end = graph.add(named(13, 0))?;
    let element = graph.add(Label::Int((number % 1_000_000_000) as i64))?;
    let pair = graph.add(named(14, 2))?;
    link(&mut graph, pair, 0, element);
    link(&mut graph, pair, 1, end);
    let over = graph.add(named(15, 1))?;
    link(&mut graph, over, 0, pair);
    let root = graph.add(named(15, 1))?;
    link(&mut graph, root, 0, over);
    tree_of(alloc, &graph, root)
}

/// The list of elements that begin with those of a number, all of them different.
fn large_graph(alloc: Global, number: usize) -> Result<Graph, NoMemory> {
    let mut graph = Graph::new(alloc);
    let mut tail = graph.add(named(13, 0))?;
    for place in 0..ELEMENTS {
        let value = number.wrapping_mul(ELEMENTS).wrapping_add(place);
        let element = graph.add(Label::Int((value % 1_000_000_000) as i64))?;
        let dot = graph.add(Label::Dot)?;
        link(&mut graph, dot, 0, element);
        link(&mut graph, dot, 1, tail);
        tail = dot;
    }
    Ok(graph)
}

/// A tree of 16,383 nodes, of which all but one depend on a number.
pub fn large_tree(alloc: Global, number: usize) -> Result<Option<Tree>, NoMemory> {
    let graph = large_graph(alloc, number)?;
    tree_of(alloc, &graph, ELEMENTS.wrapping_mul(2))
}
