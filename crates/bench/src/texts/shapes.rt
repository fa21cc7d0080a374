//! The graphs whose texts are measured.
use crate::linking::link;
use mars_base::NoMemory;
use mars_canon::{Canon, canon};
use mars_tree::{Graph, Label, NameId, Names};
use std::alloc::Global;

/// What is measured.
#[derive(Clone, Copy, Debug, PartialEq, Eq)]
pub enum Shape {
    /// Dots over equal elements.
    List,
    /// Nodes over one another in a circle, of which one has a label of its own.
    Ring,
    /// A tuple of equal elements.
    Tuple,
}

/// A canonical graph with the spellings of its names.
#[derive(Drop)]
pub struct Sample {
    pub names: Names,
    pub canon: Canon,
}

/// The canonical graph of a shape, of about so many nodes; the tuple has so many kids.
pub fn make_sample(alloc: Global, shape: Shape, size: usize) -> Result<Sample, NoMemory> {
    let mut names = Names::new(alloc);
    let element = number(&mut names, b"element")?;
    let (graph, root) = match shape {
        Shape::List => list(alloc, element, size)?,
        Shape::Ring => ring(alloc, element, size)?,
        Shape::Tuple => tuple(alloc, element, size)?,
    };
    let canon = canon_of(alloc, &graph, root)?;
    Ok(Sample { names, canon })
}

/// The number of a spelling; none is left where there are no numbers.
fn number(names: &mut Names, text: &[u8]) -> Result<NameId, NoMemory> {
    if names.len() >= u32::MAX as usize {
        return Err(NoMemory);
    }
    names.id(text)
}

/// The canonical graph of a node's tree, of no root where there is no such node.
fn canon_of(alloc: Global, graph: &Graph, root: usize) -> Result<Canon, NoMemory> {
    if root < graph.len() {
        canon(alloc, graph, &[root])
    } else {
        canon(alloc, graph, &[])
    }
}

fn list(alloc: Global, name: NameId, size: usize) -> Result<(Graph, usize), NoMemory> {
    let mut graph = Graph::new(alloc);
    let element = graph.add(Label::Name { name, arity: 0 })?;
    let mut tail = element;
    for _ in 0..size {
        let dot = graph.add(Label::Dot)?;
        link(&mut graph, dot, 0, element);
        link(&mut graph, dot, 1, tail);
        tail = dot;
    }
    Ok((graph, tail))
}

fn ring(alloc: Global, name: NameId, size: usize) -> Result<(Graph, usize), NoMemory> {
    let mut graph = Graph::new(alloc);
    let root = graph.add(Label::Tup(1))?;
    let mut next = root;
    for _ in 1..size {
        let node = graph.add(Label::Name { name, arity: 1 })?;
        link(&mut graph, node, 0, next);
        next = node;
    }
    link(&mut graph, root, 0, next);
    Ok((graph, root))
}

fn tuple(alloc: Global, name: NameId, size: usize) -> Result<(Graph, usize), NoMemory> {
    let mut graph = Graph::new(alloc);
    let element = graph.add(Label::Name { name, arity: 0 })?;
    let arity = u32::try_from(size).unwrap_or(0);
    let root = graph.add(Label::Tup(arity))?;
    for place in 0..size {
        link(&mut graph, root, place, element);
    }
    Ok((graph, root))
}
