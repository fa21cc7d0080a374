//! The graphs that are measured, each with its root last.
use crate::linking::link;
use mars_base::NoMemory;
use mars_tree::{Graph, Label, NameId};
use rand_core::utils::NextWord;
use rand_pcg::Pcg32;
use std::alloc::Global;

const AA: Label = Label::Name {
    name: NameId(13),
    arity: 0,
};

const FF: Label = Label::Name {
    name: NameId(14),
    arity: 2,
};

const GG: Label = Label::Name {
    name: NameId(15),
    arity: 2,
};

const HH: Label = Label::Name {
    name: NameId(16),
    arity: 1,
};

const KK: Label = Label::Name {
    name: NameId(17),
    arity: 1,
};

/// What is measured.
#[derive(Clone, Copy, Debug, PartialEq, Eq)]
pub enum Shape {
    /// Dots over one element: each tail is another tree.
    List,
    /// Nodes over one another in a circle, of which one has a label of its own: each is another tree.
    Ring,
    /// Two rails with rungs from each to the other: both rails are the same trees.
    Ladder,
    /// Nodes with one of two labels over two random kids.
    Random,
}

/// The graph of a shape, of about so many nodes.
pub fn make_graph(alloc: Global, shape: Shape, size: usize) -> Result<Graph, NoMemory> {
    match shape {
        Shape::List => list(alloc, size),
        Shape::Ring => ring(alloc, size),
        Shape::Ladder => ladder(alloc, size),
        Shape::Random => random(alloc, size),
    }
}

fn list(alloc: Global, size: usize) -> Result<Graph, NoMemory> {
    let mut graph = Graph::new(alloc);
    let element = graph.add(AA)?;
    let mut tail = element;
    for _ in 0..size {
        let dot = graph.add(Label::Dot)?;
        link(&mut graph, dot, 0, element);
        link(&mut graph, dot, 1, tail);
        tail = dot;
    }
    Ok(graph)
}

fn ring(alloc: Global, size: usize) -> Result<Graph, NoMemory> {
    let mut graph = Graph::new(alloc);
    let first = graph.add(KK)?;
    let mut next = first;
    for _ in 1..size {
        let node = graph.add(HH)?;
        link(&mut graph, node, 0, next);
        next = node;
    }
    link(&mut graph, first, 0, next);
    Ok(graph)
}

fn ladder(alloc: Global, size: usize) -> Result<Graph, NoMemory> {
    let mut graph = Graph::new(alloc);
    let mut left = graph.add(AA)?;
    let mut right = left;
    for _ in 0..size / 2 {
        let (from_left, from_right) = (graph.add(FF)?, graph.add(FF)?);
        link(&mut graph, from_left, 0, left);
        link(&mut graph, from_left, 1, from_right);
        link(&mut graph, from_right, 0, right);
        link(&mut graph, from_right, 1, from_left);
        (left, right) = (from_left, from_right);
    }
    Ok(graph)
}

fn random(alloc: Global, size: usize) -> Result<Graph, NoMemory> {
    let mut words = Pcg32::new(42, 54);
    let mut graph = Graph::new(alloc);
    for _ in 0..size {
        let _ = graph.add(if words.next_word() % 2 == 0 { FF } else { GG })?;
    }
    for node in 0..size {
        link(&mut graph, node, 0, words.next_word() as usize % size);
        link(&mut graph, node, 1, words.next_word() as usize % size);
    }
    Ok(graph)
}
