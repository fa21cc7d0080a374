//! The graphs whose trees are measured, each with its root last.
use crate::linking::{link, named};
use mars_base::NoMemory;
use mars_tree::{Graph, Label, NameId};
use rand_core::utils::NextWord;
use rand_pcg::Pcg32;
use std::alloc::Global;

/// What is measured.
#[derive(Clone, Copy, Debug, PartialEq, Eq)]
pub enum Shape {
    /// Dots over one element: each tail is another tree.
    List,
    /// Dots over elements that are all different.
    Comb,
    /// Nodes over one another in a circle, of which one has a label of its own: one component.
    Ring,
    /// Nodes over one another in a circle, each with a label of its own.
    Different,
    /// Nodes over one another in a circle, whose two labels are the letters of a Fibonacci word.
    Fibonacci,
    /// Words of bits, each over the two words that follow when its first bit, which is its label, goes.
    DeBruijn,
    /// Two circles, each node over the next and the one across; one node has a label of its own.
    Ladder,
    /// Nodes with one of two labels over two random kids.
    Random,
}

/// The graph of a shape, of about so many nodes.
pub fn make_graph(alloc: Global, shape: Shape, size: usize) -> Result<Graph, NoMemory> {
    match shape {
        Shape::List => list(alloc, size),
        Shape::Comb => comb(alloc, size),
        Shape::Ring => ring(alloc, size),
        Shape::Different => different(alloc, size),
        Shape::Fibonacci => fibonacci(alloc, size),
        Shape::DeBruijn => de_bruijn(alloc, size),
        Shape::Ladder => ladder(alloc, size),
        Shape::Random => random(alloc, size),
    }
}

fn list(alloc: Global, size: usize) -> Result<Graph, NoMemory> {
    let mut graph = Graph::new(alloc);
    let element = graph.add(named(13, 0))?;
    let mut tail = element;
    for _ in 0..size {
        let dot = graph.add(Label::Dot)?;
        link(&mut graph, dot, 0, element);
        link(&mut graph, dot, 1, tail);
        tail = dot;
    }
    Ok(graph)
}

fn comb(alloc: Global, size: usize) -> Result<Graph, NoMemory> {
    let mut graph = Graph::new(alloc);
    let mut tail = graph.add(named(13, 0))?;
    for place in 0..size / 2 {
        let element = graph.add(Label::Int(place as i64 % 1_000_000))?;
        let dot = graph.add(Label::Dot)?;
        link(&mut graph, dot, 0, element);
        link(&mut graph, dot, 1, tail);
        tail = dot;
    }
    Ok(graph)
}

fn ring(alloc: Global, size: usize) -> Result<Graph, NoMemory> {
    let mut graph = Graph::new(alloc);
    let first = graph.add(named(17, 1))?;
    let mut next = first;
    for _ in 1..size {
        let node = graph.add(named(16, 1))?;
        link(&mut graph, node, 0, next);
        next = node;
    }
    link(&mut graph, first, 0, next);
    Ok(graph)
}

fn different(alloc: Global, size: usize) -> Result<Graph, NoMemory> {
    let mut graph = Graph::new(alloc);
    for node in 0..size {
        let _ = graph.add(named(16 + (node % 1_000_000) as u32, 1))?;
    }
    link_circle(&mut graph, size);
    Ok(graph)
}

/// Makes each node a kid of the one before it, and the first a kid of the last.
fn link_circle(graph: &mut Graph, size: usize) {
    for node in 0..size {
        let next = if node + 1 < size { node + 1 } else { 0 };
        link(graph, node, 0, next);
    }
}

/// The first letters of the infinite Fibonacci word, at least so many: 0 becomes 01, and 1 becomes 0.
fn fibonacci_word(alloc: Global, size: usize) -> Result<Vec<u32>, NoMemory> {
    let mut word = Vec::new(alloc);
    word.push(0)?;
    word.push(1)?;
    for place in 1..size {
        word.push(0)?;
        if word.get(place) == Some(&0) {
            word.push(1)?;
        }
    }
    Ok(word)
}

fn fibonacci(alloc: Global, size: usize) -> Result<Graph, NoMemory> {
    let word = fibonacci_word(alloc, size)?;
    let mut graph = Graph::new(alloc);
    for letter in word.iter().take(size) {
        let _ = graph.add(named(16 + *letter % 2, 1))?;
    }
    link_circle(&mut graph, size);
    Ok(graph)
}

/// The least power of two that isn't below a size, at most 2^20.
fn power_from(size: usize) -> usize {
    let mut power: usize = 1;
    for _ in 0..20 {
        if power < size {
            power = power.wrapping_mul(2);
        }
    }
    power
}

fn de_bruijn(alloc: Global, size: usize) -> Result<Graph, NoMemory> {
    let count = power_from(size);
    let mut graph = Graph::new(alloc);
    for word in 0..count {
        let bit = if word < count / 2 { 0 } else { 1 };
        let _ = graph.add(named(16 + bit, 2))?;
    }
    for word in 0..count {
        let next = if word < count / 2 {
            word
        } else {
            word - count / 2
        };
        link(&mut graph, word, 0, next.wrapping_mul(2));
        link(&mut graph, word, 1, next.wrapping_mul(2).wrapping_add(1));
    }
    Ok(graph)
}

fn ladder(alloc: Global, size: usize) -> Result<Graph, NoMemory> {
    let half = size / 2;
    let mut graph = Graph::new(alloc);
    for node in 0..half.wrapping_mul(2) {
        let other = if node == 0 { 1 } else { 0 };
        let _ = graph.add(named(16 + other, 2))?;
    }
    for node in 0..half {
        let next = if node + 1 < half { node + 1 } else { 0 };
        link(&mut graph, node, 0, next);
        link(&mut graph, node, 1, half.wrapping_add(node));
        link(
            &mut graph,
            half.wrapping_add(node),
            0,
            half.wrapping_add(next),
        );
        link(&mut graph, half.wrapping_add(node), 1, node);
    }
    Ok(graph)
}

fn random(alloc: Global, size: usize) -> Result<Graph, NoMemory> {
    let mut words = Pcg32::new(42, 54);
    let mut graph = Graph::new(alloc);
    for _ in 0..size {
        let _ = graph.add(named(14 + words.next_word() % 2, 2))?;
    }
    for node in 0..size {
        link(&mut graph, node, 0, words.next_word() as usize % size);
        link(&mut graph, node, 1, words.next_word() as usize % size);
    }
    Ok(graph)
}
