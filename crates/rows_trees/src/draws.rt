//! Many small graphs, whose smallest graphs are held beside a plain comparison: `three` takes all graphs of three nodes,
//! `drawn SEED COUNT` graphs of at most eight nodes that look random.
ghost use Rattle.std.specs.Prelude.{◌<◌};

use crate::compare::compare;
use mars_base::NoMemory;
use mars_tree::{Graph, Label, NameId};
use rows::{Draw, Stop, push_number, read_numbers, set_kid_at};
use std::alloc::Global;

const FF: Label = Label::Name {
    name: NameId(13),
    arity: 1,
};

const GG: Label = Label::Name {
    name: NameId(14),
    arity: 1,
};

/// A label, or none for a free leaf, and two numbers, of which as many kids are taken as the label has.
#[derive(Clone, Copy)]
struct Drawn {
    label: Option<Label>,
    left: usize,
    right: usize,
}

/// The graph of drawn nodes, in which a kid that is no node is left as its node itself.
fn graph_of(alloc: Global, nodes: &[Drawn]) -> Result<Graph, NoMemory> {
    let mut graph = Graph::new(alloc);
    for node in nodes {
        match node.label {
            Some(label) => graph.add(label)?,
            None => graph.add_free()?,
        };
    }
    for (number, node) in nodes.iter().enumerate() {
        set_kid_at(&mut graph, number, 0, node.left);
        set_kid_at(&mut graph, number, 1, node.right);
    }
    Ok(graph)
}

/// One of the fourteen nodes of a graph of three: a free leaf, a number, a name over each node, a dot over each two.
fn one_of_fourteen(code: usize) -> Drawn {
    let (label, left, right) = match code {
        0 => (None, 0, 0),
        1 => (Some(Label::Int(1)), 0, 0),
        2 | 3 | 4 => (Some(FF), code - 2, 0),
        _ => (
            Some(Label::Dot),
            code.saturating_sub(5) / 3,
            code.saturating_sub(5) % 3,
        ),
    };
    Drawn { label, left, right }
}

/// Compares three times, from other roots each time.
fn compare_three(alloc: Global, graph: &Graph, agreed: &mut usize) -> Result<(), Stop> {
    compare(alloc, graph, &[0], agreed)?;
    compare(alloc, graph, &[2, 1], agreed)?;
    compare(alloc, graph, &[1, 0, 2, 1], agreed)
}

/// Compares all graphs of three nodes with these first two.
fn compare_with(
    alloc: Global,
    first: usize,
    second: usize,
    agreed: &mut usize,
) -> Result<(), Stop> {
    for third in 0..14 {
        let nodes = [
            one_of_fourteen(first),
            one_of_fourteen(second),
            one_of_fourteen(third),
        ];
        let graph = graph_of(alloc, &nodes)?;
        compare_three(alloc, &graph, agreed)?;
    }
    Ok(())
}

/// Answers with how many comparisons agree.
pub fn answer_three(alloc: Global, into: &mut Vec<u8>) -> Result<(), Stop> {
    let mut agreed = 0;
    for first in 0..14 {
        for second in 0..14 {
            compare_with(alloc, first, second, &mut agreed)?;
        }
    }
    push_agreed(agreed, into)
}

/// A node with kids below eight.
fn draw_node(draw: &mut Draw) -> Drawn {
    let label = match draw.below(6) {
        0 => None,
        1 => Some(Label::Int(1)),
        2 => Some(FF),
        3 => Some(GG),
        _ => Some(Label::Dot),
    };
    let left = draw.below(8);
    let right = draw.below(8);
    Drawn { label, left, right }
}

/// A graph of at most eight nodes.
fn draw_graph(alloc: Global, draw: &mut Draw) -> Result<Graph, NoMemory> {
    let mut nodes = Vec::new(alloc);
    let count = draw.below(8);
    for _ in 0..=count {
        nodes.push(draw_node(draw))?;
    }
    graph_of(alloc, &nodes)
}

/// Compares twice, from other roots each time.
fn compare_twice(alloc: Global, graph: &Graph, agreed: &mut usize) -> Result<(), Stop> {
    let last = graph.len().saturating_sub(1);
    compare(alloc, graph, &[0], agreed)?;
    compare(alloc, graph, &[last, last / 2, 0], agreed)
}

/// Draws a graph, and compares twice.
fn compare_drawn(alloc: Global, draw: &mut Draw, agreed: &mut usize) -> Result<(), Stop> {
    let graph = draw_graph(alloc, draw)?;
    compare_twice(alloc, &graph, agreed)
}

/// How many comparisons agree of so many graphs of a seed.
fn agreed_of(alloc: Global, seed: u64, count: usize) -> Result<usize, Stop> {
    let mut draw = Draw::new(seed);
    let mut agreed = 0;
    for _ in 0..count {
        compare_drawn(alloc, &mut draw, &mut agreed)?;
    }
    Ok(agreed)
}

/// Writes how many comparisons agree.
fn push_agreed(agreed: usize, into: &mut Vec<u8>) -> Result<(), Stop> {
    push_number(agreed, into)?;
    into.extend_from_slice(b" agree")?;
    Ok(())
}

/// The seed and the count of a row.
fn read_drawn(alloc: Global, rest: &str) -> Result<(usize, usize), Stop> {
    let numbers = read_numbers(alloc, rest)?;
    match numbers.as_slice() {
        [seed, count] => Ok((*seed, *count)),
        _ => Err(Stop::OtherParts),
    }
}

/// Answers with how many comparisons agree.
pub fn answer_drawn(alloc: Global, rest: &str, into: &mut Vec<u8>) -> Result<(), Stop> {
    let (seed, count) = read_drawn(alloc, rest)?;
    push_agreed(agreed_of(alloc, seed as u64, count)?, into)
}
