//! Rows `grown ROOTS : NODES`: a graph that grows by the calls that add many nodes at once, and is cut again.
ghost use Rattle.std.specs.Prelude.{length, take, OnOk};
ghost use Rattle.mars_tree.specs.Graph.{IsGraph};

use mars_base::NoMemory;
use mars_tree::{Graph, Label, Names, NewNumbers};
use rows::{Layout, Stop, are_below, push_graph};
use std::alloc::Global;

/// The same number for each node.
#[derive(Drop)]
struct Onto {
    node: usize,
}

impl NewNumbers for Onto {
    ghost has_number = { λ onto node. Unit {0} };

    ghost number_in = { λ onto node. onto.node };

    fn number(&self, _node: usize) -> usize {
        self.node
    }
}

/// A dot whose kids are both itself.
fn lone_dot(alloc: Global) -> Result<Graph, NoMemory> {
    let mut graph = Graph::new(alloc);
    graph.add_node(Some(Label::Dot), &[0usize, 0usize])?;
    Ok(graph)
}

/// Adds nodes of another graph, whose kids all become the first node.
fn take_over(graph: &mut Graph, from: &Graph, nodes: &[usize]) -> Result<(), Stop> {
    if graph.len() == 0 || !are_below(nodes, from.len()) {
        return Err(Stop::NoNode);
    }
    Ok(graph.append_renumbered(from, nodes, &Onto { node: 0 })?)
}

/// Adds a free leaf, and a dot over it and the first node.
fn append_two(graph: &mut Graph) -> Result<(), NoMemory>
    ensures { OnOk result (IsGraph (take (length graph.old) graph.new)) }
{
    let node = graph.len();
    graph.append(&[None, Some(Label::Dot)], &[node, 0])
}

/// Writes a graph with two nodes more, and cut again.
fn push_grown(names: &Names, graph: &mut Graph, into: &mut Vec<u8>) -> Result<(), NoMemory> {
    let count = graph.len();
    append_two(graph)?;
    push_graph(names, graph, into)?;
    into.extend_from_slice(b"; cut ")?;
    graph.truncate(count);
    push_graph(names, graph, into)
}

/// Grows a graph by some nodes of another, and then by two.
fn grow(laid: &Layout, nodes: &[usize], graph: &mut Graph, into: &mut Vec<u8>) -> Result<(), Stop> {
    take_over(graph, &laid.graph, nodes)?;
    Ok(push_grown(&laid.names, graph, into)?)
}

/// Answers with a graph that has grown by nodes whose kids all became its first node, and by two nodes more, and with what
/// is left when these two are cut off.
pub fn answer_grown(
    alloc: Global,
    nodes: &[usize],
    laid: &Layout,
    into: &mut Vec<u8>,
) -> Result<(), Stop> {
    let mut graph = lone_dot(alloc)?;
    grow(laid, nodes, &mut graph, into)
}
