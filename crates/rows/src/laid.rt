//! Graphs node by node. `dot(1,1) ff(0) _` is a dot whose kids are both node 1, `ff` over node 0, and a free leaf.
use crate::graphs::set_kid_at;
use crate::labels::{add_name, label_named, push_label};
use crate::stopping::Stop;
use mars_base::NoMemory;
use mars_tree::{Graph, Names};
use std::alloc::Global;

/// A graph as a row lays it out, with its names.
#[derive(Drop)]
pub struct Layout {
    pub names: Names,
    pub graph: Graph,
}

/// The numbers that a text lists.
pub fn read_numbers(alloc: Global, text: &str) -> Result<Vec<usize>, Stop> {
    let mut numbers = Vec::new(alloc);
    push_parsed(text, &mut numbers)?;
    Ok(numbers)
}

/// Puts the numbers that a text lists last in a list.
fn push_parsed(text: &str, into: &mut Vec<usize>) -> Result<(), Stop> {
    for word in text.split_whitespace() {
        let Ok(number) = word.parse::<usize>() else {
            return Err(Stop::OtherParts);
        };
        into.push(number)?;
    }
    Ok(())
}

/// The label and the kids that a word writes.
fn split_node(word: &str) -> (&str, &str) {
    match word.split_once('(') {
        Some((label, kids)) => match kids.strip_suffix(')') {
            Some(kids) => (label, kids),
            None => (label, kids),
        },
        None => (word, ""),
    }
}

/// How many kids a word lists.
fn count_kids(kids: &str) -> u32 {
    if kids.is_empty() {
        return 0;
    }
    let mut count: u32 = 0;
    for _ in kids.split(',') {
        count = count.saturating_add(1);
    }
    count
}

/// Adds the node that a word writes, without its kids.
fn add_node(names: &mut Names, graph: &mut Graph, word: &str) -> Result<(), Stop> {
    let (label, kids) = split_node(word);
    if label == "_" {
        graph.add_free()?;
        return Ok(());
    }
    let name = add_name(names, label.as_bytes())?;
    graph.add(label_named(names, name, count_kids(kids)))?;
    Ok(())
}

/// Gives a node the kids that its word lists.
fn set_kids(graph: &mut Graph, node: usize, kids: &str) {
    for (place, kid) in kids.split(',').enumerate() {
        if let Ok(kid) = kid.parse::<usize>() {
            set_kid_at(graph, node, place, kid);
        }
    }
}

/// Adds the nodes that a text lists, without their kids.
fn add_nodes(text: &str, layout: &mut Layout) -> Result<(), Stop> {
    for word in text.split_whitespace() {
        add_node(&mut layout.names, &mut layout.graph, word)?;
    }
    Ok(())
}

/// Gives all nodes the kids that a text lists.
fn set_all_kids(text: &str, graph: &mut Graph) {
    for (node, word) in text.split_whitespace().enumerate() {
        let (_label, kids) = split_node(word);
        set_kids(graph, node, kids);
    }
}

/// The graph that a text lays out.
pub fn read_nodes(alloc: Global, text: &str) -> Result<Layout, Stop> {
    let mut layout = Layout {
        names: Names::new(alloc),
        graph: Graph::new(alloc),
    };
    add_nodes(text, &mut layout)?;
    set_all_kids(text, &mut layout.graph);
    Ok(layout)
}

/// Writes a number.
pub fn push_number(number: usize, into: &mut Vec<u8>) -> Result<(), NoMemory> {
    into.extend_from_slice(format!(in *into.allocator(); "{number}")?.as_bytes())?;
    Ok(())
}

/// Writes numbers with a separator between them.
pub fn push_numbers(
    numbers: &[usize],
    separator: &[u8],
    into: &mut Vec<u8>,
) -> Result<(), NoMemory> {
    for (place, number) in numbers.iter().enumerate() {
        if place > 0 {
            into.extend_from_slice(separator)?;
        }
        push_number(*number, into)?;
    }
    Ok(())
}

/// Writes how many nodes there are, and then each.
pub fn push_graph(names: &Names, graph: &Graph, into: &mut Vec<u8>) -> Result<(), NoMemory> {
    push_number(graph.len(), into)?;
    into.extend_from_slice(if graph.len() == 0 {
        b" nodes"
    } else {
        b" nodes: "
    })?;
    push_nodes(names, graph, into)
}

/// Writes roots, after what they are roots of.
pub fn push_roots(roots: &[usize], into: &mut Vec<u8>) -> Result<(), NoMemory> {
    into.extend_from_slice(b", roots")?;
    for root in roots {
        into.extend_from_slice(b" ")?;
        push_number(*root, into)?;
    }
    Ok(())
}

/// Writes all nodes, in order.
pub fn push_nodes(names: &Names, graph: &Graph, into: &mut Vec<u8>) -> Result<(), NoMemory> {
    for node in 0..graph.len() {
        if node > 0 {
            into.extend_from_slice(b" ")?;
        }
        push_label(names, graph.label(node), into)?;
        if graph.arity(node) > 0 {
            into.extend_from_slice(b"(")?;
            push_numbers(graph.kids(node), b",", into)?;
            into.extend_from_slice(b")")?;
        }
    }
    Ok(())
}
