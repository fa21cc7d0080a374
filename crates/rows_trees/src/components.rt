//! Rows on components: `components NODES`, `key NODE : NUMBERS : NODES`, and the same with `leastkey` or `firstkey`, where the
//! numbers are those that each node has outside its component.
ghost use Rattle.std.specs.Prelude.{◌≡◌, length, IfOk};

use mars_base::NoMemory;
use mars_comp::{Components, Item, Key, components, key, least};
use mars_first::first;
use mars_tree::{Graph, Names};
use rows::{Layout, Stop, push_label, push_number, push_numbers, read_numbers};
use std::alloc::Global;

/// The component of a node, none where there is no such node.
fn number_at(parts: &Components, node: usize) -> Option<usize> {
    if node < parts.len() {
        Some(parts.of(node))
    } else {
        None
    }
}

/// Whether each kid's component has at most the number of its parent's.
fn are_kids_first(graph: &Graph, parts: &Components) -> bool {
    for node in 0..graph.len() {
        for kid in graph.kids(node) {
            if number_at(parts, *kid) > number_at(parts, node) {
                return false;
            }
        }
    }
    true
}

/// Writes the nodes of a node's component, where it is the first of them.
fn push_component(parts: &Components, node: usize, into: &mut Vec<u8>) -> Result<(), Stop> {
    let number = number_at(parts, node);
    for other in 0..parts.len() {
        let is_inner = number_at(parts, other) == number;
        if is_inner && other < node {
            return Ok(());
        }
        if is_inner {
            into.extend_from_slice(if other == node { b" {" } else { b" " })?;
            push_number(other, into)?;
        }
    }
    into.extend_from_slice(b"}")?;
    Ok(())
}

/// Writes the nodes of each component, and whether kids' components come first.
fn push_components(graph: &Graph, parts: &Components, into: &mut Vec<u8>) -> Result<(), Stop> {
    into.extend_from_slice(if are_kids_first(graph, parts) {
        b"kids first"
    } else {
        b"kids later"
    })?;
    for node in 0..parts.len() {
        push_component(parts, node, into)?;
    }
    Ok(())
}

/// Answers with the nodes of each component, and with whether kids' components come first.
pub fn answer_components(alloc: Global, graph: &Graph, into: &mut Vec<u8>) -> Result<(), Stop> {
    let parts = components(alloc, graph)?;
    push_components(graph, &parts, into)
}

/// Writes an item of a key: a label, `@` and a place in the key, or a number outside.
fn push_item(names: &Names, item: Item, into: &mut Vec<u8>) -> Result<(), NoMemory> {
    match item {
        Item::Node(label) => push_label(names, label, into)?,
        Item::Inner(place) => {
            into.extend_from_slice(b"@")?;
            push_number(place, into)?;
        }
        Item::Outer(number) => {
            into.extend_from_slice(format!(in *into.allocator(); "{number}")?.as_bytes())?
        }
    }
    Ok(())
}

/// Writes the items of a key.
fn push_key(names: &Names, key: &Key, into: &mut Vec<u8>) -> Result<(), NoMemory> {
    for item in &key.items {
        push_item(names, *item, into)?;
        into.extend_from_slice(b" ")?;
    }
    Ok(())
}

/// The numbers as wide ones.
fn widened(alloc: Global, numbers: &[usize]) -> Result<Vec<u128>, NoMemory> {
    let mut all = Vec::new(alloc);
    for number in numbers {
        all.push(*number as u128)?;
    }
    Ok(all)
}

/// Reads the number that each node has outside its component.
fn read_outside(alloc: Global, text: &str) -> Result<Vec<u128>, Stop> {
    let numbers = read_numbers(alloc, text)?;
    Ok(widened(alloc, &numbers)?)
}

/// Writes the key of a node's component from that node.
fn push_key_of(
    alloc: Global,
    laid: &Layout,
    node: usize,
    outside: &[u128],
    into: &mut Vec<u8>,
) -> Result<(), Stop> {
    let graph = &laid.graph;
    let parts = components(alloc, graph)?;
    if node >= graph.len() || parts.len() != graph.len() || outside.len() != graph.len() {
        return Err(Stop::OtherParts);
    }
    let key = key(alloc, graph, &parts, node, outside)?;
    Ok(push_key(&laid.names, &key, into)?)
}

/// Writes a key, and the nodes at its places.
fn push_with_nodes(
    names: &Names,
    key: &Key,
    nodes: &[usize],
    into: &mut Vec<u8>,
) -> Result<(), NoMemory> {
    push_key(names, key, into)?;
    into.extend_from_slice(b"from ")?;
    push_numbers(nodes, b" ", into)
}

/// Writes the least key of a node's component, and the nodes at its places.
fn push_least_key(
    alloc: Global,
    laid: &Layout,
    node: usize,
    outside: &[u128],
    into: &mut Vec<u8>,
) -> Result<(), Stop> {
    let graph = &laid.graph;
    let parts = components(alloc, graph)?;
    if node >= graph.len() || parts.len() != graph.len() || outside.len() != graph.len() {
        return Err(Stop::OtherParts);
    }
    let least = least(alloc, graph, &parts, node, outside)?;
    Ok(push_with_nodes(&laid.names, &least.key, &least.nodes, into)?)
}

/// Writes the key of a node's component from its first node, and the nodes at its places.
fn push_first_key(
    alloc: Global,
    laid: &Layout,
    node: usize,
    outside: &[u128],
    into: &mut Vec<u8>,
) -> Result<(), Stop> {
    let graph = &laid.graph;
    let parts = components(alloc, graph)?;
    if node >= graph.len() || parts.len() != graph.len() || outside.len() != graph.len() {
        return Err(Stop::OtherParts);
    }
    let first = first(alloc, graph, &parts, node, outside)?;
    Ok(push_with_nodes(&laid.names, &first.key, &first.nodes, into)?)
}

/// Answers with a key of a node's component: that from the node, or the least one or the first
/// one with the nodes at its places.
pub fn answer_keyed(
    alloc: Global,
    word: &str,
    parts: &str,
    laid: &Layout,
    into: &mut Vec<u8>,
) -> Result<(), Stop> {
    let Some((node, outside)) = parts.split_once(':') else {
        return Err(Stop::OtherParts);
    };
    let Ok(node) = node.trim().parse::<usize>() else {
        return Err(Stop::NoNode);
    };
    let outside = read_outside(alloc, outside)?;
    match word {
        "key" => push_key_of(alloc, laid, node, &outside, into),
        "leastkey" => push_least_key(alloc, laid, node, &outside, into),
        _ => push_first_key(alloc, laid, node, &outside, into),
    }
}
