//! Rows `least TREE`: the smallest graph of what roots reach.
use mars_minim::{Minimal, minimise};
use mars_tree::Names;
use rows::{Operand, Stop, are_below, push_nodes, push_number};
use std::alloc::Global;

/// Writes the nodes of a smallest graph where it has one, and else how many there are.
fn push_minimal(names: &Names, least: &Minimal, into: &mut Vec<u8>) -> Result<(), Stop> {
    if least.graph.len() == 1 {
        into.extend_from_slice(b"one node: ")?;
        push_nodes(names, &least.graph, into)?;
    } else {
        push_number(least.graph.len(), into)?;
        into.extend_from_slice(b" nodes")?;
    }
    Ok(())
}

/// The place of the first number that is the same as that at a place.
fn first_place(numbers: &[usize], place: usize) -> usize {
    for (other, number) in numbers.iter().enumerate() {
        if numbers.get(place) == Some(number) {
            return other;
        }
    }
    place
}

/// Writes a smallest graph, and for each root the place of the first root that is the same node.
fn push_least(names: &Names, least: &Minimal, into: &mut Vec<u8>) -> Result<(), Stop> {
    push_minimal(names, least, into)?;
    into.extend_from_slice(b", roots:")?;
    let roots = least.roots.as_slice();
    for place in 0..roots.len() {
        into.extend_from_slice(b" ")?;
        push_number(first_place(roots, place), into)?;
    }
    Ok(())
}

/// Answers with the smallest graph, and for each root with the place of the first root that is the same node.
pub fn answer_least(
    alloc: Global,
    names: &Names,
    tree: &Operand,
    into: &mut Vec<u8>,
) -> Result<(), Stop> {
    if !are_below(&tree.roots, tree.graph.len()) {
        return Err(Stop::NoNode);
    }
    let least = minimise(alloc, &tree.graph, &tree.roots)?;
    push_least(names, &least, into)
}
