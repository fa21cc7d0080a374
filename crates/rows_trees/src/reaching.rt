//! Rows on what roots reach: `part ROOTS : NODES`, `reached ROOTS : NODES`, `free ROOT : NODES`, and
//! `order NUMBERS : NUMBERS`, which meets numbers and then asks for the places of others.
ghost use Rattle.std.specs.Prelude.{IsTrue, Contains};

use mars_reach::{Order, RootedGraph, reached, reaches_free, rooted_part};
use mars_tree::{Graph, Names};
use rows::{Layout, Stop, are_below, push_graph, push_number, push_roots, read_numbers};
use std::alloc::Global;

/// Writes a graph with its roots.
fn push_part(names: &Names, part: &RootedGraph, into: &mut Vec<u8>) -> Result<(), Stop> {
    push_graph(names, &part.graph, into)?;
    push_roots(part.roots.as_slice(), into)?;
    Ok(())
}

/// Answers with the nodes of the part that roots reach, and with the roots there.
pub fn answer_part(
    alloc: Global,
    roots: &[usize],
    laid: &Layout,
    into: &mut Vec<u8>,
) -> Result<(), Stop> {
    if !are_below(roots, laid.graph.len()) {
        return Err(Stop::NoNode);
    }
    let part = rooted_part(alloc, &laid.graph, roots)?;
    push_part(&laid.names, &part, into)
}

/// Writes the numbers of an order.
fn push_order(order: &Order, into: &mut Vec<u8>) -> Result<(), Stop> {
    for place in 0..order.len() {
        push_number(order.get(place), into)?;
        into.extend_from_slice(b" ")?;
    }
    Ok(())
}

/// Writes the nodes of an order, and that they are in order.
fn push_reached(order: &Order, into: &mut Vec<u8>) -> Result<(), Stop> {
    push_order(order, into)?;
    into.extend_from_slice(b"in order")?;
    Ok(())
}

/// Answers with the nodes that roots reach, in order.
pub fn answer_reached(
    alloc: Global,
    roots: &[usize],
    graph: &Graph,
    into: &mut Vec<u8>,
) -> Result<(), Stop> {
    if !are_below(roots, graph.len()) {
        return Err(Stop::NoNode);
    }
    let order = reached(alloc, graph, roots)?;
    push_reached(&order, into)
}

/// Writes whether a root reaches a free leaf.
fn push_free(alloc: Global, graph: &Graph, root: usize, into: &mut Vec<u8>) -> Result<(), Stop> {
    if root >= graph.len() {
        return Err(Stop::NoNode);
    }
    let free = reaches_free(alloc, graph, root)?;
    into.extend_from_slice(if free { b"yes" } else { b"no" })?;
    Ok(())
}

/// Answers for each root whether it reaches a free leaf.
pub fn answer_free(
    alloc: Global,
    roots: &[usize],
    graph: &Graph,
    into: &mut Vec<u8>,
) -> Result<(), Stop> {
    for (place, root) in roots.iter().enumerate() {
        into.extend_from_slice(if place > 0 { b" " } else { b"" })?;
        push_free(alloc, graph, *root, into)?;
    }
    Ok(())
}

/// Whether a number was met.
fn is_met(order: &Order, number: usize) -> bool
    ensures { IsTrue result → Contains order.now number }
{
    for place in 0..order.len() {
        if order.get(place) == number {
            return true;
        }
    }
    false
}

/// Meets numbers, in order.
fn meet_all(order: &mut Order, numbers: &[usize]) -> Result<(), Stop> {
    for number in numbers {
        order.meet(*number)?;
    }
    Ok(())
}

/// Writes the place of a number that was met, `-` for any other.
fn push_place(order: &Order, number: usize, into: &mut Vec<u8>) -> Result<(), Stop> {
    into.extend_from_slice(b" ")?;
    if is_met(order, number) {
        push_number(order.place(number), into)?;
    } else {
        into.extend_from_slice(b"-")?;
    }
    Ok(())
}

/// Writes the numbers that were met, and the places of others among them.
fn push_places(order: &Order, others: &[usize], into: &mut Vec<u8>) -> Result<(), Stop> {
    push_number(order.len(), into)?;
    into.extend_from_slice(b" met: ")?;
    push_order(order, into)?;
    into.extend_from_slice(b"at")?;
    for number in others {
        push_place(order, *number, into)?;
    }
    Ok(())
}

/// Meets numbers, and writes the places of others among them.
fn push_met(
    alloc: Global,
    numbers: &[usize],
    others: &[usize],
    into: &mut Vec<u8>,
) -> Result<(), Stop> {
    let mut order = Order::new(alloc);
    meet_all(&mut order, numbers)?;
    push_places(&order, others, into)
}

/// Answers with the numbers that were met, and with the places of others among them.
pub fn answer_order(alloc: Global, rest: &str, into: &mut Vec<u8>) -> Result<(), Stop> {
    let Some((numbers, others)) = rest.split_once(':') else {
        return Err(Stop::OtherParts);
    };
    let numbers = read_numbers(alloc, numbers)?;
    let others = read_numbers(alloc, others)?;
    push_met(alloc, &numbers, &others, into)
}
