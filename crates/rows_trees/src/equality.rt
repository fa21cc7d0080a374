//! Rows `same TREE | TREE`: whether two trees without free leaves are the same.
use mars_reach::{RootedGraph, rooted_part};
use mars_tree::{Graph, same};
use rows::{Operand, Stop, are_below, are_ground, read_operands};
use std::alloc::Global;

/// What the roots of a graph reach.
fn part_of(alloc: Global, tree: &Operand) -> Result<RootedGraph, Stop> {
    if are_below(&tree.roots, tree.graph.len()) {
        Ok(rooted_part(alloc, &tree.graph, &tree.roots)?)
    } else {
        Err(Stop::NoNode)
    }
}

/// Whether the first nodes of two graphs are the same tree.
fn are_same(alloc: Global, left: &Graph, right: &Graph) -> Result<bool, Stop> {
    if left.len() == 0 || right.len() == 0 {
        return Err(Stop::NoNode);
    }
    if are_ground(left) && are_ground(right) {
        Ok(same(alloc, left, 0, right, 0)?)
    } else {
        Err(Stop::FreeLeaf)
    }
}

/// Whether the trees of two operands are the same.
fn are_one(alloc: Global, left: &Operand, right: &Operand) -> Result<bool, Stop> {
    let left = part_of(alloc, left)?;
    let right = part_of(alloc, right)?;
    are_same(alloc, &left.graph, &right.graph)
}

/// Writes `yes` or `no`.
fn push_same(alloc: Global, trees: &[Operand], into: &mut Vec<u8>) -> Result<(), Stop> {
    let [left, right] = trees else {
        return Err(Stop::OtherParts);
    };
    let same = are_one(alloc, left, right)?;
    into.extend_from_slice(if same { b"yes" } else { b"no" })?;
    Ok(())
}

/// Answers `yes` or `no`.
pub fn answer_same(alloc: Global, rest: &str, into: &mut Vec<u8>) -> Result<(), Stop> {
    let trees = read_operands(alloc, rest)?;
    push_same(alloc, &trees.all, into)
}
