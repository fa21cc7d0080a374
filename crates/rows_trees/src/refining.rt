//! Rows on the classes of nodes that are one tree: `classes NODES` lists them, `count TREE` counts those of a whole graph.
ghost use Rattle.std.specs.Prelude.{◌≡◌, length};

use mars_base::NumberPart;
use mars_refine::{Classes, classes_by_tree};
use mars_tree::Graph;
use rows::{Operand, Stop, push_number, read_operands};
use std::alloc::Global;

/// Whether a node is one of the members.
fn holds(members: &NumberPart<'_>, node: usize) -> bool {
    for place in 0..members.len() {
        if members.get(place) == node {
            return true;
        }
    }
    false
}

/// Writes the members of a class, of so many nodes, where this node is the least of them.
fn push_class(
    members: &NumberPart<'_>,
    node: usize,
    count: usize,
    into: &mut Vec<u8>,
) -> Result<(), Stop> {
    for other in 0..count {
        if other < node && holds(members, other) {
            return Ok(());
        }
        if holds(members, other) {
            into.extend_from_slice(if other == node { b" {" } else { b" " })?;
            push_number(other, into)?;
        }
    }
    into.extend_from_slice(b"}")?;
    Ok(())
}

/// Writes how many classes of so many nodes there are, and the members of each.
fn push_classes(classes: &Classes, count: usize, into: &mut Vec<u8>) -> Result<(), Stop>
    requires { count ≡ length classes.now.of }
{
    push_number(classes.count(), into)?;
    into.extend_from_slice(b" classes")?;
    for node in 0..count {
        let class = classes.of(node);
        push_class(&classes.members(class), node, count, into)?;
    }
    Ok(())
}

/// Answers with how many classes there are, and with the members of each.
pub fn answer_classes(alloc: Global, graph: &Graph, into: &mut Vec<u8>) -> Result<(), Stop> {
    let classes = classes_by_tree(alloc, graph)?;
    push_classes(&classes, graph.len(), into)
}

/// How many trees the nodes of a graph are.
fn count_trees(alloc: Global, graph: &Graph) -> Result<usize, Stop> {
    let classes = classes_by_tree(alloc, graph)?;
    Ok(classes.count())
}

/// Writes how many nodes a graph has, and how many trees they are.
fn push_count(alloc: Global, trees: &[Operand], into: &mut Vec<u8>) -> Result<(), Stop> {
    let [tree] = trees else {
        return Err(Stop::OtherParts);
    };
    let count = count_trees(alloc, &tree.graph)?;
    push_number(tree.graph.len(), into)?;
    into.extend_from_slice(b" nodes, ")?;
    push_number(count, into)?;
    into.extend_from_slice(b" trees")?;
    Ok(())
}

/// Answers with how many nodes a graph has, and how many trees they are.
pub fn answer_count(alloc: Global, rest: &str, into: &mut Vec<u8>) -> Result<(), Stop> {
    let trees = read_operands(alloc, rest)?;
    push_count(alloc, &trees.all, into)
}
