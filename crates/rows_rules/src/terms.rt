//! Terms of a store, as text: links are followed, and a variable is written as its number.
ghost use Rattle.std.specs.Prelude.{◌<◌, IsTrue, length};

use mars_base::NoMemory;
use mars_store::{NodeId, Store};
use mars_tree::Names;
use rows::{push_label, push_number};
use std::alloc::Global;

/// A term on a cycle has no end: what comes after so many labels and closing brackets is left out.
const MOST_PARTS: usize = 24;

/// Writes the term at a node.
pub(crate) fn push_term(
    alloc: Global,
    names: &Names,
    store: &Store,
    node: NodeId,
    into: &mut Vec<u8>,
) -> Result<(), NoMemory> {
    let mut parts = Vec::new(alloc);
    parts.push(Some(node))?;
    push_parts(names, store, &mut parts, into)
}

/// Writes nodes and, where there is none, closing brackets, the last one first.
fn push_parts(
    names: &Names,
    store: &Store,
    parts: &mut Vec<Option<NodeId>>,
    into: &mut Vec<u8>,
) -> Result<(), NoMemory> {
    for _ in 0..MOST_PARTS {
        match parts.pop() {
            Some(Some(node)) => push_node(names, store, node, parts, into)?,
            Some(None) => into.extend_from_slice(b")")?,
            None => return Ok(()),
        }
    }
    into.extend_from_slice(b"..")?;
    Ok(())
}

/// Writes a comma, unless a bracket or a blank comes before.
fn push_comma(into: &mut Vec<u8>) -> Result<(), NoMemory> {
    let is_first = match into.last() {
        Some(last) => *last == b'(' || *last == b' ',
        None => true,
    };
    if !is_first {
        into.extend_from_slice(b",")?;
    }
    Ok(())
}

/// Whether a store has a node.
pub(crate) fn is_inside(store: &Store, node: NodeId) -> bool
    ensures { IsTrue result → node < length store.now.nodes }
{
    node.number() < store.mark().nodes
}

/// Writes the root of a node's term, and leaves its kids to be written.
fn push_node(
    names: &Names,
    store: &Store,
    node: NodeId,
    parts: &mut Vec<Option<NodeId>>,
    into: &mut Vec<u8>,
) -> Result<(), NoMemory> {
    if !is_inside(store, node) {
        return Ok(());
    }
    push_comma(into)?;
    match store.root_label(node) {
        Some(label) => {
            push_label(names, Some(label), into)?;
            leave_kids(store, node, parts, into)
        }
        None => {
            into.extend_from_slice(b"_")?;
            push_number(store.deref(node).number(), into)
        }
    }
}

/// Opens a bracket, and leaves the kids of a node to be written, where it has any.
fn leave_kids(
    store: &Store,
    node: NodeId,
    parts: &mut Vec<Option<NodeId>>,
    into: &mut Vec<u8>,
) -> Result<(), NoMemory>
    requires { node < length store.now.nodes }
{
    let arity = match store.root_label(node) {
        Some(label) => label.arity(),
        None => 0,
    };
    if arity == 0 {
        return Ok(());
    }
    into.extend_from_slice(b"(")?;
    parts.push(None)?;
    for count in 0..arity {
        parts.push(Some(store.kid(node, arity - 1 - count)))?;
    }
    Ok(())
}
