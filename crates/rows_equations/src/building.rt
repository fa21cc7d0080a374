//! Stores made from graphs: a free leaf becomes a variable, and a labelled node is added over its kids. Nodes on cycles
//! become variables first, each of which is then bound to a node over the others.
ghost use Rattle.std.specs.Prelude.{◌<◌, IsTrue, length, All};
ghost use Rattle.mars_store.specs.System.{Grows};

use crate::reading::Tree;
use mars_base::NoMemory;
use mars_store::{NodeId, Store};
use mars_tree::{Graph, Label};
use rows::{kids_at, label_at};
use std::alloc::Global;

/// Whether a store has a node.
pub(crate) fn is_inside(store: &Store, node: NodeId) -> bool
    ensures { IsTrue result → node < length store.now.nodes }
{
    node.number() < store.mark().nodes
}

/// Whether all nodes have numbers below a count.
fn are_below(nodes: &[NodeId], count: usize) -> bool
    ensures { IsTrue result → All (λ node. node < count) nodes.now }
{
    for node in nodes {
        if node.number() >= count {
            return false;
        }
    }
    true
}

/// Whether a store has all nodes of a list.
pub(crate) fn are_inside(store: &Store, nodes: &[NodeId]) -> bool
    ensures { IsTrue result → All (λ node. node < length store.now.nodes) nodes.now }
{
    are_below(nodes, store.mark().nodes)
}

/// Adds a node over kids, where the store has these and they are as many as the label's arity.
fn add_over(store: &mut Store, label: Label, kids: &[NodeId]) -> Result<Option<NodeId>, NoMemory> {
    if kids.len() != label.arity() || !are_inside(store, kids) {
        return Ok(None);
    }
    Ok(Some(store.add(label, kids)?))
}

/// Binds a variable that is free and its own end to a node that doesn't lead to it, and says whether it did.
pub(crate) fn bind_free(store: &mut Store, var: NodeId, to: NodeId) -> Result<bool, NoMemory>
    ensures { Grows store.old store.new }
{
    if !is_inside(store, var) || !is_inside(store, to) {
        return Ok(false);
    }
    if store.deref(var) != var || store.root_label(var).is_some() || store.deref(to) == var {
        return Ok(false);
    }
    store.bind(var, to)?;
    Ok(true)
}

/// Whether a node was found.
fn is_found(found: &[bool], node: usize) -> bool {
    match found.get(node) {
        Some(found) => *found,
        None => false,
    }
}

/// Whether a node was found and isn't in the store yet.
fn is_missing(found: &[bool], nodes: &[Option<NodeId>], node: usize) -> bool {
    is_found(found, node) && matches!(nodes.get(node), Some(None))
}

/// Notes that some nodes were found.
fn find_all(nodes: &[usize], found: &mut [bool]) {
    for node in nodes {
        if let Some(place) = found.get_mut(*node) {
            *place = true;
        }
    }
}

/// Finds the kids of all nodes that were found.
pub(crate) fn spread(graph: &Graph, found: &mut [bool]) {
    for node in 0..graph.len() {
        if is_found(found, node) {
            find_all(graph.kids(node), found);
        }
    }
}

/// Which nodes of a graph some nodes reach. Quadratic at most: rows are short.
fn reached(alloc: Global, graph: &Graph, roots: &[usize]) -> Result<Vec<bool>, NoMemory> {
    let mut found = vec![in alloc; false; graph.len()]?;
    find_all(roots, &mut found);
    for _ in 0..graph.len() {
        spread(graph, &mut found);
    }
    Ok(found)
}

/// Puts the nodes of a store for some nodes last in a list, and says whether each has one.
fn push_nodes(
    kids: &[usize],
    nodes: &[Option<NodeId>],
    into: &mut Vec<NodeId>,
) -> Result<bool, NoMemory> {
    for kid in kids {
        match nodes.get(*kid) {
            Some(Some(there)) => into.push(*there)?,
            _ => return Ok(false),
        }
    }
    Ok(true)
}

/// Puts the store's node at a node.
fn put_node(nodes: &mut [Option<NodeId>], node: usize, there: Option<NodeId>) {
    if let Some(place) = nodes.get_mut(node) {
        *place = there;
    }
}

/// Adds a variable for each free leaf that was found.
fn add_leaves(
    store: &mut Store,
    graph: &Graph,
    found: &[bool],
    nodes: &mut [Option<NodeId>],
) -> Result<(), NoMemory> {
    for node in 0..graph.len() {
        if is_found(found, node) && graph.label(node).is_none() {
            let var = store.add_free()?;
            put_node(nodes, node, Some(var));
        }
    }
    Ok(())
}

/// Adds each node that was found, and whose kids all have been added, if it wasn't added before.
fn add_ready(
    alloc: Global,
    store: &mut Store,
    tree: &Tree,
    found: &[bool],
    nodes: &mut [Option<NodeId>],
) -> Result<(), NoMemory> {
    for node in 0..tree.graph.len() {
        if is_missing(found, nodes, node) {
            let added = add_one(alloc, store, tree, node, nodes)?;
            put_node(nodes, node, added);
        }
    }
    Ok(())
}

/// Adds a node over its kids, where these have been added.
fn add_one(
    alloc: Global,
    store: &mut Store,
    tree: &Tree,
    node: usize,
    nodes: &[Option<NodeId>],
) -> Result<Option<NodeId>, NoMemory> {
    match label_at(&tree.graph, node) {
        Some(label) => add_labelled(alloc, store, label, tree.kids(node), nodes),
        None => Ok(None),
    }
}

/// Adds a node with a label over kids, where these have been added.
fn add_labelled(
    alloc: Global,
    store: &mut Store,
    label: Label,
    kids: &[usize],
    nodes: &[Option<NodeId>],
) -> Result<Option<NodeId>, NoMemory> {
    let mut there = Vec::new(alloc);
    if push_nodes(kids, nodes, &mut there)? {
        add_over(store, label, &there)
    } else {
        Ok(None)
    }
}

/// Adds a variable for each node that was found and is still missing, and puts these nodes last in a list.
fn open_missing(
    store: &mut Store,
    found: &[bool],
    nodes: &mut [Option<NodeId>],
    missing: &mut Vec<usize>,
) -> Result<(), NoMemory> {
    for node in 0..found.len() {
        if is_missing(found, nodes, node) {
            let var = store.add_free()?;
            put_node(nodes, node, Some(var));
            missing.push(node)?;
        }
    }
    Ok(())
}

/// Binds the variables of nodes to nodes with their labels over their kids.
fn close(
    alloc: Global,
    store: &mut Store,
    tree: &Tree,
    missing: &[usize],
    nodes: &[Option<NodeId>],
) -> Result<(), NoMemory> {
    for node in missing {
        let made = add_one(alloc, store, tree, *node, nodes)?;
        if let (Some(Some(var)), Some(made)) = (nodes.get(*node).copied(), made) {
            bind_free(store, var, made)?;
        }
    }
    Ok(())
}

/// Adds the nodes that are on cycles or above these.
fn add_cycles(
    alloc: Global,
    store: &mut Store,
    tree: &Tree,
    found: &[bool],
    nodes: &mut [Option<NodeId>],
) -> Result<(), NoMemory> {
    let mut missing = Vec::new(alloc);
    open_missing(store, found, nodes, &mut missing)?;
    close(alloc, store, tree, &missing, nodes)
}

/// Adds the nodes that were found.
fn add_found(
    alloc: Global,
    store: &mut Store,
    tree: &Tree,
    found: &[bool],
    nodes: &mut [Option<NodeId>],
) -> Result<(), NoMemory> {
    add_leaves(store, &tree.graph, found, nodes)?;
    for _ in 0..tree.graph.len() {
        add_ready(alloc, store, tree, found, nodes)?;
    }
    add_cycles(alloc, store, tree, found, nodes)
}

/// Adds what some nodes of a tree reach to a store, and puts the store's node at each of the tree's.
fn load_at(
    alloc: Global,
    store: &mut Store,
    tree: &Tree,
    roots: &[usize],
    nodes: &mut [Option<NodeId>],
) -> Result<(), NoMemory> {
    let found = reached(alloc, &tree.graph, roots)?;
    add_found(alloc, store, tree, &found, nodes)
}

/// Adds what some nodes of a tree reach to a store, and gives the store's node for each of the tree's.
pub(crate) fn load(
    alloc: Global,
    store: &mut Store,
    tree: &Tree,
    roots: &[usize],
) -> Result<Vec<Option<NodeId>>, NoMemory> {
    let mut nodes = vec![in alloc; None; tree.graph.len()]?;
    load_at(alloc, store, tree, roots, &mut nodes)?;
    Ok(nodes)
}
