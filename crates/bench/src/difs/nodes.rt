//! The nodes of the workloads.
use mars_base::NoMemory;
use mars_store::{NodeId, Store};
use mars_tree::{Label, NameId};
use rand_core::utils::NextWord;
use rand_pcg::Pcg32;
use std::alloc::Global;

const PAIR: Label = Label::Name {
    name: NameId(13),
    arity: 2,
};

/// So many variables.
pub(crate) fn variables(
    alloc: Global,
    store: &mut Store,
    count: usize,
) -> Result<Vec<NodeId>, NoMemory> {
    let mut nodes = Vec::new(alloc);
    for _ in 0..count {
        nodes.push(store.add_free()?)?;
    }
    Ok(nodes)
}

/// So many names, which differ.
pub(crate) fn names(
    alloc: Global,
    store: &mut Store,
    count: usize,
) -> Result<Vec<NodeId>, NoMemory> {
    let mut nodes = Vec::new(alloc);
    for k in 0..count {
        let name = NameId(u32::try_from(k).unwrap_or(0).saturating_add(20));
        nodes.push(store.add(Label::Name { name, arity: 0 }, &[])?)?;
    }
    Ok(nodes)
}

/// A node over two others, where these are there, and else a variable.
pub(crate) fn pair(store: &mut Store, a: NodeId, b: NodeId) -> Result<NodeId, NoMemory> {
    let nodes = store.mark().nodes;
    if a.number() < nodes && b.number() < nodes {
        store.add(PAIR, &[a, b])
    } else {
        store.add_free()
    }
}

/// A node over each node and another.
pub(crate) fn pairs(
    alloc: Global,
    store: &mut Store,
    nodes: &[NodeId],
    other: NodeId,
) -> Result<Vec<NodeId>, NoMemory> {
    let mut made = Vec::new(alloc);
    for &node in nodes {
        made.push(pair(store, node, other)?)?;
    }
    Ok(made)
}

/// Six variables, two names, and some nodes over two random ones each.
pub(crate) fn draw_nodes(
    alloc: Global,
    store: &mut Store,
    words: &mut Pcg32,
) -> Result<Vec<NodeId>, NoMemory> {
    let mut nodes = variables(alloc, store, 6)?;
    let more = names(alloc, store, 2)?;
    nodes.extend_from_slice(&more)?;
    for _ in 0..words.next_word() % 8 {
        let a = draw_one(&nodes, words);
        let b = draw_one(&nodes, words);
        nodes.push(pair(store, a, b)?)?;
    }
    Ok(nodes)
}

/// One of the nodes, by a random word.
pub(crate) fn draw_one(nodes: &[NodeId], words: &mut Pcg32) -> NodeId {
    let place = words.next_word() as usize % nodes.len().max(1);
    nodes.get(place).copied().unwrap_or_default()
}
