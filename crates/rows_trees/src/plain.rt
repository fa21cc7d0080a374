//! The plain comparison of all pairs of nodes, beside which smallest graphs are held.
use mars_base::NoMemory;
use mars_tree::Graph;
use rows::{kids_at, label_at};
use std::alloc::Global;
use std::collections::HashSet;

/// Whether two nodes show the same: one label, or one free leaf.
fn show_alike(graph: &Graph, left: usize, right: usize) -> bool {
    let label = label_at(graph, left);
    label == label_at(graph, right) && (label.is_some() || left == right)
}

/// Whether a pair of kids at one place is apart.
fn are_kids_apart(
    graph: &Graph,
    left: usize,
    right: usize,
    apart: &HashSet<(usize, usize)>,
) -> bool {
    let others = kids_at(graph, right);
    for (place, kid) in kids_at(graph, left).iter().enumerate() {
        if let Some(other) = others.get(place)
            && apart.contains(&(*kid, *other))
        {
            return true;
        }
    }
    false
}

/// Adds each pair with a node whose sides show different things, or whose kids are apart.
fn part_from(
    graph: &Graph,
    left: usize,
    apart: &mut HashSet<(usize, usize)>,
) -> Result<(), NoMemory> {
    for right in 0..graph.len() {
        if !show_alike(graph, left, right) || are_kids_apart(graph, left, right, apart) {
            let _ = apart.insert((left, right))?;
        }
    }
    Ok(())
}

/// One round over all pairs.
fn part_all(graph: &Graph, apart: &mut HashSet<(usize, usize)>) -> Result<(), NoMemory> {
    for left in 0..graph.len() {
        part_from(graph, left, apart)?;
    }
    Ok(())
}

/// The pairs of nodes that aren't the same tree. After as many rounds as there are nodes no round adds a pair.
pub fn pairs_apart(alloc: Global, graph: &Graph) -> Result<HashSet<(usize, usize)>, NoMemory> {
    let mut apart = HashSet::new(alloc);
    for _ in 0..graph.len() {
        part_all(graph, &mut apart)?;
    }
    Ok(apart)
}
