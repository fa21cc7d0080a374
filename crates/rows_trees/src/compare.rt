//! Whether a smallest graph has one node for each tree, as a plain comparison finds them.
use crate::plain::pairs_apart;
use mars_base::NoMemory;
use mars_minim::{Minimal, minimise};
use mars_tree::Graph;
use rows::{Stop, are_below, kids_at, label_at};
use std::alloc::Global;
use std::collections::HashSet;

/// Adds each root with its number in the smallest graph.
fn meet_roots(
    roots: &[usize],
    others: &[usize],
    met: &mut HashSet<(usize, usize)>,
) -> Result<(), NoMemory> {
    for (place, root) in roots.iter().enumerate() {
        if let Some(other) = others.get(place) {
            let _ = met.insert((*root, *other))?;
        }
    }
    Ok(())
}

/// Adds the pairs of kids of a pair.
fn meet_kids(
    graph: &Graph,
    node: usize,
    least: &Graph,
    other: usize,
    met: &mut HashSet<(usize, usize)>,
) -> Result<(), NoMemory> {
    meet_roots(kids_at(graph, node), kids_at(least, other), met)
}

/// Adds the pairs of kids of each pair with a node that was met.
fn meet_from(
    graph: &Graph,
    node: usize,
    least: &Graph,
    met: &mut HashSet<(usize, usize)>,
) -> Result<(), NoMemory> {
    for other in 0..least.len() {
        if met.contains(&(node, other)) {
            meet_kids(graph, node, least, other, met)?;
        }
    }
    Ok(())
}

/// One round over all pairs.
fn meet_all(
    graph: &Graph,
    least: &Graph,
    met: &mut HashSet<(usize, usize)>,
) -> Result<(), NoMemory> {
    for node in 0..graph.len() {
        meet_from(graph, node, least, met)?;
    }
    Ok(())
}

/// The pairs of nodes at which a walk ends in one graph and in the other. A pair that is met is met along a walk that is
/// shorter than there are pairs.
fn pairs_met(
    alloc: Global,
    graph: &Graph,
    roots: &[usize],
    least: &Minimal,
) -> Result<HashSet<(usize, usize)>, NoMemory> {
    let mut met = HashSet::new(alloc);
    meet_roots(roots, least.roots.as_slice(), &mut met)?;
    for _ in 0..graph.len() {
        for _ in 0..least.graph.len() {
            meet_all(graph, &least.graph, &mut met)?;
        }
    }
    Ok(met)
}

/// Whether a pair and any other have one number exactly where they aren't apart.
fn fits(
    pair: (usize, usize),
    met: &HashSet<(usize, usize)>,
    apart: &HashSet<(usize, usize)>,
) -> bool {
    for other in met {
        if (pair.1 == other.1) == apart.contains(&(pair.0, other.0)) {
            return false;
        }
    }
    true
}

/// Whether each pair that was met has one label and as many kids, and fits all others.
fn ends_agree(
    graph: &Graph,
    least: &Graph,
    met: &HashSet<(usize, usize)>,
    apart: &HashSet<(usize, usize)>,
) -> bool {
    for pair in met {
        let (node, other) = *pair;
        if label_at(graph, node) != label_at(least, other)
            || kids_at(graph, node).len() != kids_at(least, other).len()
            || !fits((node, other), met, apart)
        {
            return false;
        }
    }
    true
}

/// Whether one of the nodes below a count has this number.
fn is_met(other: usize, count: usize, met: &HashSet<(usize, usize)>) -> bool {
    for node in 0..count {
        if met.contains(&(node, other)) {
            return true;
        }
    }
    false
}

/// Whether each node of the smallest graph is met.
fn all_met(least: &Graph, count: usize, met: &HashSet<(usize, usize)>) -> bool {
    for other in 0..least.len() {
        if !is_met(other, count, met) {
            return false;
        }
    }
    true
}

/// Whether the smallest graph has one node for each tree that the roots reach: walks show one label in both, and two
/// walks end at one node there exactly where they end at one tree here.
fn agrees(
    alloc: Global,
    graph: &Graph,
    roots: &[usize],
    least: &Minimal,
) -> Result<bool, NoMemory> {
    let apart = pairs_apart(alloc, graph)?;
    let met = pairs_met(alloc, graph, roots, least)?;
    Ok(
        roots.len() == least.roots.len()
            && ends_agree(graph, &least.graph, &met, &apart)
            && all_met(&least.graph, graph.len(), &met),
    )
}

/// Adds 1 to a count where the smallest graph of some roots agrees with the plain comparison.
pub fn compare(
    alloc: Global,
    graph: &Graph,
    roots: &[usize],
    agreed: &mut usize,
) -> Result<(), Stop> {
    if !are_below(roots, graph.len()) {
        return Err(Stop::NoNode);
    }
    let least = minimise(alloc, graph, roots)?;
    if agrees(alloc, graph, roots, &least)? {
        *agreed = agreed.saturating_add(1);
    }
    Ok(())
}
