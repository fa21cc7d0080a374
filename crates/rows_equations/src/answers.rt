//! Answers of a store, as text.
ghost use Rattle.std.specs.Prelude.{◌<◌, IsTrue, All};
ghost use Rattle.mars_answer.specs.Answer.{ArePairsInside};

use crate::building::are_inside;
use crate::reading::Tree;
use crate::world::World;
use crate::writing::{put, put_number};
use mars_answer::{Answer, answer};
use mars_base::NoMemory;
use mars_canon::Canon;
use mars_print::{print_roots, print_tree};
use mars_store::{NodeId, Store};
use std::alloc::Global;

/// Whether both nodes of all pairs have numbers below a count.
fn are_pairs_below(pairs: &[(NodeId, NodeId)], count: usize) -> bool
    ensures { IsTrue result → All (λ pair. (pair.0 < count) × (pair.1 < count)) pairs.now }
{
    for pair in pairs {
        if pair.0.number() >= count || pair.1.number() >= count {
            return false;
        }
    }
    true
}

/// Whether a store has both nodes of all pairs.
fn are_pairs_inside(store: &Store, pairs: &[(NodeId, NodeId)]) -> bool
    ensures { IsTrue result → All (ArePairsInside store.now) pairs.now }
{
    are_pairs_below(pairs, store.mark().nodes)
}

/// What an answer is asked of.
#[derive(Drop)]
pub(crate) struct Asked {
    pub(crate) vars: Vec<NodeId>,
    pub(crate) difs: Vec<(NodeId, NodeId)>,
    pub(crate) frozen: Vec<(NodeId, NodeId)>,
}

impl Asked {
    /// Of nothing.
    pub(crate) fn nothing(alloc: Global) -> Asked {
        Asked {
            vars: Vec::new(alloc),
            difs: Vec::new(alloc),
            frozen: Vec::new(alloc),
        }
    }
}

/// The answer of what is asked, where the store has all nodes.
fn told(world: &World, asked: &Asked) -> Result<Option<Answer>, NoMemory> {
    let store = &world.store;
    if !are_inside(store, &asked.vars)
        || !are_pairs_inside(store, &asked.difs)
        || !are_pairs_inside(store, &asked.frozen)
    {
        return Ok(None);
    }
    let told = answer(world.alloc, store, &asked.vars, &asked.difs, &asked.frozen)?;
    Ok(Some(told))
}

/// Writes the answer of what is asked, its variables under the names `v1`, `v2` and so on.
pub(crate) fn put_answer(
    world: &World,
    tree: &Tree,
    asked: &Asked,
    into: &mut Vec<u8>,
) -> Result<(), NoMemory> {
    match told(world, asked)? {
        Some(told) => put_told(tree, &told, into),
        None => put(into, "?"),
    }
}

/// Writes an answer.
pub(crate) fn put_told(tree: &Tree, told: &Answer, into: &mut Vec<u8>) -> Result<(), NoMemory> {
    match tree.shown.get(..told.vars) {
        Some(shown) if shown.len() == told.vars => print_roots(
            &tree.names,
            &told.canon,
            shown,
            told.difs,
            told.frozen,
            into,
        ),
        _ => put(into, "?"),
    }
}

/// Writes the inequations that wait.
pub(crate) fn put_waiting(world: &World, tree: &Tree, into: &mut Vec<u8>) -> Result<(), NoMemory> {
    if world.difs.waiting().is_empty() {
        return put(into, "none waits");
    }
    let mut asked = Asked::nothing(world.alloc);
    asked.difs.extend_from_slice(world.difs.waiting())?;
    put_answer(world, tree, &asked, into)
}

/// Writes each tree of an answer alone.
pub(crate) fn put_trees(
    world: &World,
    tree: &Tree,
    asked: &Asked,
    into: &mut Vec<u8>,
) -> Result<(), NoMemory> {
    match told(world, asked)? {
        Some(told) => put_all_trees(tree, &told, into),
        None => put(into, "?"),
    }
}

/// Writes each tree of an answer.
fn put_all_trees(tree: &Tree, told: &Answer, into: &mut Vec<u8>) -> Result<(), NoMemory> {
    for var in 0..told.vars {
        put(into, if var == 0 { "" } else { " and " })?;
        put_canon(tree, &told.tree_of(var)?, into)?;
    }
    Ok(())
}

/// Writes a tree.
fn put_canon(tree: &Tree, canon: &Canon, into: &mut Vec<u8>) -> Result<(), NoMemory> {
    if canon.roots().len() == 1 {
        print_tree(&tree.names, canon, into)
    } else {
        Ok(())
    }
}

/// Writes what an answer has, and which of its nodes its roots are.
pub(crate) fn put_shape(world: &World, asked: &Asked, into: &mut Vec<u8>) -> Result<(), NoMemory> {
    match told(world, asked)? {
        Some(told) => put_shape_of(&told, into),
        None => put(into, "?"),
    }
}

/// Writes what an answer has.
fn put_shape_of(told: &Answer, into: &mut Vec<u8>) -> Result<(), NoMemory> {
    put_number(into, "vars ", told.vars)?;
    put_number(into, ", difs ", told.difs)?;
    put_number(into, ", frozen ", told.frozen)?;
    put_number(into, ", nodes ", told.canon.len())?;
    put(into, ", roots")?;
    for root in told.canon.roots() {
        put_number(into, " ", *root)?;
    }
    Ok(())
}
