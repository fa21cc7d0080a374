//! Trees of rows, with names for the variables of an answer.
use mars_base::NoMemory;
use mars_tree::{Graph, NameId, Names};
use rows::{Operand, Operands, Stop, add_name, kids_at, name_at, read_operands};
use std::alloc::Global;

/// A tree as a row has it: a node of a graph, with the spellings of its names, and names for as many variables as an
/// answer can show.
#[derive(Drop)]
pub(crate) struct Tree {
    pub(crate) names: Names,
    pub(crate) graph: Graph,
    pub(crate) root: usize,
    pub(crate) shown: Vec<NameId>,
}

/// The one tree of a text.
pub(crate) fn read_tree(alloc: Global, text: &str) -> Result<Tree, Stop> {
    let mut operands = read_operands(alloc, text)?;
    let shown = shown_names(alloc, &mut operands.names)?;
    tree_of(operands, shown)
}

/// The last tree of a row.
fn tree_of(operands: Operands, shown: Vec<NameId>) -> Result<Tree, Stop> {
    let Operands { names, mut all } = operands;
    match all.pop() {
        Some(operand) => rooted_tree(names, operand, shown),
        None => Err(Stop::NoTree),
    }
}

/// A graph with its first root.
fn rooted_tree(names: Names, operand: Operand, shown: Vec<NameId>) -> Result<Tree, Stop> {
    let Operand { graph, roots } = operand;
    match roots.first().copied() {
        Some(root) => Ok(Tree {
            names,
            graph,
            root,
            shown,
        }),
        None => Err(Stop::NoTree),
    }
}

/// Names for the variables of an answer.
fn shown_names(alloc: Global, names: &mut Names) -> Result<Vec<NameId>, Stop> {
    let mut shown = Vec::new(alloc);
    push_shown(names, &mut shown)?;
    Ok(shown)
}

/// Puts names for the variables of an answer last in a list.
fn push_shown(names: &mut Names, into: &mut Vec<NameId>) -> Result<(), Stop> {
    for text in ["v1", "v2", "v3", "v4", "v5", "v6", "v7", "v8"] {
        let name = add_name(names, text.as_bytes())?;
        into.push(name)?;
    }
    Ok(())
}

impl Tree {
    /// The spelling at a node, empty where it has no name.
    pub(crate) fn name(&self, node: usize) -> &[u8] {
        name_at(&self.names, &self.graph, node)
    }

    /// The kids of a node, none where it isn't there.
    pub(crate) fn kids(&self, node: usize) -> &[usize] {
        kids_at(&self.graph, node)
    }

    /// The kid of a node at a place, where there are both.
    pub(crate) fn kid(&self, node: usize, place: usize) -> Option<usize> {
        self.kids(node).get(place).copied()
    }
}
