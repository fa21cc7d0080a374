//! Rows on the one form of trees: smallest graphs, canonical graphs and trees.
use crate::{canonical, smallest};
use mars_tree::Names;
use rows::{Operand, Stop, read_operands};
use std::alloc::Global;

/// The answer of a row that writes trees.
pub fn answer_trees(alloc: Global, word: &str, rest: &str, into: &mut Vec<u8>) -> Result<(), Stop> {
    let trees = read_operands(alloc, rest)?;
    answer_on(alloc, word, &trees.names, &trees.all, into)
}

/// The answer of a row on trees.
fn answer_on(
    alloc: Global,
    word: &str,
    names: &Names,
    trees: &[Operand],
    into: &mut Vec<u8>,
) -> Result<(), Stop> {
    match trees {
        [tree] => answer_one(alloc, word, names, tree, into),
        [left, right] => canonical::answer_pair(alloc, word, left, right, into),
        _ => Err(Stop::OtherParts),
    }
}

/// The answer of a row on one tree.
fn answer_one(
    alloc: Global,
    word: &str,
    names: &Names,
    tree: &Operand,
    into: &mut Vec<u8>,
) -> Result<(), Stop> {
    if word == "least" {
        return smallest::answer_least(alloc, names, tree, into);
    }
    let canon = canonical::form_of(alloc, tree)?;
    canonical::answer_form(alloc, word, names, &canon, into)
}
