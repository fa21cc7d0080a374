//! Rows `canon TREE`, the canonical text of a tree, and `print VARIABLES : INEQUATIONS FROZEN : TREE`, the text of an answer
//! with the roots of a tree.
use mars_canon::Canon;
use mars_print::print_roots;
use mars_tree::{NameId, Names};
use rows::{Operands, Stop, add_name, canon_of, push_tree, read_numbers, read_operands};
use std::alloc::Global;

/// The names of variables.
fn names_of(alloc: Global, names: &mut Names, words: &str) -> Result<Vec<NameId>, Stop> {
    let mut ids = Vec::new(alloc);
    for word in words.split_whitespace() {
        ids.push(add_name(names, word.as_bytes())?)?;
    }
    Ok(ids)
}

/// How many inequations and frozen pairs a row has.
fn read_counts(alloc: Global, text: &str) -> Result<(usize, usize), Stop> {
    let counts = read_numbers(alloc, text)?;
    match counts.as_slice() {
        [difs, frozen] => Ok((*difs, *frozen)),
        _ => Err(Stop::OtherParts),
    }
}

/// Writes the text of an answer with the roots of a canonical graph, where these are as many as are wanted.
fn push_roots_of(
    names: &Names,
    canon: &Canon,
    vars: &[NameId],
    counts: (usize, usize),
    into: &mut Vec<u8>,
) -> Result<(), Stop> {
    let (difs, frozen) = counts;
    if difs > 100 || frozen > 100 || vars.len() > 100 {
        return Err(Stop::TooMany);
    }
    if canon.roots().len() != vars.len() + 2 * difs + 2 * frozen {
        return Err(Stop::OtherParts);
    }
    Ok(print_roots(names, canon, vars, difs, frozen, into)?)
}

/// Writes the text of an answer with the roots of the one tree of a row.
fn push_answer(
    alloc: Global,
    trees: &Operands,
    vars: &[NameId],
    counts: (usize, usize),
    into: &mut Vec<u8>,
) -> Result<(), Stop> {
    let [tree] = trees.all.as_slice() else {
        return Err(Stop::OtherParts);
    };
    let canon = canon_of(alloc, &tree.graph, &tree.roots)?;
    push_roots_of(&trees.names, &canon, vars, counts, into)
}

/// Answers a row whose parts have been told apart.
fn answer_parts(
    alloc: Global,
    words: &str,
    counts: (usize, usize),
    tree: &str,
    into: &mut Vec<u8>,
) -> Result<(), Stop> {
    let mut trees = read_operands(alloc, tree)?;
    let vars = names_of(alloc, &mut trees.names, words)?;
    push_answer(alloc, &trees, &vars, counts, into)
}

/// Answers with the text of an answer.
pub fn answer_print(alloc: Global, rest: &str, into: &mut Vec<u8>) -> Result<(), Stop> {
    let Some((words, rest)) = rest.split_once(':') else {
        return Err(Stop::OtherParts);
    };
    let Some((counts, tree)) = rest.split_once(':') else {
        return Err(Stop::OtherParts);
    };
    let counts = read_counts(alloc, counts)?;
    answer_parts(alloc, words, counts, tree, into)
}

/// Writes the canonical text of the one tree of a row.
fn push_one(alloc: Global, trees: &Operands, into: &mut Vec<u8>) -> Result<(), Stop> {
    let [tree] = trees.all.as_slice() else {
        return Err(Stop::OtherParts);
    };
    push_tree(alloc, &trees.names, tree, into)
}

/// Answers with the canonical text of a tree.
pub fn answer_canon(alloc: Global, rest: &str, into: &mut Vec<u8>) -> Result<(), Stop> {
    let trees = read_operands(alloc, rest)?;
    push_one(alloc, &trees, into)
}
