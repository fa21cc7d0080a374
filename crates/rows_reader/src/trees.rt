//! The texts of trees and of goals.
use crate::terms::push_ask_terms;
use mars_read::{read_goals, read_tree};
use mars_tree::{Graph, Names};
use rows::{Stop, canon_of, push_refusal, push_text};
use std::alloc::Global;

/// A text has at most so many bytes, and there are at most so many names.
const MOST: usize = 1_000_000_000;

/// Reads the text of a tree, and writes the tree.
pub fn answer_tree(alloc: Global, bytes: &[u8], into: &mut Vec<u8>) -> Result<(), Stop> {
    let mut names = Names::new(alloc);
    if bytes.len() > MOST || names.len() > MOST {
        return Err(Stop::TooMany);
    }
    match read_tree(alloc, bytes, &mut names) {
        Ok((graph, root)) => push_read(alloc, &names, &graph, root, into),
        Err(error) => push_refusal(error, into),
    }
}

/// Reads the goals of an ask, and writes the ask.
pub fn answer_goals(alloc: Global, bytes: &[u8], into: &mut Vec<u8>) -> Result<(), Stop> {
    let mut names = Names::new(alloc);
    if bytes.len() > MOST || names.len() > MOST {
        return Err(Stop::TooMany);
    }
    match read_goals(alloc, bytes, &mut names) {
        Ok(ask) => push_ask_terms(alloc, &names, &ask, into),
        Err(error) => push_refusal(error, into),
    }
}

/// Writes the tree of a node.
fn push_read(
    alloc: Global,
    names: &Names,
    graph: &Graph,
    root: usize,
    into: &mut Vec<u8>,
) -> Result<(), Stop> {
    let canon = canon_of(alloc, graph, &[root])?;
    push_text(names, &canon, into)
}
