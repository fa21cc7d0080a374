//! Texts of canonical graphs.
use crate::graphs::canon_of;
use crate::operands::Operand;
use crate::stopping::Stop;
use mars_canon::Canon;
use mars_print::print_tree;
use mars_tree::Names;
use std::alloc::Global;

/// Writes the text of a canonical graph with one root.
pub fn push_text(names: &Names, canon: &Canon, into: &mut Vec<u8>) -> Result<(), Stop> {
    if canon.roots().len() != 1 {
        return Err(Stop::OtherParts);
    }
    Ok(print_tree(names, canon, into)?)
}

/// Writes the canonical text of a tree.
pub fn push_tree(
    alloc: Global,
    names: &Names,
    tree: &Operand,
    into: &mut Vec<u8>,
) -> Result<(), Stop> {
    let canon = canon_of(alloc, &tree.graph, &tree.roots)?;
    push_text(names, &canon, into)
}
