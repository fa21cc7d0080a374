//! A graph that is printed, read and made canonical again.
use mars_base::NoMemory;
use mars_canon::{Canon, canon};
use mars_print::print_tree;
use mars_read::{ReadError, read_tree};
use mars_tree::{Graph, Names};
use std::alloc::Global;

/// What became of a graph.
#[derive(Clone, Copy, Debug, PartialEq, Eq)]
pub enum Trip {
    /// Its text has so many bytes, and was read back to the same graph under the same names.
    Same { bytes: usize },
    /// Its text was read as another graph, or with other names.
    Other { bytes: usize },
    /// Its text was refused.
    Refused { bytes: usize, error: ReadError },
    /// The root isn't in the graph.
    NoRoot,
}

/// Prints the tree of a node, reads the text, and compares.
pub fn round_trip(
    alloc: Global,
    names: &mut Names,
    graph: &Graph,
    root: usize,
) -> Result<Trip, NoMemory> {
    if root >= graph.len() {
        return Ok(Trip::NoRoot);
    }
    let printed = canon(alloc, graph, &[root])?;
    if printed.roots().len() != 1 {
        return Ok(Trip::NoRoot);
    }
    let mut text = Vec::new(alloc);
    print_tree(names, &printed, &mut text)?;
    read_again(alloc, names, &text, &printed)
}

/// A text that is read again has at most so many bytes, and there are at most so many names.
const MOST: usize = 1_000_000_000;

/// Reads a text, and compares its graph with the one that was printed.
fn read_again(
    alloc: Global,
    names: &mut Names,
    text: &[u8],
    printed: &Canon,
) -> Result<Trip, NoMemory> {
    let bytes = text.len();
    let before = names.len();
    if bytes > MOST || before > MOST {
        return Ok(Trip::Other { bytes });
    }
    match read_tree(alloc, text, names) {
        Ok((graph, root)) => {
            let read = canon(alloc, &graph, &[root])?;
            if names.len() == before && read == *printed {
                Ok(Trip::Same { bytes })
            } else {
                Ok(Trip::Other { bytes })
            }
        }
        Err(error) => Ok(Trip::Refused { bytes, error }),
    }
}
