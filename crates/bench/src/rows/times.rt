//! What adding a tree to rows takes, the first time and again, and finding it.
ghost use Rattle.std.specs.Prelude.{◌<◌, ◌≤◌, ◌^◌, length};

use crate::failing::no_memory;
use mars_base::NoMemory;
use mars_canon::{Tree, canon};
use mars_rows::{Added, Rows};
use mars_tree::Graph;
use std::alloc::Global;
use std::io;
use std::time::{Clock, Instant};

/// The tree of the last node, where it has one that isn't too large.
pub fn tree_of_last(alloc: Global, graph: &Graph) -> Result<Option<Tree>, NoMemory> {
    match graph.len().checked_sub(1) {
        Some(root) => tree_of(alloc, graph, root),
        None => Ok(None),
    }
}

/// The tree of a node, where it isn't too large.
fn tree_of(alloc: Global, graph: &Graph, root: usize) -> Result<Option<Tree>, NoMemory>
    requires { root < length graph.now }
{
    let form = canon(alloc, graph, &[root])?;
    Tree::of(alloc, &form)
}

/// How many rows there are after a tree was added. At a number past 2^127 nothing is added.
pub fn add(rows: &mut Rows, tree: &Tree) -> Result<u64, NoMemory> {
    if rows.next_number() >= 1 << 126 {
        return Ok(0);
    }
    match rows.add(tree)? {
        Added::Root(_) => Ok(rows.counts().0),
        Added::Full {
            rows: count,
            fresh: _,
        } => Ok(count),
    }
}

/// Whether the root of a tree is a row.
pub fn is_found(rows: &Rows, tree: &Tree) -> Result<bool, NoMemory> {
    if tree.len() == 0 {
        return Ok(false);
    }
    Ok(rows.find(tree, 0)?.is_some())
}

/// What is measured: adding to no rows, adding again, and finding.
#[derive(Clone, Copy, Debug, PartialEq, Eq)]
pub struct Times {
    pub first: u128,
    pub again: u128,
    pub find: u128,
}

/// The nanoseconds of each.
pub fn time_of(clock: &impl Clock, alloc: Global, tree: &Tree) -> io::Result<Times> {
    let mut rows = Rows::new(alloc, 1_000_000);
    times_in(clock, &mut rows, tree)
}

/// The nanoseconds of each, on rows that have none.
fn times_in(clock: &impl Clock, rows: &mut Rows, tree: &Tree) -> io::Result<Times> {
    let first = time_of_add(clock, rows, tree)?;
    let again = time_of_add(clock, rows, tree)?;
    let find = time_of_find(clock, rows, tree)?;
    Ok(Times { first, again, find })
}

/// The nanoseconds of adding a tree.
fn time_of_add(clock: &impl Clock, rows: &mut Rows, tree: &Tree) -> io::Result<u128> {
    let start = Instant::now(clock)?;
    let _count = add(rows, tree).map_err(no_memory)?;
    Ok(start.elapsed(clock)?.as_nanos())
}

/// The nanoseconds of finding a tree.
fn time_of_find(clock: &impl Clock, rows: &Rows, tree: &Tree) -> io::Result<u128> {
    let start = Instant::now(clock)?;
    let _found = is_found(rows, tree).map_err(no_memory)?;
    Ok(start.elapsed(clock)?.as_nanos())
}
