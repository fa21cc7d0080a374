//! Measures rows: what adding a tree to no rows takes, adding it again, and finding it, for lists, combs, rings, ladders,
//! de Bruijn graphs and random graphs.
//!
//! Without words it writes how many rows each makes at a small size. With the words `SHAPE SIZE`, where SHAPE is one of
//! those that `read_task` names, it writes microseconds.
mod shapes;
mod times;

use crate::failing::no_memory;
use crate::rows::shapes::{Shape, make_graph};
use crate::rows::times::{add, is_found, time_of, tree_of_last};
use crate::words::Words;
use mars_base::NoMemory;
use mars_canon::Tree;
use mars_rows::Rows;
use std::alloc::Global;
use std::io;
use std::time::Clock;

/// Measures as the words say.
pub(crate) fn measure<R: Print + AllocGlobal + Clock>(rt: &R, words: Words) -> io::Result<()> {
    match read_task(words) {
        Some((shape, size)) => write_times(rt, shape, size),
        None => write_counts(rt),
    }
}

/// Writes how many rows each shape makes at a small size.
fn write_counts<R: Print + AllocGlobal>(rt: &R) -> io::Result<()> {
    for shape in [
        Shape::List,
        Shape::Comb,
        Shape::Ring,
        Shape::Different,
        Shape::Fibonacci,
        Shape::DeBruijn,
        Shape::Ladder,
    ] {
        let (first, again, found) = counts(rt.alloc(), shape, 500).map_err(no_memory)?;
        println!(rt; "{shape:?}: {first} rows, again {again}, found {found}")?;
    }
    Ok(())
}

/// Writes what the tree of a shape takes.
fn write_times<R: Print + AllocGlobal + Clock>(
    rt: &R,
    shape: Shape,
    size: usize,
) -> io::Result<()> {
    let tree = make_tree(rt.alloc(), shape, size).map_err(no_memory)?;
    match &tree {
        Some(tree) => write_tree(rt, shape, size, tree),
        None => println!(rt; "{shape:?} {size}: too large"),
    }
}

/// Writes what a tree takes.
fn write_tree<R: Print + AllocGlobal + Clock>(
    rt: &R,
    shape: Shape,
    size: usize,
    tree: &Tree,
) -> io::Result<()> {
    let times = time_of(rt, rt.alloc(), tree)?;
    println!(rt;
        "{shape:?} {size}: {} nodes, first {} us, again {} us, find {} us",
        tree.len(),
        times.first / 1000,
        times.again / 1000,
        times.find / 1000
    )
}

/// The tree of a shape, where it isn't too large.
fn make_tree(alloc: Global, shape: Shape, size: usize) -> Result<Option<Tree>, NoMemory> {
    let graph = make_graph(alloc, shape, size)?;
    tree_of_last(alloc, &graph)
}

/// How many rows there are after a tree was added once and twice, and whether it is found then.
fn counts(alloc: Global, shape: Shape, size: usize) -> Result<(u64, u64, bool), NoMemory> {
    match make_tree(alloc, shape, size)? {
        Some(tree) => counts_of(alloc, &tree),
        None => Ok((0, 0, false)),
    }
}

/// The same of a tree.
fn counts_of(alloc: Global, tree: &Tree) -> Result<(u64, u64, bool), NoMemory> {
    let mut rows = Rows::new(alloc, 1_000_000);
    counts_in(&mut rows, tree)
}

/// The same of a tree on rows that have none.
fn counts_in(rows: &mut Rows, tree: &Tree) -> Result<(u64, u64, bool), NoMemory> {
    let first = add(rows, tree)?;
    let again = add(rows, tree)?;
    let found = is_found(rows, tree)?;
    Ok((first, again, found))
}

/// The words as a task, where they are one.
fn read_task(words: Words) -> Option<(Shape, usize)> {
    let Words { first, second, .. } = words;
    let (shape, size) = (first?, second?);
    let shape = match shape.as_str() {
        "list" => Shape::List,
        "comb" => Shape::Comb,
        "ring" => Shape::Ring,
        "different" => Shape::Different,
        "fibonacci" => Shape::Fibonacci,
        "debruijn" => Shape::DeBruijn,
        "ladder" => Shape::Ladder,
        "random" => Shape::Random,
        _ => return None,
    };
    Some((shape, size.as_str().parse().ok()?))
}
