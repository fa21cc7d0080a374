//! Measures the one form of trees: what `minimise` and `canon` take for a list, a ring, a ladder and a random graph.
//!
//! Without words it writes how many trees each reaches at a small size. With the words `SHAPE SIZE CALLS`, where SHAPE is
//! `list`, `ring`, `ladder` or `random`, it writes what a node of the graph costs.
mod passes;
mod shapes;

use crate::failing::no_memory;
use crate::forms::passes::{Pass, nanoseconds, trees_of_last};
use crate::forms::shapes::{Shape, make_graph};
use crate::words::Words;
use mars_base::NoMemory;
use mars_tree::Graph;
use std::alloc::Global;
use std::io;
use std::time::Clock;

/// Measures as the words say.
pub(crate) fn measure<R: Print + AllocGlobal + Clock>(rt: &R, words: Words) -> io::Result<()> {
    match read_task(words) {
        Some((shape, size, calls)) => write_times(rt, shape, size, calls),
        None => write_counts(rt),
    }
}

/// Writes how many trees each shape reaches at a small size.
fn write_counts<R: Print + AllocGlobal>(rt: &R) -> io::Result<()> {
    for shape in [Shape::List, Shape::Ring, Shape::Ladder, Shape::Random] {
        let (minimise, canon) = both_passes(rt.alloc(), shape, 1000).map_err(no_memory)?;
        println!(rt; "{shape:?}: {minimise} trees, numbered {canon}")?;
    }
    Ok(())
}

/// Writes what a node of the graph costs.
fn write_times<R: Print + AllocGlobal + Clock>(
    rt: &R,
    shape: Shape,
    size: usize,
    calls: u64,
) -> io::Result<()> {
    let graph = make_graph(rt.alloc(), shape, size).map_err(no_memory)?;
    let minimise = nanoseconds(rt, rt.alloc(), Pass::Minimise, &graph, calls)?;
    let canon = nanoseconds(rt, rt.alloc(), Pass::Canon, &graph, calls)?;
    println!(rt;
        "{shape:?} {size}: {} ns a node for minimise, {} for canon",
        a_node(minimise, &graph, calls),
        a_node(canon, &graph, calls)
    )
}

/// How many trees both passes find.
fn both_passes(alloc: Global, shape: Shape, size: usize) -> Result<(usize, usize), NoMemory> {
    let graph = make_graph(alloc, shape, size)?;
    Ok((
        trees_of_last(alloc, Pass::Minimise, &graph)?,
        trees_of_last(alloc, Pass::Canon, &graph)?,
    ))
}

/// The words as a task, where they are one.
fn read_task(words: Words) -> Option<(Shape, usize, u64)> {
    let Words {
        first,
        second,
        third,
    } = words;
    let (shape, size, calls) = (first?, second?, third?);
    let shape = match shape.as_str() {
        "list" => Shape::List,
        "ring" => Shape::Ring,
        "ladder" => Shape::Ladder,
        "random" => Shape::Random,
        _ => return None,
    };
    Some((
        shape,
        size.as_str().parse().ok()?,
        calls.as_str().parse().ok()?,
    ))
}

/// Whole nanoseconds a node of the graph and call.
fn a_node(time: u128, graph: &Graph, calls: u64) -> u64 {
    let all = (graph.len() as u64).saturating_mul(calls).max(1);
    u64::try_from(time).unwrap_or(u64::MAX) / all
}
