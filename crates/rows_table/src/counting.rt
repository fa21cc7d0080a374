//! A long list of distinct numbers: `counting 1000` keeps the list, and its second half.
use crate::interning::{LIMIT, keep_root, push_counts, push_kept};
use mars_base::NoMemory;
use mars_table::Table;
use mars_tree::{Graph, Label};
use rows::{Stop, set_kid_at};
use std::alloc::Global;

/// A list of the numbers below a size: node 2k is the dot of number k, node 2k + 1 the number.
fn counting_list(alloc: Global, size: u32) -> Result<Graph, NoMemory> {
    let mut graph = Graph::new(alloc);
    for number in 0..size {
        graph.add(Label::Dot)?;
        graph.add(Label::Int(i64::from(number)))?;
    }
    graph.add(Label::Tup(0))?;
    for number in 0..size as usize {
        set_kid_at(&mut graph, 2 * number, 0, 2 * number + 1);
        set_kid_at(&mut graph, 2 * number, 1, 2 * number + 2);
    }
    Ok(graph)
}

/// Answers a row of a long list.
pub(crate) fn answer_counting(alloc: Global, rest: &str, into: &mut Vec<u8>) -> Result<(), Stop> {
    let Ok(size) = rest.parse::<u32>() else {
        return Err(Stop::OtherParts);
    };
    let graph = counting_list(alloc, size)?;
    let mut table = Table::new(alloc, LIMIT);
    let whole = keep_root(alloc, &mut table, 0, &graph, &[0])?;
    push_kept(whole, into)?;
    let half = keep_root(alloc, &mut table, 1, &graph, &[size as usize / 2 * 2])?;
    push_kept(half, into)?;
    Ok(push_counts(&table, into)?)
}
