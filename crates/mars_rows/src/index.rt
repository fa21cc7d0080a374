//! The index of rows: a key of each component among them leads to the numbers of its rows.
ghost use Rattle.std.specs.Prelude.{◌≡◌, ℕ, ◌<◌, ◌≤◌, ◌+◌, ◌^◌, length, map, IfOk, All, slice_get, Some};
ghost use Rattle.std.specs.List.{range_with_len};
ghost use Rattle.indexmap.specs.IndexMap.{spare};
ghost use Rattle.mars_comp.specs.Components.{AreComponents};
ghost use Rattle.mars_comp.specs.KeyLaws.{IsParted};
ghost use Rattle.mars_comp.specs.declared.items.Key.{Key};
ghost use Rattle.mars_rows.specs.Finding.{find_row};
ghost use Rattle.mars_rows.specs.StockInside.{stock_rows, IsStock};
ghost use Rattle.mars_rows.specs.TreeGraph.{IsTreeGraph};
ghost use Rattle.mars_rows.specs.IndexInside.{Pair, rows_under, number_for, put, IsRowIndex, AreHeads, IsMade, PutsNumbers, IsLookedUp, IsLooked, AreMade, KidsGuessed};

use crate::heads::heads;
use crate::stock::Stock;
use indexmap::IndexMap;
use mars_base::NoMemory;
use mars_comp::{Components, Key, components};
use mars_first::first;
use mars_tree::Graph;
use std::alloc::Global;

/// The number of each node's row, or one past all rows, and a node of each component that has no rows.
#[derive(Drop)]
pub(crate) struct Looked {
    pub(crate) numbers: Vec<u128>,
    pub(crate) missed: Vec<usize>,
}

/// A number past all rows for each node.
fn past_rows(alloc: Global, next: u128, count: usize) -> Result<Vec<u128>, NoMemory>
    requires { next + count < 2 ^ 128 }
    ensures { IfOk result (λ numbers. numbers.items ≡ range_with_len next count) }
{
    let mut numbers = Vec::new(alloc);
    for node in 0..count {
        numbers.push(next + node as u128)?;
    }
    Ok(numbers)
}

/// Gives nodes the numbers at their places.
fn put_numbers(numbers: &mut Vec<u128>, nodes: &[usize], rows: &[u128])
    requires within { All (λ n. n < length numbers.old.items) nodes.now }
    requires count { length nodes.now ≡ length rows.now }
    ensures { PutsNumbers nodes.now rows.now (length nodes.now) numbers.old.items numbers.new.items }
{
    for place in 0..nodes.len() {
        numbers[nodes[place]] = rows[place];
    }
}

/// Looks up the component of a node, whose kids outside were looked up before.
fn look_up_part(
    alloc: Global,
    stock: &Stock,
    tree: &Graph,
    parts: &Components,
    head: usize,
    numbers: &mut Vec<u128>,
) -> Result<bool, NoMemory>
    requires stock { IsStock stock.now.nodes stock.now.numbers.items }
    requires index { IsRowIndex (stock_rows stock.now.nodes stock.now.numbers.items) stock.now.index.entries }
    requires tree { IsTreeGraph tree.now }
    requires parts { AreComponents tree.now parts.now }
    requires head_in { head < length tree.now }
    requires size { length numbers.old.items ≡ length tree.now }
    requires kids { KidsGuessed (stock_rows stock.now.nodes stock.now.numbers.items) tree.now parts.now head numbers.old.items }
    ensures { IfOk result (λ found. IsLooked (stock_rows stock.now.nodes stock.now.numbers.items) tree.now parts.now head found numbers.old.items numbers.new.items) }
{
    let made = first(alloc, tree, parts, head, numbers)?;
    match stock.index.get(&made.key) {
        Some(rows) => {
            put_numbers(numbers, &made.nodes, rows);
            Ok(true)
        }
        None => Ok(false),
    }
}

/// Looks up the components of a tree among the rows, children first.
pub(crate) fn look_up(
    alloc: Global,
    stock: &Stock,
    next: u128,
    tree: &Graph,
    parts: &Components,
    heads: &[usize],
) -> Result<Looked, NoMemory>
    requires stock { IsStock stock.now.nodes stock.now.numbers.items }
    requires below { All (λ number. number < next) stock.now.numbers.items }
    requires index { IsRowIndex (stock_rows stock.now.nodes stock.now.numbers.items) stock.now.index.entries }
    requires tree { IsTreeGraph tree.now }
    requires parts { AreComponents tree.now parts.now }
    requires heads { AreHeads parts.now heads.now }
    requires enough { next + length tree.now < 2 ^ 128 }
    ensures { IfOk result (λ looked. IsLookedUp (stock_rows stock.now.nodes stock.now.numbers.items) next tree.now parts.now heads.now (length heads.now) looked.numbers.items looked.missed.items) }
{
    let mut numbers = past_rows(alloc, next, tree.len())?;
    let mut missed = Vec::new(alloc);
    for place in 0..heads.len() {
        if !look_up_part(alloc, stock, tree, parts, heads[place], &mut numbers)? {
            missed.push(heads[place])?;
        }
    }
    Ok(Looked { numbers, missed })
}

/// The numbers of nodes.
fn numbers_at(alloc: Global, names: &[u128], nodes: &[usize]) -> Result<Vec<u128>, NoMemory>
    requires { All (λ n. n < length names.now) nodes.now }
    ensures { IfOk result (λ numbers. numbers.items ≡ map (number_for names.now) nodes.now) }
{
    let mut numbers = Vec::with_capacity(alloc, nodes.len())?;
    for node in nodes {
        numbers.push_reserved(names[*node]);
    }
    Ok(numbers)
}

/// The key of a node's component, with the numbers of the nodes at its places.
fn entry_of(
    alloc: Global,
    graph: &Graph,
    parts: &Components,
    head: usize,
    names: &[u128],
) -> Result<(Key, Vec<u128>), NoMemory>
    requires parted { IsParted graph.now parts.now }
    requires names { length names.now ≡ length graph.now }
    requires head_in { head < length graph.now }
    ensures { IfOk result (λ entry. IsMade graph.now parts.now names.now head entry.0.items.items entry.1.items) }
{
    let made = first(alloc, graph, parts, head, names)?;
    let numbers = numbers_at(alloc, names, &made.nodes)?;
    Ok((made.key, numbers))
}

/// The key of each head's component, with the numbers of the nodes at its places.
pub(crate) fn entries_of(
    alloc: Global,
    graph: &Graph,
    parts: &Components,
    heads: &[usize],
    names: &[u128],
) -> Result<Vec<(Key, Vec<u128>)>, NoMemory>
    requires parted { IsParted graph.now parts.now }
    requires names { length names.now ≡ length graph.now }
    requires heads_in { All (λ n. n < length graph.now) heads.now }
    ensures { IfOk result (λ entries. AreMade graph.now parts.now names.now heads.now entries.items) }
{
    let mut entries = Vec::new(alloc);
    for head in heads {
        entries.push(entry_of(alloc, graph, parts, *head, names)?)?;
    }
    Ok(entries)
}

/// Puts entries into the index, which has room for them. Takes no memory.
pub(crate) fn put_entries(index: &mut IndexMap<Key, Vec<u128>>, entries: Vec<(Key, Vec<u128>)>)
    requires { length entries.items ≤ spare index.old }
    ensures { (key : Key) → rows_under index.new.entries key ≡ put entries.items (rows_under index.old.entries) key }
{
    let mut rest = entries;
    while let Some((key, numbers)) = rest.pop() {
        match index.insert(key, numbers) {
            Ok(_) => {}
            Err(_) => unreachable!(),
        }
    }
}

/// The index of rows that are the nodes of a graph under numbers.
pub(crate) fn index_of(
    alloc: Global,
    nodes: &Graph,
    numbers: &[u128],
) -> Result<IndexMap<Key, Vec<u128>>, NoMemory>
    requires { IsStock nodes.now numbers.now }
    ensures { IfOk result (λ index. IsRowIndex (stock_rows nodes.now numbers.now) index.entries) }
{
    let parts = components(alloc, nodes)?;
    let heads = heads(alloc, &parts)?;
    let entries = entries_of(alloc, nodes, &parts, &heads, numbers)?;
    let mut index = IndexMap::new(alloc);
    index.reserve(entries.len())?;
    put_entries(&mut index, entries);
    Ok(index)
}

/// The number of the row that is the tree of a node.
pub(crate) fn find_number(
    alloc: Global,
    stock: &Stock,
    next: u128,
    tree: &Graph,
    node: usize,
) -> Result<Option<u128>, NoMemory>
    requires stock { IsStock stock.now.nodes stock.now.numbers.items }
    requires below { All (λ number. number < next) stock.now.numbers.items }
    requires index { IsRowIndex (stock_rows stock.now.nodes stock.now.numbers.items) stock.now.index.entries }
    requires tree { IsTreeGraph tree.now }
    requires node_in { node < length tree.now }
    requires enough { next + length tree.now < 2 ^ 128 }
    ensures { IfOk result (λ found. found ≡ find_row (stock_rows stock.now.nodes stock.now.numbers.items) tree.now node) }
{
    let parts = components(alloc, tree)?;
    let heads = heads(alloc, &parts)?;
    let looked = look_up(alloc, stock, next, tree, &parts, &heads)?;
    let number = looked.numbers[node];
    if number < next {
        Ok(Some(number))
    } else {
        Ok(None)
    }
}
