//! Rows that grow by the nodes of a tree that have none.
ghost use Rattle.std.specs.Prelude.{◌≡◌, ℕ, ◌+◌, ◌^◌, ◌<◌, ◌++◌, length, map, None, List, All, Contains, IfOk, OnOk, OnErr};
ghost use Rattle.std.specs.List.{range_with_len};
ghost use Rattle.mars_comp.specs.Components.{AreComponents};
ghost use Rattle.mars_comp.specs.declared.items.Key.{Key};
ghost use Rattle.mars_rows.specs.FreshInside.{fresh_nodes};
ghost use Rattle.mars_rows.specs.Finding.{find_row};
ghost use Rattle.mars_rows.specs.IndexInside.{Pair, HasPart, IsRowIndex, guess, rows_under, put};
ghost use Rattle.mars_rows.specs.Object.{fresh_before, fresh_rows, row_number};
ghost use Rattle.mars_rows.specs.RowsInside.{rows_of};
ghost use Rattle.mars_rows.specs.StockInside.{number_of_node, stock_rows, IsStock};
ghost use Rattle.mars_rows.specs.TreeGraph.{IsTreeGraph};

use crate::heads::heads;
use crate::index::{entries_of, look_up, put_entries};
use crate::stock::{Stock, append, place_of};
use mars_base::NoMemory;
use mars_comp::{Components, Key, components};
use mars_tree::Graph;
use std::alloc::Global;

/// The place of each node of a tree, and the nodes that have no row yet.
#[derive(Drop)]
struct Places {
    numbers: Vec<usize>,
    fresh: Vec<usize>,
}

/// The place of each node of a tree, the nodes that have no row yet, the tree's components, and one node of each component
/// that has no rows.
#[derive(Drop)]
pub(crate) struct Numbered {
    pub(crate) numbers: Vec<usize>,
    pub(crate) fresh: Vec<usize>,
    pub(crate) parts: Components,
    pub(crate) missed: Vec<usize>,
}

/// The place of a row's number, none for a number past all rows.
pub(crate) fn row_place(
    stock: &Stock,
    next: u128,
    tree: &Graph,
    node: usize,
    number: u128,
) -> Option<usize>
    requires stock { IsStock stock.now.nodes stock.now.numbers.items }
    requires below { All (λ number. number < next) stock.now.numbers.items }
    requires tree { IsTreeGraph tree.now }
    requires node_in { node < length tree.now }
    requires looked { number ≡ guess (stock_rows stock.now.nodes stock.now.numbers.items) next tree.now node }
    ensures { result ≡ find_row (rows_of stock.now.nodes) tree.now node }
{
    let _count = tree.len();
    if number < next {
        Some(place_of(&stock.numbers, number))
    } else {
        None
    }
}

/// The places of a tree's nodes among the rows; those that have no row get the next places, in their order.
fn places_of(
    alloc: Global,
    stock: &Stock,
    next: u128,
    tree: &Graph,
    looked: &[u128],
) -> Result<Places, NoMemory>
    requires stock { IsStock stock.now.nodes stock.now.numbers.items }
    requires below { All (λ number. number < next) stock.now.numbers.items }
    requires tree { IsTreeGraph tree.now }
    requires size { length looked.now ≡ length tree.now }
    requires looked { (n : ℕ) → n < length tree.now → number_of_node looked.now n ≡ guess (stock_rows stock.now.nodes stock.now.numbers.items) next tree.now n }
    requires room { length stock.now.nodes + length tree.now < 2 ^ 64 }
    ensures numbers { IfOk result (λ n. n.numbers.items ≡ map (row_number (rows_of stock.now.nodes) (length stock.now.nodes) tree.now) (range_with_len 0 (length tree.now))) }
    ensures fresh { IfOk result (λ n. n.fresh.items ≡ fresh_nodes (rows_of stock.now.nodes) tree.now (length tree.now)) }
{
    let mut numbers = Vec::new(alloc);
    let mut fresh = Vec::new(alloc);
    for node in 0..tree.len() {
        match row_place(stock, next, tree, node, looked[node]) {
            Some(row) => numbers.push(row)?,
            None => {
                numbers.push(stock.nodes.len() + fresh.len())?;
                fresh.push(node)?;
            }
        }
    }
    Ok(Places { numbers, fresh })
}

/// Finds the nodes of a tree among the rows; the others get the next places, in their order.
pub(crate) fn number_nodes(
    alloc: Global,
    stock: &Stock,
    next: u128,
    tree: &Graph,
) -> Result<Numbered, NoMemory>
    requires stock { IsStock stock.now.nodes stock.now.numbers.items }
    requires below { All (λ number. number < next) stock.now.numbers.items }
    requires index { IsRowIndex (stock_rows stock.now.nodes stock.now.numbers.items) stock.now.index.entries }
    requires tree { IsTreeGraph tree.now }
    requires room { length stock.now.nodes + length tree.now < 2 ^ 64 }
    requires enough { next + length tree.now < 2 ^ 128 }
    ensures numbers { IfOk result (λ n. n.numbers.items ≡ map (row_number (rows_of stock.now.nodes) (length stock.now.nodes) tree.now) (range_with_len 0 (length tree.now))) }
    ensures fresh { IfOk result (λ n. n.fresh.items ≡ fresh_nodes (rows_of stock.now.nodes) tree.now (length tree.now)) }
    ensures parts { IfOk result (λ n. AreComponents tree.now n.parts) }
    ensures missing { IfOk result (λ n. (m : ℕ) → m < length tree.now → find_row (stock_rows stock.now.nodes stock.now.numbers.items) tree.now m ≡ None → HasPart n.parts n.missed.items m) }
    ensures missed_in { IfOk result (λ n. All (λ m. m < length tree.now) n.missed.items) }
{
    let parts = components(alloc, tree)?;
    let heads = heads(alloc, &parts)?;
    let looked = look_up(alloc, stock, next, tree, &parts, &heads)?;
    let places = places_of(alloc, stock, next, tree, &looked.numbers)?;
    Ok(Numbered {
        numbers: places.numbers,
        fresh: places.fresh,
        parts,
        missed: looked.missed,
    })
}

/// The number at a place, where the next numbers follow those that are there.
fn number_at(numbers: &[u128], next: u128, place: usize) -> u128
    requires { next + place < length numbers.now + 2 ^ 128 }
    ensures { (count : ℕ) → place < length numbers.now + count → result ≡ number_of_node (numbers.now ++ range_with_len next count) place }
{
    if place < numbers.len() {
        numbers[place]
    } else {
        next + (place - numbers.len()) as u128
    }
}

/// The numbers at places, where the next numbers follow those that are there.
fn names_at(
    alloc: Global,
    numbers: &[u128],
    next: u128,
    places: &[usize],
) -> Result<Vec<u128>, NoMemory>
    requires { All (λ place. next + place < length numbers.now + 2 ^ 128) places.now }
    ensures { IfOk result (λ names. (count : ℕ) → All (λ place. place < length numbers.now + count) places.now → names.items ≡ map (number_of_node (numbers.now ++ range_with_len next count)) places.now) }
{
    let mut names = Vec::new(alloc);
    for place in places {
        names.push(number_at(numbers, next, *place))?;
    }
    Ok(names)
}

/// The entries that the index needs where the fresh nodes of a tree become rows under the next numbers.
pub(crate) fn new_entries(
    alloc: Global,
    stock: &Stock,
    next: u128,
    tree: &Graph,
    numbered: &Numbered,
) -> Result<Vec<(Key, Vec<u128>)>, NoMemory>
    requires stock { IsStock stock.now.nodes stock.now.numbers.items }
    requires below { All (λ number. number < next) stock.now.numbers.items }
    requires index { IsRowIndex (stock_rows stock.now.nodes stock.now.numbers.items) stock.now.index.entries }
    requires tree { IsTreeGraph tree.now }
    requires enough { next + length tree.now < 2 ^ 128 }
    requires numbers { numbered.now.numbers.items ≡ map (row_number (rows_of stock.now.nodes) (length stock.now.nodes) tree.now) (range_with_len 0 (length tree.now)) }
    requires parts { AreComponents tree.now numbered.now.parts }
    requires missing { (m : ℕ) → m < length tree.now → find_row (stock_rows stock.now.nodes stock.now.numbers.items) tree.now m ≡ None → HasPart numbered.now.parts numbered.now.missed.items m }
    requires missed_in { All (λ m. m < length tree.now) numbered.now.missed.items }
    ensures { IfOk result (λ entries. (index : List Pair) → ((key : Key) → rows_under index key ≡ put entries.items (rows_under stock.now.index.entries) key) →
        IsRowIndex (stock_rows stock.now.nodes stock.now.numbers.items ++ fresh_rows (stock_rows stock.now.nodes stock.now.numbers.items) next tree.now) index) }
{
    let names = names_at(alloc, &stock.numbers, next, &numbered.numbers)?;
    let entries = entries_of(alloc, tree, &numbered.parts, &numbered.missed, &names)?;
    Ok(entries)
}

/// Adds the nodes of a tree that have no row, under the next numbers, with their entries in the index, and gives the number
/// of the root. `NoMemory` changes nothing that callers see.
pub(crate) fn grow(
    alloc: Global,
    stock: &mut Stock,
    next: u128,
    tree: &Graph,
    numbered: &Numbered,
) -> Result<u128, NoMemory>
    requires stock { IsStock stock.old.nodes stock.old.numbers.items }
    requires below { All (λ number. number < next) stock.old.numbers.items }
    requires index { IsRowIndex (stock_rows stock.old.nodes stock.old.numbers.items) stock.old.index.entries }
    requires tree { IsTreeGraph tree.now }
    requires numbers { numbered.now.numbers.items ≡ map (row_number (rows_of stock.old.nodes) (length stock.old.nodes) tree.now) (range_with_len 0 (length tree.now)) }
    requires fresh { numbered.now.fresh.items ≡ fresh_nodes (rows_of stock.old.nodes) tree.now (length tree.now) }
    requires parts { AreComponents tree.now numbered.now.parts }
    requires missing { (m : ℕ) → m < length tree.now → find_row (stock_rows stock.old.nodes stock.old.numbers.items) tree.now m ≡ None → HasPart numbered.now.parts numbered.now.missed.items m }
    requires missed_in { All (λ m. m < length tree.now) numbered.now.missed.items }
    requires room { length stock.old.nodes + length tree.now < 2 ^ 64 }
    requires enough { next + length tree.now < 2 ^ 128 }
    ensures rows { OnOk result (stock_rows stock.new.nodes stock.new.numbers.items ≡ stock_rows stock.old.nodes stock.old.numbers.items ++ fresh_rows (stock_rows stock.old.nodes stock.old.numbers.items) next tree.now) }
    ensures stock { OnOk result (IsStock stock.new.nodes stock.new.numbers.items) }
    ensures below { OnOk result (All (λ number. number < next + fresh_before (stock_rows stock.old.nodes stock.old.numbers.items) tree.now (length tree.now)) stock.new.numbers.items) }
    ensures kept { OnOk result (All (Contains stock.new.numbers.items) stock.old.numbers.items) }
    ensures count { OnOk result (length stock.new.nodes ≡ length stock.old.nodes + fresh_before (stock_rows stock.old.nodes stock.old.numbers.items) tree.now (length tree.now)) }
    ensures root { IfOk result (λ number. number ≡ row_number (stock_rows stock.old.nodes stock.old.numbers.items) next tree.now 0) }
    ensures root_in { IfOk result (λ number. Contains stock.new.numbers.items number) }
    ensures index { OnOk result (IsRowIndex (stock_rows stock.new.nodes stock.new.numbers.items) stock.new.index.entries) }
    ensures index_before { OnErr result (stock.new.index.entries ≡ stock.old.index.entries) }
    ensures nodes_before { OnErr result (stock.new.nodes ≡ stock.old.nodes) }
    ensures numbers_before { OnErr result (stock.new.numbers.items ≡ stock.old.numbers.items) }
{
    let entries = new_entries(alloc, stock, next, tree, numbered)?;
    stock.index.reserve(entries.len())?;
    let root = append(stock, next, tree, numbered)?;
    put_entries(&mut stock.index, entries);
    Ok(root)
}
