//! Rows kept as the nodes of one graph, in the order of their numbers, with a number for each node.
ghost use Rattle.std.specs.Prelude.{◌≡◌, ◌↔◌, ℕ, ◌<◌, ◌≤◌, ◌+◌, ◌^◌, ◌++◌, length, map, IfOk, OnOk, OnErr, IsTrue, Contains, All};
ghost use Rattle.std.specs.List.{range_with_len};
ghost use Rattle.mars_rows.specs.FreshInside.{fresh_nodes};
ghost use Rattle.mars_rows.specs.Object.{fresh_before, fresh_rows, row_number};
ghost use Rattle.mars_rows.specs.RowsInside.{rows_of};
ghost use Rattle.mars_rows.specs.StockInside.{number_of_node, stock_rows, NumbersRise, IsStock};
ghost use Rattle.mars_rows.specs.TreeGraph.{IsTreeGraph};

use crate::growth::Numbered;
use indexmap::IndexMap;
use mars_base::NoMemory;
use mars_comp::Key;
use mars_tree::Graph;

/// The nodes of rows, in the order of their numbers, these numbers, and the index: a key of each component among the rows
/// leads to the numbers of the rows at its places.
#[derive(Drop)]
pub(crate) struct Stock {
    pub(crate) nodes: Graph,
    pub(crate) numbers: Vec<u128>,
    pub(crate) index: IndexMap<Key, Vec<u128>>,
}

/// Puts so many numbers, counted up from the next one, after numbers that have room for them.
fn push_next(numbers: &mut Vec<u128>, next: u128, count: usize)
    requires room { numbers.old.len + count ≤ numbers.old.cap }
    requires below { next + count < 2 ^ 128 }
    ensures { numbers.new.items ≡ numbers.old.items ++ range_with_len next count }
{
    for k in 0..count {
        numbers.push_reserved(next + k as u128);
    }
}

/// The place of a number in numbers that rise.
pub(crate) fn place_of(numbers: &[u128], number: u128) -> usize
    requires rising { NumbersRise numbers.now }
    requires there { Contains numbers.now number }
    ensures within { result < length numbers.now }
    ensures is { number_of_node numbers.now result ≡ number }
{
    match numbers.binary_search(&number) {
        Ok(place) => place,
        Err(_) => unreachable!(),
    }
}

/// Whether a number is among numbers that rise.
pub(crate) fn is_among(numbers: &[u128], number: u128) -> bool
    requires { NumbersRise numbers.now }
    ensures { IsTrue result ↔ Contains numbers.now number }
{
    match numbers.binary_search(&number) {
        Ok(_) => true,
        Err(_) => false,
    }
}

/// Adds the nodes of a tree that have no row, under the next numbers, and gives the number of the root. `NoMemory`
/// changes nothing.
pub(crate) fn append(
    stock: &mut Stock,
    next: u128,
    tree: &Graph,
    numbered: &Numbered,
) -> Result<u128, NoMemory>
    requires stock { IsStock stock.old.nodes stock.old.numbers.items }
    requires below { All (λ number. number < next) stock.old.numbers.items }
    requires tree { IsTreeGraph tree.now }
    requires numbers { numbered.now.numbers.items ≡ map (row_number (rows_of stock.old.nodes) (length stock.old.nodes) tree.now) (range_with_len 0 (length tree.now)) }
    requires fresh { numbered.now.fresh.items ≡ fresh_nodes (rows_of stock.old.nodes) tree.now (length tree.now) }
    requires room { length stock.old.nodes + length tree.now < 2 ^ 64 }
    requires enough { next + length tree.now < 2 ^ 128 }
    ensures rows { OnOk result (stock_rows stock.new.nodes stock.new.numbers.items ≡ stock_rows stock.old.nodes stock.old.numbers.items ++ fresh_rows (stock_rows stock.old.nodes stock.old.numbers.items) next tree.now) }
    ensures stock { OnOk result (IsStock stock.new.nodes stock.new.numbers.items) }
    ensures below { OnOk result (All (λ number. number < next + fresh_before (stock_rows stock.old.nodes stock.old.numbers.items) tree.now (length tree.now)) stock.new.numbers.items) }
    ensures kept { OnOk result (All (Contains stock.new.numbers.items) stock.old.numbers.items) }
    ensures count { OnOk result (length stock.new.nodes ≡ length stock.old.nodes + fresh_before (stock_rows stock.old.nodes stock.old.numbers.items) tree.now (length tree.now)) }
    ensures root { IfOk result (λ number. number ≡ row_number (stock_rows stock.old.nodes stock.old.numbers.items) next tree.now 0) }
    ensures root_in { IfOk result (λ number. Contains stock.new.numbers.items number) }
    ensures index { stock.new.index ≡ stock.old.index }
    ensures nodes_before { OnErr result (stock.new.nodes ≡ stock.old.nodes) }
    ensures numbers_before { OnErr result (stock.new.numbers.items ≡ stock.old.numbers.items) }
{
    stock.numbers.reserve(numbered.fresh.len())?;
    stock
        .nodes
        .append_renumbered(tree, &numbered.fresh, &numbered.numbers)?;
    push_next(&mut stock.numbers, next, numbered.fresh.len());
    Ok(stock.numbers[numbered.numbers[0]])
}
