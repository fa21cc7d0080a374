//! The sweep by marks: the rows that walks from pins meet, as rows of their own.
ghost use Rattle.std.specs.Prelude.{◌≡◌, ℕ, ◌<◌, ◌≤◌, length, map, IfOk, OnOk, Contains, All, nat_eq, slice_index_or, filter, false};
ghost use Rattle.std.specs.List.{list_any, range_with_len};
ghost use Rattle.mars_reach.specs.Order.{IsReach};
ghost use Rattle.mars_rows.specs.IndexInside.{IsRowIndex};
ghost use Rattle.mars_rows.specs.Object.{is_met};
ghost use Rattle.mars_rows.specs.StockInside.{number_of_node, stock_rows, NumbersRise, AreKept, IsStock, in_order};

use crate::index::index_of;
use crate::stock::{Stock, place_of};
use mars_base::NoMemory;
use mars_reach::{Order, part, reached};
use mars_tree::Graph;
use std::alloc::Global;

/// The places of pinned rows.
fn roots_of(alloc: Global, numbers: &[u128], pins: &[(u32, u128)]) -> Result<Vec<usize>, NoMemory>
    requires rising { NumbersRise numbers.now }
    requires pinned { All (λ pin. Contains numbers.now pin.1) pins.now }
    ensures within { IfOk result (λ roots. All (λ root. root < length numbers.now) roots.items) }
    ensures are { IfOk result (λ roots. map (number_of_node numbers.now) roots.items ≡ map (λ pin. pin.1) pins.now) }
{
    let mut roots = Vec::with_capacity(alloc, pins.len())?;
    for pin in pins {
        roots.push_reserved(place_of(numbers, pin.1));
    }
    Ok(roots)
}

/// Marks for each node whether it is in the order.
fn marks(alloc: Global, order: &Order, count: usize) -> Result<Vec<bool>, NoMemory>
    requires { All (λ n. n < count) order.now }
    ensures size { IfOk result (λ marks. length marks.items ≡ count) }
    ensures each { IfOk result (λ marks. (n : ℕ) → n < count → slice_index_or marks.items n false ≡ list_any (nat_eq n) order.now) }
{
    let mut marks = vec![in alloc; false; count]?;
    for place in 0..order.len() {
        marks[order.get(place)] = true;
    }
    Ok(marks)
}

/// The nodes that are marked, in order.
fn marked_nodes(alloc: Global, marks: &[bool]) -> Result<Order, NoMemory>
    ensures { IfOk result (λ order. order ≡ filter (λ n. slice_index_or marks.now n false) (range_with_len 0 (length marks.now))) }
{
    let mut order = Order::new(alloc);
    for node in 0..marks.len() {
        if marks[node] {
            order.meet(node)?;
        }
    }
    Ok(order)
}

/// The nodes that roots reach, in the order of their places. Linear in the nodes.
fn kept_nodes(alloc: Global, nodes: &Graph, roots: &[usize]) -> Result<Order, NoMemory>
    requires { All (λ root. root < length nodes.now) roots.now }
    ensures { IfOk result (λ order. AreKept nodes.now roots.now order) }
{
    let met = reached(alloc, nodes, roots)?;
    let marked = marks(alloc, &met, nodes.len())?;
    let order = marked_nodes(alloc, &marked)?;
    Ok(order)
}

/// The numbers of the nodes of an order.
fn numbers_of(alloc: Global, numbers: &[u128], order: &Order) -> Result<Vec<u128>, NoMemory>
    requires { All (λ n. n < length numbers.now) order.now }
    ensures { IfOk result (λ all. all.items ≡ map (number_of_node numbers.now) order.now) }
{
    let mut all = Vec::with_capacity(alloc, order.len())?;
    for place in 0..order.len() {
        all.push_reserved(numbers[order.get(place)]);
    }
    Ok(all)
}

/// The rows that a walk from a pin meets, as a stock of their own. Linear in the rows, their kids and the pins, but for
/// the search for the pins' places, a logarithm each.
pub(crate) fn swept(alloc: Global, stock: &Stock, pins: &[(u32, u128)]) -> Result<Stock, NoMemory>
    requires stock { IsStock stock.now.nodes stock.now.numbers.items }
    requires pinned { All (λ pin. Contains stock.now.numbers.items pin.1) pins.now }
    ensures rows { IfOk result (λ left. stock_rows left.nodes left.numbers.items ≡ filter (λ row. is_met (record { rows = stock_rows stock.now.nodes stock.now.numbers.items; pins = pins.now; next = 0; limit = 0 }) row.number) (stock_rows stock.now.nodes stock.now.numbers.items)) }
    ensures stock { IfOk result (λ left. IsStock left.nodes left.numbers.items) }
    ensures index { IfOk result (λ left. IsRowIndex (stock_rows left.nodes left.numbers.items) left.index.entries) }
    ensures among { IfOk result (λ left. All (Contains stock.now.numbers.items) left.numbers.items) }
    ensures pinned { IfOk result (λ left. All (λ pin. Contains left.numbers.items pin.1) pins.now) }
    ensures fewer { IfOk result (λ left. length left.nodes ≤ length stock.now.nodes) }
{
    let roots = roots_of(alloc, &stock.numbers, pins)?;
    let order = kept_nodes(alloc, &stock.nodes, &roots)?;
    let nodes = part(alloc, &stock.nodes, &order)?;
    let numbers = numbers_of(alloc, &stock.numbers, &order)?;
    let index = index_of(alloc, &nodes, &numbers)?;
    Ok(Stock {
        nodes,
        numbers,
        index,
    })
}
