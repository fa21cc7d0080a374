//! The first node of a component, by narrowing all its nodes to those with the rarest row.
ghost use Rattle.std.specs.Prelude.{◌≡◌, ◌<◌, ◌++◌, ◌∷◌, [], length, IfOk, OnOk, All, Contains, MatchOption, nat_eq, if◌then◌else◌};
ghost use Rattle.std.specs.Bool.{MatchBool};
ghost use Rattle.mars_comp.specs.Components.{AreComponents};
ghost use Rattle.mars_first.specs.First.{IsFirst};
ghost use Rattle.mars_first.specs.PlacesInside.{ArePlaces};
ghost use Rattle.mars_first.specs.StagesInside.{NeverDiffer, AreRowsApart};
ghost use Rattle.mars_first.specs.ComponentInside.{AreCounts, AreRowNumbers, IsRarerOf, Precedes, chosen, IsNarrowedTo, IsFirstPlace};

use crate::apart::rows_apart;
use crate::component::{Component, by_places};
use crate::items::FirstKey;
use crate::stages::own_links;
use indexmap::IndexSet;
use mars_base::NoMemory;
use mars_comp::{Components, Key, key_items, round};
use mars_reach::Order;
use mars_tree::Graph;
use std::alloc::Global;
use std::cmp::Ordering;

/// So many zeros.
fn no_counts(alloc: Global, size: usize) -> Result<Vec<usize>, NoMemory>
    ensures { IfOk result (λ counts. AreCounts size [] counts.items) }
{
    let mut counts = Vec::new(alloc);
    for number in 0..size {
        counts.push(0)?;
    }
    Ok(counts)
}

/// How often each number below a size is among rows.
fn counts_of(alloc: Global, rows: &[usize], size: usize) -> Result<Vec<usize>, NoMemory>
    requires rows_in { All (λ r. r < size) rows.now }
    ensures { IfOk result (λ counts. AreCounts size rows.now counts.items) }
{
    let mut counts = no_counts(alloc, size)?;
    for row in rows {
        counts[*row] += 1;
    }
    Ok(counts)
}

/// Whether a row is rarer than another, or as rare and less.
fn is_rarer(keys: &IndexSet<Key>, counts: &[usize], row: usize, other: usize) -> bool
    requires row_in { row < length counts.now }
    requires other_in { other < length counts.now }
    requires size { length counts.now ≡ length keys.now.keys }
    ensures { MatchBool result (Precedes keys.now.keys counts.now row other) (Precedes keys.now.keys counts.now other row) }
{
    if counts[row] != counts[other] {
        return counts[row] < counts[other];
    }
    match keys[row].items.cmp(&keys[other].items) {
        Ordering::Less => true,
        Ordering::Equal => false,
        Ordering::Greater => false,
    }
}

/// The rarer of two rows; of two that are as rare the lesser.
fn rarer_of(keys: &IndexSet<Key>, counts: &[usize], row: usize, other: usize) -> usize
    requires row_in { row < length counts.now }
    requires other_in { other < length counts.now }
    requires size { length counts.now ≡ length keys.now.keys }
    ensures { IsRarerOf keys.now.keys counts.now row other result }
{
    if is_rarer(keys, counts, row, other) {
        row
    } else {
        other
    }
}

/// The row that the fewest have, and of those the least.
fn rarest(keys: &IndexSet<Key>, counts: &[usize], rows: &[usize]) -> usize
    requires rows_in { All (λ r. r < length counts.now) rows.now }
    requires some { 0 < length rows.now }
    requires size { length counts.now ≡ length keys.now.keys }
    ensures there { Contains rows.now result }
    ensures rarest { All (λ r. Precedes keys.now.keys counts.now result r) rows.now }
{
    let mut best = rows[0];
    for row in rows {
        best = rarer_of(keys, counts, *row, best);
    }
    best
}

/// Puts a candidate last, where its row is the wanted one.
fn push_chosen(
    row: usize,
    wanted: usize,
    candidate: usize,
    left: &mut Vec<usize>,
) -> Result<(), NoMemory>
    ensures { OnOk result (left.new.items ≡ left.old.items ++ (if nat_eq row wanted then candidate ∷ [] else [])) }
{
    if row == wanted {
        left.push(candidate)?;
    }
    Ok(())
}

/// The candidates that have a row.
fn with_row(
    alloc: Global,
    candidates: &[usize],
    rows: &[usize],
    row: usize,
) -> Result<Vec<usize>, NoMemory>
    requires { length rows.now ≡ length candidates.now }
    ensures { IfOk result (λ left. left.items ≡ chosen candidates.now rows.now row) }
{
    let mut left = Vec::new(alloc);
    for place in 0..candidates.len() {
        push_chosen(rows[place], row, candidates[place], &mut left)?;
    }
    Ok(left)
}

/// The candidates with the rarest of their rows.
fn left_of(
    alloc: Global,
    component: &Component,
    candidates: &[usize],
    rows: &[usize],
) -> Result<Vec<usize>, NoMemory>
    requires rows_in { All (λ r. r < length component.now.rows.keys) rows.now }
    requires apart { AreRowsApart component.now.places candidates.now rows.now }
    requires some { 0 < length candidates.now }
    ensures { IfOk result (λ left. IsNarrowedTo component.now candidates.now left.items) }
{
    let size = component.rows.len();
    let counts = counts_of(alloc, rows, size)?;
    let row = rarest(&component.rows, &counts, rows);
    let left = with_row(alloc, candidates, rows, row)?;
    Ok(left)
}

/// The candidates with the rarest row at the end of the first path at which they differ, where they do.
fn narrowed(
    alloc: Global,
    component: &Component,
    candidates: &[usize],
) -> Result<Option<Vec<usize>>, NoMemory>
    requires places { ArePlaces component.now.places }
    requires rows_in { AreRowNumbers component.now }
    requires candidates_in { All (λ x. x < length component.now.places.numbers.items) candidates.now }
    requires some { 0 < length candidates.now }
    ensures { IfOk result (λ found. MatchOption found (NeverDiffer component.now.places candidates.now) (λ left. IsNarrowedTo component.now candidates.now left.items)) }
{
    let found = rows_apart(alloc, &component.places, candidates)?;
    match found {
        Some(rows) => {
            let left = left_of(alloc, component, candidates, &rows)?;
            Ok(Some(left))
        }
        None => Ok(None),
    }
}

/// The place of the first node.
fn first_place(alloc: Global, component: &Component) -> Result<usize, NoMemory>
    requires places { ArePlaces component.now.places }
    requires rows_in { AreRowNumbers component.now }
    requires some { 0 < length component.now.places.numbers.items }
    ensures narrows { IfOk result (λ start. IsFirstPlace component.now start) }
    ensures within { IfOk result (λ start. start < length component.now.places.numbers.items) }
{
    let count = component.places.numbers.len();
    let mut candidates = own_links(alloc, count)?;
    'narrowing: while candidates.len() > 1 {
        let found = narrowed(alloc, component, &candidates)?;
        match found {
            Some(left) => candidates = left,
            None => return Ok(candidates[0]),
        }
    }
    Ok(candidates[0])
}

/// The nodes of an order, in order.
fn nodes_of(alloc: Global, order: &Order) -> Result<Vec<usize>, NoMemory>
    ensures { IfOk result (λ nodes. nodes.items ≡ order.now) }
{
    let mut nodes = Vec::new(alloc);
    for place in 0..order.len() {
        nodes.push(order.get(place))?;
    }
    Ok(nodes)
}

/// The key of a node's component from its first node, with the nodes at the places of the key, where `outside` has a
/// number for each node of the graph. All nodes of the component are candidates; those with the rarest row at the end of
/// the first path at which they differ stay, until no path tells two apart. At least half of the candidates go each time,
/// so it takes at worst the component's nodes and kids times the square of the logarithm of their number. The error is
/// out of memory alone.
pub fn first(
    alloc: Global,
    graph: &Graph,
    parts: &Components,
    node: usize,
    outside: &[u128],
) -> Result<FirstKey, NoMemory>
    requires node_in { node < length graph.now }
    requires parts { AreComponents graph.now parts.now }
    requires outside_in { length outside.now ≡ length graph.now }
    ensures { IfOk result (λ e. IsFirst graph.now parts.now outside.now node e.nodes.items e.key.items.items) }
{
    let _count = graph.len();
    let starts = round(alloc, graph, parts, node)?;
    let component = by_places(alloc, graph, parts, &starts, outside)?;
    let place = first_place(alloc, &component)?;
    let start = starts.get(place);
    let order = round(alloc, graph, parts, start)?;
    let items = key_items(alloc, graph, parts, &order, outside)?;
    let nodes = nodes_of(alloc, &order)?;
    Ok(FirstKey {
        key: Key { items },
        nodes,
    })
}
