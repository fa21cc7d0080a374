//! A component by the places of its nodes, with its rows.
ghost use Rattle.std.specs.Prelude.{◌≡◌, ◌<◌, ◌+◌, ◌++◌, ◌∷◌, length, map, [], IfOk, OnOk, IsTrue, All, Contains, Some, slice_get, if◌then◌else◌};
ghost use Rattle.mars_comp.specs.Key.{inner, inner_kids, entry, item_of, same_part};
ghost use Rattle.mars_reach.specs.Order.{place_in};
ghost use Rattle.mars_reach.specs.Part.{IsClosed};
ghost use Rattle.mars_tree.specs.Graph.{kids_of};
ghost use Rattle.mars_first.specs.ComponentInside.{IsComponentOf, HasRowAt};

use crate::places::Places;
use indexmap::IndexSet;
use mars_base::NoMemory;
use mars_comp::{Components, Item, Key, is_inner};
use mars_reach::Order;
use mars_tree::Graph;
use std::alloc::Global;

/// A component by the places of its nodes, and its rows, each once.
#[derive(Drop)]
pub(crate) struct Component {
    pub(crate) places: Places,
    pub(crate) rows: IndexSet<Key>,
}

/// What is in a row for the kid of a node.
fn row_item(parts: &Components, node: usize, kid: usize, outside: &[u128]) -> Item
    requires node_in { node < length parts.now }
    requires kid_in { kid < length parts.now }
    requires outside_in { length outside.now ≡ length parts.now }
    ensures { result ≡ item_of parts.now outside.now [] node kid }
{
    if is_inner(parts, node, kid) {
        Item::Inner(0)
    } else {
        Item::Outer(outside[kid])
    }
}

/// A node's label and its kids, those of its component without their places.
fn row_of(
    alloc: Global,
    graph: &Graph,
    parts: &Components,
    node: usize,
    outside: &[u128],
) -> Result<Key, NoMemory>
    requires node_in { node < length graph.now }
    requires size { length parts.now ≡ length graph.now }
    requires outside_in { length outside.now ≡ length graph.now }
    ensures { IfOk result (λ key. key.items.items ≡ entry graph.now parts.now outside.now [] node) }
{
    let mut items = Vec::new(alloc);
    items.push(Item::Node(graph.label(node)))?;
    for kid in graph.kids(node) {
        items.push(row_item(parts, node, *kid, outside))?;
    }
    Ok(Key { items })
}

/// Puts the place of a kid last, where it is of the node's component.
fn push_place(
    parts: &Components,
    starts: &Order,
    node: usize,
    kid: usize,
    places: &mut Vec<usize>,
) -> Result<(), NoMemory>
    requires node_in { node < length parts.now }
    requires kid_in { kid < length parts.now }
    requires met { IsTrue (same_part parts.now node kid) → Contains starts.now kid }
    ensures { OnOk result (places.new.items ≡ places.old.items ++ (if same_part parts.now node kid then place_in starts.now kid ∷ [] else [])) }
{
    if is_inner(parts, node, kid) {
        places.push(starts.place(kid))?;
    }
    Ok(())
}

/// The places of a node's kids that are of its component.
fn inner_places(
    alloc: Global,
    graph: &Graph,
    parts: &Components,
    starts: &Order,
    node: usize,
) -> Result<Vec<usize>, NoMemory>
    requires node_in { node < length graph.now }
    requires size { length parts.now ≡ length graph.now }
    requires closed { All (Contains starts.now) (kids_of (inner graph.now parts.now) node) }
    ensures { IfOk result (λ places. places.items ≡ map (place_in starts.now) (inner_kids graph.now parts.now node)) }
{
    let mut places = Vec::new(alloc);
    for kid in graph.kids(node) {
        push_place(parts, starts, node, *kid, &mut places)?;
    }
    Ok(places)
}

/// The number of a row among the rows so far; it goes last where it is none of them.
fn number_of(rows: &mut IndexSet<Key>, row: Key) -> Result<usize, NoMemory>
    ensures { IfOk result (λ number. HasRowAt rows.old.keys row.items.items number rows.new.keys) }
{
    let (number, _is_new) = rows.insert_full(row)?;
    Ok(number)
}

/// Puts the next node of an order last.
fn push_node(
    alloc: Global,
    graph: &Graph,
    parts: &Components,
    starts: &Order,
    node: usize,
    outside: &[u128],
    component: &mut Component,
) -> Result<(), NoMemory>
    requires node_in { node < length graph.now }
    requires size { length parts.now ≡ length graph.now }
    requires outside_in { length outside.now ≡ length graph.now }
    requires closed { All (Contains starts.now) (kids_of (inner graph.now parts.now) node) }
    requires next { slice_get starts.now (length component.old.places.numbers.items) ≡ Some node }
    requires is { IsComponentOf graph.now parts.now outside.now starts.now component.old }
    ensures is { OnOk result (IsComponentOf graph.now parts.now outside.now starts.now component.new) }
    ensures count { OnOk result (length component.new.places.numbers.items ≡ length component.old.places.numbers.items + 1) }
{
    let row = row_of(alloc, graph, parts, node, outside)?;
    let kids = inner_places(alloc, graph, parts, starts, node)?;
    let number = number_of(&mut component.rows, row)?;
    component.places.numbers.push(number)?;
    component.places.kids.push(kids)?;
    Ok(())
}

/// A component by the places of its nodes in an order, with its rows.
pub(crate) fn by_places(
    alloc: Global,
    graph: &Graph,
    parts: &Components,
    starts: &Order,
    outside: &[u128],
) -> Result<Component, NoMemory>
    requires in_range { All (λ n. n < length graph.now) starts.now }
    requires size { length parts.now ≡ length graph.now }
    requires outside_in { length outside.now ≡ length graph.now }
    requires closed { IsClosed (inner graph.now parts.now) starts.now }
    ensures is { IfOk result (λ c. IsComponentOf graph.now parts.now outside.now starts.now c) }
    ensures count { IfOk result (λ c. length c.places.numbers.items ≡ length starts.now) }
{
    let numbers = Vec::new(alloc);
    let kids = Vec::new(alloc);
    let rows = IndexSet::new(alloc);
    let mut component = Component {
        places: Places { numbers, kids },
        rows,
    };
    for place in 0..starts.len() {
        push_node(
            alloc,
            graph,
            parts,
            starts,
            starts.get(place),
            outside,
            &mut component,
        )?;
    }
    Ok(component)
}
