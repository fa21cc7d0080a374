//! The part of a graph that roots reach, as a graph of its own.
ghost use Rattle.std.specs.Prelude.{◌≡◌, ◌<◌, ◌≤◌, ◌++◌, ℕ, List, length, map, Contains, IfOk, OnOk, All};
ghost use Rattle.mars_tree.specs.Graph.{IsGraph};
ghost use Rattle.mars_reach.specs.Order.{place_in, renumbered, IsReach};
ghost use Rattle.mars_reach.specs.Part.{IsClosed, IsPart, ShowsPart};

use crate::order::Order;
use crate::queue::reached;
use crate::roots::Roots;
use mars_base::NoMemory;
use mars_tree::Graph;
use std::alloc::Global;

/// A graph with its roots.
#[derive(Drop)]
pub struct RootedGraph {
    pub graph: Graph,
    pub roots: Roots,
}

/// Puts the places of numbers last in a list.
fn push_places(order: &Order, numbers: &[usize], into: &mut Vec<usize>) -> Result<(), NoMemory>
    requires { All (Contains order.now) numbers.now }
    ensures { OnOk result (into.new.items ≡ into.old.items ++ map (place_in order.now) numbers.now) }
{
    for number in numbers {
        into.push(order.place(*number))?;
    }
    Ok(())
}

/// The nodes of an order as a graph of their own, each under its place in the order. Linear in the nodes and their
/// kids. The error is out of memory alone.
pub fn part(alloc: Global, graph: &Graph, order: &Order) -> Result<Graph, NoMemory>
    requires in_range { All (λ n. n < length graph.now) order.now }
    requires closed { IsClosed graph.now order.now }
    ensures nodes { IfOk result (λ part. part ≡ renumbered graph.now (place_in order.now) order.now) }
    ensures graph { IfOk result (λ part. IsGraph part) }
    ensures shows { IfOk result (λ part. (roots : List ℕ) → IsReach graph.now roots order.now → ShowsPart graph.now roots part (map (place_in order.now) roots)) }
{
    let _count = graph.len();
    let mut labels = Vec::with_capacity(alloc, order.len())?;
    let mut kids = Vec::new(alloc);
    for place in 0..order.len() {
        let node = order.get(place);
        labels.push(graph.label(node))?;
        push_places(order, graph.kids(node), &mut kids)?;
    }
    let part = Graph::from_lists(alloc, labels, kids)?;
    Ok(part)
}

/// The part of a graph that roots reach, breadth first from the roots, and the numbers of the roots in it. Linear in the
/// roots and in the kids of what is reached, whatever the size of the graph. The error is out of memory alone.
pub fn rooted_part(alloc: Global, graph: &Graph, roots: &[usize]) -> Result<RootedGraph, NoMemory>
    requires { All (λ root. root < length graph.now) roots.now }
    ensures part { IfOk result (λ p. IsPart graph.now roots.now p.graph p.roots) }
    ensures graph { IfOk result (λ p. IsGraph p.graph) }
    ensures shows { IfOk result (λ p. ShowsPart graph.now roots.now p.graph p.roots) }
{
    let order = reached(alloc, graph, roots)?;
    let mut places = Vec::new(alloc);
    push_places(&order, roots, &mut places)?;
    let graph = part(alloc, graph, &order)?;
    Ok(RootedGraph {
        graph,
        roots: Roots::from_list(places),
    })
}
