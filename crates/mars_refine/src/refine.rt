//! Classes of nodes that are the same tree, by partition refinement (Hopcroft 1971).
//!
//! Classes are numbered in the order in which they are made, and each parts others once, in that order: the nodes that
//! have a kid in it at some place from those that have none. Where a class is split, the smaller part gets a new number
//! and so has a turn to come. The larger part keeps the number: it has a turn to come where the whole class had, and
//! else it needs none, since the whole class has parted others and the smaller part will.
ghost use Rattle.std.specs.Prelude.{◌≡◌, ◌<◌, ◌≤◌, ◌+◌, ℕ, List, length, IfOk, OnOk, All, Contains};
ghost use Rattle.mars_tree.specs.Graph.{Node, IsGraph};
ghost use Rattle.mars_refine.specs.Classes.{Parted, AreFree, IsSplitBy};
ghost use Rattle.mars_refine.specs.Edges.{AreEdges, AreByPlace, IsWidth};
ghost use Rattle.mars_refine.specs.Refine.{AreTrees, IsRefining, IsSplitTo};
ghost use Rattle.mars_refine.specs.declared.edge.Edge.{Edge};

use crate::classes::Classes;
use crate::edge::Edge;
use crate::edges::Edges;
use crate::found::{Found, find_edges, width};
use crate::marks::classes_by_label;
use mars_base::NoMemory;
use mars_tree::Graph;
use std::alloc::Global;

/// Parts the nodes that have a found edge at the place from those that have none, in time linear in these edges.
fn split_by_place(found: &Found, place: usize, classes: &mut Classes) -> Result<(), NoMemory>
    requires place_in { place < found.now.by_place.size }
    requires beside { AreByPlace found.now.edges.items found.now.by_place.keys }
    requires nodes { All (λ e. e.node < length classes.old.of) found.now.edges.items }
    requires free { AreFree classes.old }
    ensures { OnOk result (IsSplitBy (λ u. Contains found.now.edges.items (record { node = u; place = place })) classes.old classes.new) }
{
    let mut count = found.by_place.last(place);
    while count > 0 {
        classes.mark(found.edges[count - 1].node)?;
        count = found.by_place.before(count - 1);
    }
    classes.split()?;
    Ok(())
}

/// Parts nodes of which one has a kid in the class where the other has none. Each place of kids is done once, with the last
/// of its edges, so the time is linear in the edges into the class.
fn split_by_class(
    graph: &Graph,
    edges: &Edges,
    class: usize,
    found: &mut Found,
    classes: &mut Classes,
) -> Result<(), NoMemory>
    requires graph { IsGraph graph.now }
    requires edges { AreEdges graph.now edges.now.edges.items edges.now.starts.items }
    requires class_in { class < classes.old.count }
    requires size { length classes.old.of ≡ length graph.now }
    requires free { AreFree classes.old }
    requires refining { IsRefining graph.now classes.old.of class }
    requires places { IsWidth graph.now found.old.by_place.size }
    ensures size { OnOk result (length classes.new.of ≡ length graph.now) }
    ensures free { OnOk result (AreFree classes.new) }
    ensures refining { OnOk result (IsRefining graph.now classes.new.of (class + 1)) }
    ensures places { OnOk result (found.new.by_place.size ≡ found.old.by_place.size) }
{
    find_edges(graph, edges, class, classes, found)?;
    for entry in 0..found.edges.len() {
        let place = found.edges[entry].place;
        if found.by_place.last(place) == entry + 1 {
            split_by_place(found, place, classes)?;
        }
    }
    Ok(())
}

/// The classes of a graph's nodes: two nodes are in one class exactly where they are the same tree, finite or infinite.
/// Free leaves are each a tree of their own. With `n` nodes, and edges in proportion to them, the time is in proportion
/// to `n log n` and the memory to `n`, however many kids one node has. The error is out of memory alone.
pub fn classes_by_tree(alloc: Global, graph: &Graph) -> Result<Classes, NoMemory>
    ensures size { IfOk result (λ c. length c.of ≡ length graph.now) }
    ensures trees { IfOk result (λ c. AreTrees graph.now c.of) }
{
    let _nodes = graph.len();
    let edges = Edges::new(alloc, graph)?;
    let mut found = Found::new(alloc, width(graph))?;
    let mut classes = classes_by_label(alloc, graph)?;
    let mut next = 0;
    while next < classes.count() {
        split_by_class(graph, &edges, next, &mut found, &mut classes)?;
        next += 1;
    }
    Ok(classes)
}
