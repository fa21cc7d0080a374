//! Kept trees are loaded: a variable for each node of a tree first, then each node's label over the variables of its kids,
//! to which the node's own variable is bound. So a cyclic tree is no special case.
ghost use Rattle.std.specs.Prelude.{◌≡◌, ◌<◌, ◌≤◌, length, map, slice_index, slice_index_or, IfOk, OnOk};
ghost use Rattle.std.specs.List.{range_with_len};
ghost use Rattle.mars_tree.specs.Graph.{IsGraph, IsGround, kids_of, free_leaf};
ghost use Rattle.mars_store.specs.System.{System, IsSystem};
ghost use Rattle.mars_start.specs.LoadingInside.{with_frees, node_among, with_value, AreNodesLoaded, IsTreeLoaded, AreTreesLoaded};

use mars_base::NoMemory;
use mars_canon::Tree;
use mars_store::{NodeId, Store};
use std::alloc::Global;

/// Loads trees, and gives the nodes of their roots. Linear in their nodes and kids.
pub(crate) fn load_trees(
    alloc: Global,
    store: &mut Store,
    trees: &[Tree],
) -> Result<Vec<NodeId>, NoMemory>
    requires { IsSystem store.old }
    ensures { IfOk result (λ roots. AreTreesLoaded store.new trees.now roots.items) }
{
    let mut roots = Vec::new(alloc);
    for tree in trees {
        roots.push(load_tree(alloc, store, tree)?)?;
    }
    Ok(roots)
}

/// Loads a tree, and gives the node of its root.
fn load_tree(alloc: Global, store: &mut Store, tree: &Tree) -> Result<NodeId, NoMemory>
    requires { IsSystem store.old }
    ensures { IfOk result (λ root. IsTreeLoaded store.old store.new tree.now root) }
{
    let nodes = add_variables(alloc, store, tree.len())?;
    let mut kids = Vec::new(alloc);
    for node in 0..tree.len() {
        load_node(store, tree, node, &nodes, &mut kids)?;
    }
    Ok(nodes[0])
}

/// Adds variables, so many as are asked for, and gives them in order.
pub(crate) fn add_variables(
    alloc: Global,
    store: &mut Store,
    count: usize,
) -> Result<Vec<NodeId>, NoMemory>
    ensures store { OnOk result (store.new ≡ with_frees store.old count) }
    ensures nodes { IfOk result (λ nodes. nodes.items ≡ range_with_len (length store.old.nodes) count) }
{
    let mut nodes = Vec::with_capacity(alloc, count)?;
    for _ in 0..count {
        nodes.push(store.add_free()?)?;
    }
    Ok(nodes)
}

/// Adds the label of a tree's node over the nodes of its kids, and binds the node's variable to it.
fn load_node(
    store: &mut Store,
    tree: &Tree,
    node: usize,
    nodes: &[NodeId],
    kids: &mut Vec<NodeId>,
) -> Result<(), NoMemory>
    requires within { node < length tree.now }
    requires graph { IsGraph tree.now }
    requires ground { IsGround tree.now }
    requires loaded { (start : System) × AreNodesLoaded start nodes.now tree.now store.old node }
    ensures ok { OnOk result (store.new ≡ with_value store.old (slice_index nodes.now node) (node_among nodes.now (slice_index_or tree.now node free_leaf))) }
    ensures system { OnOk result (IsSystem store.new) }
{
    kids.clear();
    push_kids(tree, node, nodes, kids)?;
    let labelled = store.add(tree.label(node), kids)?;
    store.bind(nodes[node], labelled)
}

/// Puts the nodes of a tree's kids after others.
fn push_kids(
    tree: &Tree,
    node: usize,
    nodes: &[NodeId],
    kids: &mut Vec<NodeId>,
) -> Result<(), NoMemory>
    requires within { node < length tree.now }
    requires size { length nodes.now ≡ length tree.now }
    requires empty { length kids.old.items ≡ 0 }
    ensures { OnOk result (kids.new.items ≡ map (slice_index nodes.now) (kids_of tree.now node)) }
{
    for place in 0..tree.arity(node) {
        kids.push(nodes[tree.kid(node, place)])?;
    }
    Ok(())
}
