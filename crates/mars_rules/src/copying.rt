//! A rule's nodes are appended to a store, without walking its terms.
ghost use Rattle.std.specs.Prelude.{◌≡◌, ◌<◌, ◌++◌, ◌∷◌, [], ℕ, length, map, IfOk, OnOk, OnErr, slice_index_or, All};
ghost use Rattle.std.specs.List.{range_with_len};
ghost use Rattle.mars_rules.specs.PairedLists.{AllPaired};
ghost use Rattle.mars_term.specs.declared.clause.Rule.{Rule};
ghost use Rattle.mars_tree.specs.Graph.{IsNode, free_leaf};
ghost use Rattle.mars_store.specs.System.{IsSystem, Grows, with_node};
ghost use Rattle.mars_rules.specs.CopyingInside.{node_over, shifted, with_nodes, IsCopiedGoal, IsGoalBelow};
ghost use Rattle.mars_rules.specs.FlatRules.{IsFlatRule};
ghost use Rattle.mars_rules.specs.Instances.{IsInstance};

use crate::flat::{FlatGoal, FlatRule};
use crate::goals::{BodyGoal, BodyGoals, Instance};
use mars_base::NoMemory;
use mars_store::{NodeId, Store};
use mars_tree::Graph;
use sqlite_items::Items;
use std::alloc::Global;

/// A copy of a rule with new variables. Linear in the rule's nodes.
pub(crate) fn copy_rule(
    alloc: Global,
    store: &mut Store,
    flat: &FlatRule,
) -> Result<Instance, NoMemory>
    requires { (rule : Rule) × IsFlatRule rule flat.now }
    ensures copy { (rule : Rule) → IsFlatRule rule flat.now → IfOk result (λ copy. IsInstance store.old store.new rule copy) }
    ensures err { OnErr result (store.new ≡ store.old) }
    ensures system { IsSystem store.new }
{
    let mark = store.mark();
    match copy_all(alloc, store, flat) {
        Ok(copy) => Ok(copy),
        Err(error) => {
            store.undo_to(mark);
            Err(error)
        }
    }
}

/// The nodes of a rule in the store, and its goals.
fn copy_all(alloc: Global, store: &mut Store, flat: &FlatRule) -> Result<Instance, NoMemory>
    requires sound { IsSystem store.old }
    requires flat { (rule : Rule) × IsFlatRule rule flat.now }
    ensures grows { Grows store.old store.new }
    ensures copy { (rule : Rule) → IsFlatRule rule flat.now → IfOk result (λ copy. IsInstance store.old store.new rule copy) }
{
    let mut nodes = Vec::new(alloc);
    copy_nodes(alloc, store, &flat.template.nodes, &mut nodes)?;
    let body = copy_goals(alloc, &flat.goals, &nodes)?;
    Ok(Instance {
        head: nodes[flat.template.head],
        body,
    })
}

/// Appends nodes to the store, in order, and tells which they are there.
fn copy_nodes(
    alloc: Global,
    store: &mut Store,
    nodes: &Graph,
    copies: &mut Vec<NodeId>,
) -> Result<(), NoMemory>
    requires sound { IsSystem store.old }
    requires empty { copies.old.items ≡ [] }
    requires older { (place : ℕ) → IsNode place (slice_index_or nodes.now place free_leaf) }
    ensures grows { Grows store.old store.new }
    ensures copies { OnOk result (copies.new.items ≡ range_with_len (length store.old.nodes) (length nodes.now)) }
    ensures ok { OnOk result (store.new ≡ with_nodes store.old (shifted (length store.old.nodes) nodes.now)) }
{
    let mut kids = Vec::new(alloc);
    copies.reserve(nodes.len())?;
    for place in 0..nodes.len() {
        copy_node(store, nodes, place, copies, &mut kids)?;
    }
    Ok(())
}

/// Appends the next node to the store, over the copies of its kids.
fn copy_node(
    store: &mut Store,
    nodes: &Graph,
    place: usize,
    copies: &mut Vec<NodeId>,
    kids: &mut Vec<NodeId>,
) -> Result<(), NoMemory>
    requires within { place < length nodes.now }
    requires older { IsNode place (slice_index_or nodes.now place free_leaf) }
    requires size { length copies.old.items ≡ place }
    requires inside { All (λ node. node < length store.old.nodes) copies.old.items }
    ensures grows { Grows store.old store.new }
    ensures copies { OnOk result (copies.new.items ≡ copies.old.items ++ length store.old.nodes ∷ []) }
    ensures ok { OnOk result (store.new ≡ with_node store.old (node_over copies.old.items (slice_index_or nodes.now place free_leaf))) }
{
    let node = match nodes.label(place) {
        Some(label) => {
            kids.clear();
            for kid in nodes.kids(place) {
                kids.push(copies[*kid])?;
            }
            store.add(label, kids)?
        }
        None => store.add_free()?,
    };
    copies.push(node)?;
    Ok(())
}

/// The goals over the nodes of the store.
fn copy_goals(alloc: Global, goals: &[FlatGoal], nodes: &[NodeId]) -> Result<BodyGoals, NoMemory>
    requires { All (IsGoalBelow (length nodes.now)) goals.now }
    ensures { IfOk result (λ body. AllPaired (IsCopiedGoal nodes.now) goals.now body) }
{
    let mut body = Items::new(alloc);
    for goal in goals {
        body.push(copy_goal(goal, nodes))?;
    }
    Ok(body)
}

/// A goal over the nodes of the store.
fn copy_goal(goal: &FlatGoal, nodes: &[NodeId]) -> BodyGoal
    requires { IsGoalBelow (length nodes.now) goal.now }
    ensures { IsCopiedGoal nodes.now goal.now result }
{
    match goal {
        FlatGoal::Call(place) => BodyGoal::Call(nodes[*place]),
        FlatGoal::Cut => BodyGoal::Cut,
    }
}
