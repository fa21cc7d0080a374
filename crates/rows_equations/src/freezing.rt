//! Rows of frozen goals, one word a change.
ghost use Rattle.std.specs.Prelude.{◌≡◌, ◌<◌, length, OnOk};
ghost use Rattle.mars_store.specs.System.{Grows, IsMark, undone};
ghost use Rattle.mars_frozen.specs.Freezing.{CanWake, IsLaterFrozen, IsFrozenMark, frozen_undone};

use crate::building::{bind_free, is_inside};
use crate::writing::{put, put_number};
use mars_base::NoMemory;
use mars_frozen::Frozen;
use mars_store::{NodeId, Store};
use mars_tree::{Label, NameId};
use std::alloc::Global;

/// How many variables a row may speak of. The nodes after them are two names.
const VARIABLES: usize = 6;

/// A store, and the pairs that are frozen on it.
#[derive(Drop)]
struct World {
    store: Store,
    frozen: Frozen,
}

/// Runs a row: `freeze:0:7` freezes node 7 on node 0, `bind:0:6` binds variable 0 to node 6, `wake` writes the goals that
/// wake, `waiting` the pairs that wait. What is written between two bars is undone.
pub(crate) fn put_frozen(alloc: Global, words: &str, into: &mut Vec<u8>) -> Result<(), NoMemory> {
    let mut store = Store::new(alloc);
    let mut nodes = Vec::new(alloc);
    add_variables(&mut store, &mut nodes)?;
    add_names(&mut store, &mut nodes)?;
    let mut world = start(alloc, store);
    run_parts(&mut world, &nodes, words, into)
}

fn add_variables(store: &mut Store, nodes: &mut Vec<NodeId>) -> Result<(), NoMemory> {
    for _ in 0..VARIABLES {
        let node = store.add_free()?;
        nodes.push(node)?;
    }
    Ok(())
}

fn add_names(store: &mut Store, nodes: &mut Vec<NodeId>) -> Result<(), NoMemory> {
    for number in 0..2 {
        let name = NameId(number);
        let node = store.add(Label::Name { name, arity: 0 }, &[])?;
        nodes.push(node)?;
    }
    Ok(())
}

fn start(alloc: Global, store: Store) -> World
    ensures { CanWake result.frozen result.store }
{
    World {
        store,
        frozen: Frozen::new(alloc),
    }
}

/// Runs the parts of a row: what is between two bars is undone.
fn run_parts(
    world: &mut World,
    nodes: &[NodeId],
    words: &str,
    into: &mut Vec<u8>,
) -> Result<(), NoMemory>
    requires { CanWake world.old.frozen world.old.store }
{
    let mut lasting = true;
    for part in words.split('|') {
        run_part(world, nodes, part, lasting, into)?;
        lasting = !lasting;
    }
    Ok(())
}

/// Runs a part of a row.
fn run_part(
    world: &mut World,
    nodes: &[NodeId],
    words: &str,
    lasting: bool,
    into: &mut Vec<u8>,
) -> Result<(), NoMemory>
    requires { CanWake world.old.frozen world.old.store }
    ensures { OnOk result (CanWake world.new.frozen world.new.store) }
{
    if lasting {
        run_all(world, nodes, words, into)
    } else {
        run_undone(world, nodes, words, into)
    }
}

/// Runs words, and undoes what they did.
fn run_undone(
    world: &mut World,
    nodes: &[NodeId],
    words: &str,
    into: &mut Vec<u8>,
) -> Result<(), NoMemory>
    requires { CanWake world.old.frozen world.old.store }
    ensures { OnOk result (CanWake world.new.frozen world.new.store) }
{
    let store = world.store.mark();
    let frozen = world.frozen.mark();
    run_all(world, nodes, words, into)?;
    undo(world, store, frozen);
    Ok(())
}

/// Goes back to a state that was marked.
fn undo(world: &mut World, store: mars_store::Mark, frozen: mars_frozen::Mark)
    requires store { IsMark world.old.store store }
    requires frozen { IsFrozenMark world.old.frozen frozen }
    ensures store { world.new.store ≡ undone world.old.store store }
    ensures frozen { world.new.frozen ≡ frozen_undone world.old.frozen frozen }
{
    world.store.undo_to(store);
    world.frozen.undo_to(frozen);
}

/// Runs words.
fn run_all(
    world: &mut World,
    nodes: &[NodeId],
    words: &str,
    into: &mut Vec<u8>,
) -> Result<(), NoMemory>
    requires { CanWake world.old.frozen world.old.store }
    ensures ready { OnOk result (CanWake world.new.frozen world.new.store) }
    ensures grows { OnOk result (Grows world.old.store world.new.store) }
    ensures later { OnOk result (IsLaterFrozen world.old.frozen world.new.frozen) }
{
    for word in words.split_whitespace() {
        run(world, nodes, word, into)?;
    }
    Ok(())
}

/// The nodes after the colons of a word.
fn nodes_at(nodes: &[NodeId], word: &str) -> Option<(NodeId, NodeId)> {
    let (_name, rest) = word.split_once(':')?;
    let (first, second) = rest.split_once(':')?;
    let left = nodes.get(first.parse::<usize>().unwrap_or(usize::MAX))?;
    let right = nodes.get(second.parse::<usize>().unwrap_or(usize::MAX))?;
    Some((*left, *right))
}

/// Runs a word.
fn run(world: &mut World, nodes: &[NodeId], word: &str, into: &mut Vec<u8>) -> Result<(), NoMemory>
    requires { CanWake world.old.frozen world.old.store }
    ensures ready { OnOk result (CanWake world.new.frozen world.new.store) }
    ensures grows { OnOk result (Grows world.old.store world.new.store) }
    ensures later { OnOk result (IsLaterFrozen world.old.frozen world.new.frozen) }
{
    match (word, nodes_at(nodes, word)) {
        ("wake", _) => wake(world, into),
        ("waiting", _) => {
            put_pairs(into, world.frozen.waiting())?;
            Ok(())
        }
        (_, Some((left, right))) => change(world, word, left, right),
        _ => put(into, "?"),
    }
}

/// Freezes or binds.
fn change(world: &mut World, word: &str, left: NodeId, right: NodeId) -> Result<(), NoMemory>
    requires { CanWake world.old.frozen world.old.store }
    ensures ready { OnOk result (CanWake world.new.frozen world.new.store) }
    ensures grows { OnOk result (Grows world.old.store world.new.store) }
    ensures later { OnOk result (IsLaterFrozen world.old.frozen world.new.frozen) }
{
    if word.starts_with("bind") {
        bind(world, left, right)
    } else if is_inside(&world.store, left) && is_inside(&world.store, right) {
        freeze(world, left, right)
    } else {
        Ok(())
    }
}

fn bind(world: &mut World, left: NodeId, right: NodeId) -> Result<(), NoMemory>
    requires { CanWake world.old.frozen world.old.store }
    ensures ready { OnOk result (CanWake world.new.frozen world.new.store) }
    ensures grows { OnOk result (Grows world.old.store world.new.store) }
    ensures later { OnOk result (IsLaterFrozen world.old.frozen world.new.frozen) }
{
    let _is_bound = bind_free(&mut world.store, left, right)?;
    Ok(())
}

fn freeze(world: &mut World, left: NodeId, right: NodeId) -> Result<(), NoMemory>
    requires ready { CanWake world.old.frozen world.old.store }
    requires left { left < length world.old.store.nodes }
    requires right { right < length world.old.store.nodes }
    ensures ready { OnOk result (CanWake world.new.frozen world.new.store) }
    ensures grows { OnOk result (Grows world.old.store world.new.store) }
    ensures later { OnOk result (IsLaterFrozen world.old.frozen world.new.frozen) }
{
    world.frozen.add(left, right)
}

/// Wakes, and writes the goals.
fn wake(world: &mut World, into: &mut Vec<u8>) -> Result<(), NoMemory>
    requires { CanWake world.old.frozen world.old.store }
    ensures ready { OnOk result (CanWake world.new.frozen world.new.store) }
    ensures grows { OnOk result (Grows world.old.store world.new.store) }
    ensures later { OnOk result (IsLaterFrozen world.old.frozen world.new.frozen) }
{
    let goals = world.frozen.wake(&world.store)?;
    put_goals(into, &goals)
}

fn put_goals(into: &mut Vec<u8>, goals: &[NodeId]) -> Result<(), NoMemory> {
    put(into, "[")?;
    for goal in goals {
        put_node(into, *goal)?;
    }
    put(into, "]")
}

fn put_pairs(into: &mut Vec<u8>, pairs: &[(NodeId, NodeId)]) -> Result<(), NoMemory> {
    put(into, "(")?;
    for (on, goal) in pairs {
        put_node(into, *on)?;
        put(into, ":")?;
        put_node(into, *goal)?;
    }
    put(into, ")")
}

fn put_node(into: &mut Vec<u8>, node: NodeId) -> Result<(), NoMemory> {
    put_number(into, "", node.number())?;
    put(into, " ")
}
