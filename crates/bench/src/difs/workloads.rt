//! Inequations of variables that are all different, and many that wait while one wakes again and again.
ghost use Rattle.mars_store.specs.System.{Grows};
ghost use Rattle.mars_dif.specs.Kept.{Serves, IsAfter};

use crate::difs::world::World;
use mars_base::NoMemory;
use mars_store::NodeId;

/// Adds that the nodes differ pairwise.
pub(crate) fn differ_all(world: &mut World, nodes: &[NodeId]) -> Result<(), NoMemory>
    requires { Serves world.old.difs world.old.store }
    ensures { Serves world.new.difs world.new.store }
{
    for k in 0..nodes.len() {
        differ_from_earlier(world, &nodes[..k], nodes[k])?;
    }
    Ok(())
}

/// Adds that a node differs from others.
fn differ_from_earlier(world: &mut World, others: &[NodeId], node: NodeId) -> Result<(), NoMemory>
    requires { Serves world.old.difs world.old.store }
    ensures { Serves world.new.difs world.new.store }
{
    for &other in others {
        world.differ(other, node)?;
    }
    Ok(())
}

/// Makes each node equal to its value, one after the other, and rechecks after each.
pub(crate) fn bind_all(
    world: &mut World,
    nodes: &[NodeId],
    values: &[NodeId],
) -> Result<(), NoMemory>
    requires { Serves world.old.difs world.old.store }
    ensures { Serves world.new.difs world.new.store }
{
    for place in 0..nodes.len().min(values.len()) {
        bind_one(world, nodes[place], values[place])?;
    }
    Ok(())
}

/// Makes a node equal to another, and rechecks.
fn bind_one(world: &mut World, node: NodeId, value: NodeId) -> Result<(), NoMemory>
    requires { Serves world.old.difs world.old.store }
    ensures serves { Serves world.new.difs world.new.store }
    ensures grows { Grows world.old.store world.new.store }
    ensures after { IsAfter world.old.difs world.new.difs }
{
    world.equate(node, value)?;
    world.recheck()?;
    Ok(())
}

/// Adds that each node differs from another.
pub(crate) fn differ_each(
    world: &mut World,
    nodes: &[NodeId],
    other: NodeId,
) -> Result<(), NoMemory>
    requires { Serves world.old.difs world.old.store }
    ensures { Serves world.new.difs world.new.store }
{
    for &node in nodes {
        world.differ(node, other)?;
    }
    Ok(())
}

/// Makes a node equal to another so many times, rechecks, and undoes both.
pub(crate) fn wake_often(
    world: &mut World,
    node: NodeId,
    value: NodeId,
    calls: usize,
) -> Result<(), NoMemory>
    requires { Serves world.old.difs world.old.store }
    ensures { Serves world.new.difs world.new.store }
{
    for _ in 0..calls {
        wake(world, node, value)?;
    }
    Ok(())
}

/// Makes a node equal to another, rechecks, and undoes both.
fn wake(world: &mut World, node: NodeId, value: NodeId) -> Result<(), NoMemory>
    requires { Serves world.old.difs world.old.store }
    ensures { Serves world.new.difs world.new.store }
{
    let store = world.store.mark();
    let difs = world.difs.mark();
    bind_one(world, node, value)?;
    world.undo_to(store, difs);
    Ok(())
}
