//! What the workloads take.
ghost use Rattle.mars_dif.specs.Kept.{Serves};

use crate::difs::nodes::{names, pair, pairs, variables};
use crate::difs::workloads::{bind_all, differ_all, differ_each, wake_often};
use crate::difs::world::World;
use crate::failing::no_memory;
use mars_base::NoMemory;
use mars_store::{NodeId, Store};
use std::alloc::Global;
use std::io;
use std::time::{Clock, Instant};

/// The nanoseconds of adding, and of all that came after it; and how many inequations wait at the end.
#[derive(Clone, Copy, Debug, Default, PartialEq, Eq)]
pub(crate) struct Times {
    pub(crate) adding: u128,
    pub(crate) binding: u128,
    pub(crate) waiting: usize,
}

/// All of so many variables differ, and they are bound to names one after the other, the oldest first.
pub(crate) fn time_different<C: Clock>(clock: &C, alloc: Global, size: usize) -> io::Result<Times> {
    let mut store = Store::new(alloc);
    let nodes = variables(alloc, &mut store, size).map_err(no_memory)?;
    let values = names(alloc, &mut store, size).map_err(no_memory)?;
    let mut world = World::new(alloc, store);
    time_all(clock, &mut world, &nodes, &values)
}

/// Adds that the nodes differ, and makes each equal to its value.
fn time_all<C: Clock>(
    clock: &C,
    world: &mut World,
    nodes: &[NodeId],
    values: &[NodeId],
) -> io::Result<Times>
    requires { Serves world.old.difs world.old.store }
{
    let start = Instant::now(clock)?;
    differ_all(world, nodes).map_err(no_memory)?;
    let adding = start.elapsed(clock)?.as_nanos();
    bind_all(world, nodes, values).map_err(no_memory)?;
    let all = start.elapsed(clock)?.as_nanos();
    Ok(times_at(world, adding, all))
}

fn times_at(world: &World, adding: u128, all: u128) -> Times {
    Times {
        adding,
        binding: all.saturating_sub(adding),
        waiting: world.difs.waiting().len(),
    }
}

/// So many inequations wait at variables of their own, and that of one variable is tried and undone again and again. It holds
/// then, or waits on where it is of two nodes over that variable and another.
pub(crate) fn time_wakes<C: Clock>(
    clock: &C,
    alloc: Global,
    size: usize,
    calls: usize,
    stays: bool,
) -> io::Result<Times> {
    let mut store = Store::new(alloc);
    let made = make_waking(alloc, &mut store, size, stays).map_err(no_memory)?;
    let mut world = World::new(alloc, store);
    time_waking(clock, &mut world, &made, calls)
}

/// The nodes that differ from another, and one of their variables with its value.
#[derive(Drop)]
struct Waking {
    nodes: Vec<NodeId>,
    other: NodeId,
    variable: NodeId,
    value: NodeId,
}

/// Makes the nodes of `time_wakes`.
fn make_waking(
    alloc: Global,
    store: &mut Store,
    size: usize,
    stays: bool,
) -> Result<Waking, NoMemory> {
    let nodes = variables(alloc, store, size)?;
    let variable = nodes.get(size / 2).copied().unwrap_or_default();
    let first = name_at(alloc, store, 0)?;
    let second = name_at(alloc, store, 1)?;
    if !stays {
        return Ok(Waking {
            nodes,
            other: first,
            variable,
            value: second,
        });
    }
    make_staying(alloc, store, &nodes, variable, first)
}

/// Makes nodes over the variables and one more.
fn make_staying(
    alloc: Global,
    store: &mut Store,
    variables: &[NodeId],
    variable: NodeId,
    name: NodeId,
) -> Result<Waking, NoMemory> {
    let last = store.add_free()?;
    let other = pair(store, name, name)?;
    let nodes = pairs(alloc, store, variables, last)?;
    Ok(Waking {
        nodes,
        other,
        variable,
        value: name,
    })
}

/// A name, by its place among names.
fn name_at(alloc: Global, store: &mut Store, place: usize) -> Result<NodeId, NoMemory> {
    let made = names(alloc, store, place.saturating_add(1))?;
    Ok(made.get(place).copied().unwrap_or_default())
}

/// Adds the inequations, and wakes one of them again and again.
fn time_waking<C: Clock>(
    clock: &C,
    world: &mut World,
    made: &Waking,
    calls: usize,
) -> io::Result<Times>
    requires { Serves world.old.difs world.old.store }
{
    let start = Instant::now(clock)?;
    differ_each(world, &made.nodes, made.other).map_err(no_memory)?;
    let adding = start.elapsed(clock)?.as_nanos();
    wake_often(world, made.variable, made.value, calls).map_err(no_memory)?;
    let all = start.elapsed(clock)?.as_nanos();
    Ok(times_at(world, adding, all))
}
