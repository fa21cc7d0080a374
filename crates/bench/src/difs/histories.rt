//! Random histories: nodes are made equal and different, what was done since a mark is undone, with marks within marks, and
//! the keeper is compared with a plain one that tries every inequation.
ghost use Rattle.mars_store.specs.System.{Grows};
ghost use Rattle.mars_dif.specs.Kept.{Serves, IsAfter};

use crate::difs::nodes::{draw_nodes, draw_one};
use crate::difs::world::World;
use mars_base::NoMemory;
use mars_store::{NodeId, Store};
use rand_core::utils::NextWord;
use rand_pcg::Pcg32;
use std::alloc::Global;

/// How often the keeper was compared with a plain one, how often inequations waited then, how often one had failed, and how
/// often the two weren't the same.
#[derive(Clone, Copy, Debug, Default, PartialEq, Eq)]
pub(crate) struct Counts {
    pub(crate) compared: u64,
    pub(crate) waited: u64,
    pub(crate) failed: u64,
    pub(crate) different: u64,
}

/// What is drawn from, and what was counted.
#[derive(Drop)]
struct Drawing {
    words: Pcg32,
    nodes: Vec<NodeId>,
    counts: Counts,
}

/// Runs so many histories.
pub(crate) fn run_histories(alloc: Global, count: u64) -> Result<Counts, NoMemory> {
    let mut drawing = Drawing {
        words: Pcg32::new(42, 54),
        nodes: Vec::new(alloc),
        counts: Counts::default(),
    };
    for _ in 0..count {
        run_history(alloc, &mut drawing)?;
    }
    Ok(drawing.counts)
}

/// Runs a history over a store of its own.
fn run_history(alloc: Global, drawing: &mut Drawing) -> Result<(), NoMemory> {
    let mut store = Store::new(alloc);
    drawing.nodes = draw_nodes(alloc, &mut store, &mut drawing.words)?;
    let mut world = World::new(alloc, store);
    run_outer(&mut world, drawing)
}

/// Takes steps, and parts that are taken back.
fn run_outer(world: &mut World, drawing: &mut Drawing) -> Result<(), NoMemory>
    requires { Serves world.old.difs world.old.store }
{
    for _ in 0..drawing.words.next_word() % 12 {
        outer_step(world, drawing)?;
    }
    Ok(())
}

/// Takes a step, or a part that is taken back.
fn outer_step(world: &mut World, drawing: &mut Drawing) -> Result<(), NoMemory>
    requires { Serves world.old.difs world.old.store }
    ensures { Serves world.new.difs world.new.store }
{
    if drawing.words.next_word() % 4 == 0 {
        return take_back_middle(world, drawing);
    }
    step(world, drawing)
}

/// Takes steps and parts that are taken back, and takes all back.
fn take_back_middle(world: &mut World, drawing: &mut Drawing) -> Result<(), NoMemory>
    requires { Serves world.old.difs world.old.store }
    ensures { Serves world.new.difs world.new.store }
{
    let store = world.store.mark();
    let difs = world.difs.mark();
    let added = world.added.len();
    run_middle(world, drawing)?;
    world.undo_to(store, difs);
    world.added.truncate(added);
    Ok(())
}

/// Takes steps, and parts that are taken back.
fn run_middle(world: &mut World, drawing: &mut Drawing) -> Result<(), NoMemory>
    requires { Serves world.old.difs world.old.store }
    ensures serves { Serves world.new.difs world.new.store }
    ensures grows { Grows world.old.store world.new.store }
    ensures after { IsAfter world.old.difs world.new.difs }
{
    for _ in 0..drawing.words.next_word() % 8 {
        middle_step(world, drawing)?;
    }
    Ok(())
}

/// Takes a step, or a part that is taken back.
fn middle_step(world: &mut World, drawing: &mut Drawing) -> Result<(), NoMemory>
    requires { Serves world.old.difs world.old.store }
    ensures serves { Serves world.new.difs world.new.store }
    ensures grows { Grows world.old.store world.new.store }
    ensures after { IsAfter world.old.difs world.new.difs }
{
    if drawing.words.next_word() % 4 == 0 {
        return take_back_inner(world, drawing);
    }
    step(world, drawing)
}

/// Takes steps, and takes them back.
fn take_back_inner(world: &mut World, drawing: &mut Drawing) -> Result<(), NoMemory>
    requires { Serves world.old.difs world.old.store }
    ensures serves { Serves world.new.difs world.new.store }
    ensures grows { Grows world.old.store world.new.store }
    ensures after { IsAfter world.old.difs world.new.difs }
{
    let store = world.store.mark();
    let difs = world.difs.mark();
    let added = world.added.len();
    run_inner(world, drawing)?;
    world.undo_to(store, difs);
    world.added.truncate(added);
    Ok(())
}

/// Takes steps.
fn run_inner(world: &mut World, drawing: &mut Drawing) -> Result<(), NoMemory>
    requires { Serves world.old.difs world.old.store }
    ensures serves { Serves world.new.difs world.new.store }
    ensures grows { Grows world.old.store world.new.store }
    ensures after { IsAfter world.old.difs world.new.difs }
{
    for _ in 0..drawing.words.next_word() % 6 {
        step(world, drawing)?;
    }
    Ok(())
}

/// Makes two nodes equal or different, or compares.
fn step(world: &mut World, drawing: &mut Drawing) -> Result<(), NoMemory>
    requires { Serves world.old.difs world.old.store }
    ensures serves { Serves world.new.difs world.new.store }
    ensures grows { Grows world.old.store world.new.store }
    ensures after { IsAfter world.old.difs world.new.difs }
{
    let a = draw_one(&drawing.nodes, &mut drawing.words);
    let b = draw_one(&drawing.nodes, &mut drawing.words);
    match drawing.words.next_word() % 5 {
        0 => world.equate(a, b),
        1 | 2 => world.differ(a, b),
        _ => compare(world, drawing),
    }
}

/// Compares the keeper with a plain one, and counts.
fn compare(world: &mut World, drawing: &mut Drawing) -> Result<(), NoMemory>
    requires { Serves world.old.difs world.old.store }
    ensures serves { Serves world.new.difs world.new.store }
    ensures grows { Grows world.old.store world.new.store }
    ensures after { IsAfter world.old.difs world.new.difs }
{
    let found = world.compared()?;
    count(&mut drawing.counts.compared, true);
    count(&mut drawing.counts.waited, found.waits);
    count(&mut drawing.counts.failed, !found.fine);
    count(&mut drawing.counts.different, !found.same);
    Ok(())
}

/// Counts one more where something holds.
fn count(counter: &mut u64, holds: bool) {
    if holds {
        *counter = counter.saturating_add(1);
    }
}
