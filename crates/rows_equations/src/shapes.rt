//! Shapes that are too large to be written: towers, lists, and levels of marks.
ghost use Rattle.std.specs.Prelude.{◌<◌, ◌≤◌, length, IfOk, OnOk};
ghost use Rattle.mars_store.specs.Marks.{AreMarks};

use crate::building::{bind_free, is_inside};
use crate::writing::{put, put_number};
use mars_base::NoMemory;
use mars_store::{Mark, NodeId, Store};
use mars_tree::{Label, NameId};
use mars_unify::{Unified, unify};
use std::alloc::Global;

const AA: Label = Label::Name {
    name: NameId(13),
    arity: 0,
};

const BB: Label = Label::Name {
    name: NameId(14),
    arity: 0,
};

const FF: Label = Label::Name {
    name: NameId(15),
    arity: 1,
};

/// Adds as many nodes over each other, the lowest over a node that is there.
fn add_tower(store: &mut Store, foot: NodeId, height: usize) -> Result<NodeId, NoMemory>
    requires { foot < length store.old.nodes }
    ensures top { IfOk result (λ top. top < length store.new.nodes) }
    ensures more { length store.old.nodes ≤ length store.new.nodes }
{
    let mut top = foot;
    for _ in 0..height {
        top = store.add(FF, &[top])?;
    }
    Ok(top)
}

/// Adds a list of dots with as many elements, and what it ends in.
fn add_list(
    store: &mut Store,
    element: NodeId,
    end: NodeId,
    count: usize,
) -> Result<NodeId, NoMemory>
    requires element_in { element < length store.old.nodes }
    requires end_in { end < length store.old.nodes }
    ensures top { IfOk result (λ top. top < length store.new.nodes) }
    ensures more { length store.old.nodes ≤ length store.new.nodes }
{
    let mut top = end;
    for _ in 0..count {
        top = store.add(Label::Dot, &[element, top])?;
    }
    Ok(top)
}

/// Writes what comes of an equation.
fn put_equation(
    alloc: Global,
    store: &mut Store,
    a: NodeId,
    b: NodeId,
    into: &mut Vec<u8>,
) -> Result<(), NoMemory>
    requires a_in { a < length store.old.nodes }
    requires b_in { b < length store.old.nodes }
    ensures { length store.old.nodes ≤ length store.new.nodes }
{
    put_unified(unify(alloc, store, a, b)?, into)
}

/// Writes an answer of `unify`.
pub(crate) fn put_unified(unified: Unified, into: &mut Vec<u8>) -> Result<(), NoMemory> {
    match unified {
        Unified::Yes { bound } => put_number(into, "yes ", bound),
        Unified::No => put(into, "no"),
    }
}

/// Two variables, each equal to a tower over itself, and then to each other.
pub(crate) fn put_towers(
    alloc: Global,
    one: usize,
    other: usize,
    into: &mut Vec<u8>,
) -> Result<(), NoMemory> {
    let mut store = Store::new(alloc);
    put_towers_in(alloc, &mut store, one, other, into)
}

/// Two towers in a store.
fn put_towers_in(
    alloc: Global,
    store: &mut Store,
    one: usize,
    other: usize,
    into: &mut Vec<u8>,
) -> Result<(), NoMemory> {
    let x = store.add_free()?;
    let y = store.add_free()?;
    let on_x = add_tower(store, x, one)?;
    let on_y = add_tower(store, y, other)?;
    put_equation(alloc, store, x, on_x, into)?;
    put(into, "; ")?;
    put_equation(alloc, store, y, on_y, into)?;
    put(into, "; ")?;
    put_equation(alloc, store, x, y, into)
}

/// A long list with itself, with its copy, and with one that differs at its end.
pub(crate) fn put_lists(alloc: Global, count: usize, into: &mut Vec<u8>) -> Result<(), NoMemory> {
    let mut store = Store::new(alloc);
    put_lists_in(alloc, &mut store, count, into)
}

/// Three lists in a store.
fn put_lists_in(
    alloc: Global,
    store: &mut Store,
    count: usize,
    into: &mut Vec<u8>,
) -> Result<(), NoMemory> {
    let aa = store.add(AA, &[])?;
    let bb = store.add(BB, &[])?;
    let one = add_list(store, aa, bb, count)?;
    let same = add_list(store, aa, bb, count)?;
    let other = add_list(store, aa, aa, count)?;
    put_equation(alloc, store, one, one, into)?;
    put(into, "; ")?;
    put_equation(alloc, store, one, same, into)?;
    put(into, "; ")?;
    put_equation(alloc, store, one, other, into)
}

/// On each level makes a mark, binds the variable of the level below, and adds one.
fn climb(
    store: &mut Store,
    marks: &mut Vec<Mark>,
    vars: &mut Vec<NodeId>,
    levels: usize,
    end: NodeId,
) -> Result<(), NoMemory>
    requires end_in { end < length store.old.nodes }
    requires marks { AreMarks store.old marks.old.items }
    ensures { OnOk result (AreMarks store.new marks.new.items) }
{
    let mut var = store.add_free()?;
    for _ in 0..levels {
        marks.push(store.mark())?;
        vars.push(var)?;
        bind_free(store, var, end)?;
        var = store.add_free()?;
    }
    Ok(())
}

/// Undoes level by level, and counts those on which the level's variable is free again.
fn descend(store: &mut Store, marks: &mut Vec<Mark>, vars: &[NodeId]) -> usize
    requires { AreMarks store.old marks.old.items }
{
    let mut free: usize = 0;
    while let Some(mark) = marks.pop() {
        store.undo_to(mark);
        if is_last_free(store, vars.get(marks.len()).copied()) {
            free = free.saturating_add(1);
        }
    }
    free
}

/// Whether a variable is there and free, and nothing younger is there.
fn is_last_free(store: &Store, var: Option<NodeId>) -> bool {
    match var {
        Some(var) => {
            is_inside(store, var)
                && store.deref(var) == var
                && store.mark().nodes - 1 == var.number()
        }
        None => false,
    }
}

/// Writes how much a store has.
pub(crate) fn put_size(store: &Store, into: &mut Vec<u8>) -> Result<(), NoMemory> {
    let mark = store.mark();
    put_number(into, "nodes ", mark.nodes)?;
    put_number(into, ", bound ", mark.bound)
}

/// Marks on so many levels, each within the one below, and undone from the last one on.
pub(crate) fn put_levels(alloc: Global, levels: usize, into: &mut Vec<u8>) -> Result<(), NoMemory> {
    let mut store = Store::new(alloc);
    put_levels_in(alloc, &mut store, levels, into)
}

/// Levels in a store.
fn put_levels_in(
    alloc: Global,
    store: &mut Store,
    levels: usize,
    into: &mut Vec<u8>,
) -> Result<(), NoMemory> {
    let free = climb_and_descend(alloc, store, levels, into)?;
    put_number(into, "; free again ", free)?;
    put(into, "; ")?;
    put_size(store, into)
}

/// Writes how much there is at the top, and gives on how many levels the variable is free again.
fn climb_and_descend(
    alloc: Global,
    store: &mut Store,
    levels: usize,
    into: &mut Vec<u8>,
) -> Result<usize, NoMemory> {
    let end = store.add(AA, &[])?;
    let mut marks = Vec::new(alloc);
    let mut vars = Vec::new(alloc);
    climb(store, &mut marks, &mut vars, levels, end)?;
    put_size(store, into)?;
    Ok(descend(store, &mut marks, &vars))
}
