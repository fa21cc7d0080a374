//! The workloads: a store with two nodes that are unified.
ghost use Rattle.std.specs.Prelude.{◌≡◌, ◌<◌, ◌≤◌, length, IfOk, OnOk};

use mars_base::NoMemory;
use mars_store::{NodeId, Store};
use mars_tree::{Label, NameId};
use std::alloc::Global;

const AA: Label = Label::Name {
    name: NameId(13),
    arity: 0,
};

const BB: Label = Label::Name {
    name: NameId(14),
    arity: 0,
};

const FF: Label = Label::Name {
    name: NameId(15),
    arity: 2,
};

const GG: Label = Label::Name {
    name: NameId(16),
    arity: 1,
};

/// What is unified.
#[derive(Clone, Copy, Debug, PartialEq, Eq)]
pub enum Kind {
    Cycles,
    Rows,
    Spaced,
    Small,
}

/// Two nodes of a store, and how many pairs of labelled nodes their unification meets.
#[derive(Drop)]
pub struct Workload {
    pub store: Store,
    pub left: NodeId,
    pub right: NodeId,
    pub pairs: usize,
    ghost left_in: { left < length store.nodes },
    ghost right_in: { right < length store.nodes },
}

/// The workload of a kind, of about so many nodes; a small one has no size.
pub fn make_workload(alloc: Global, kind: Kind, size: usize) -> Result<Workload, NoMemory> {
    match kind {
        Kind::Cycles => cycles(alloc, size),
        Kind::Rows => rows(alloc, size),
        Kind::Spaced => spaced(alloc, size),
        Kind::Small => small(alloc),
    }
}

/// Two cycles, one longer by two: each node of one meets each of the other, or every second one.
fn cycles(alloc: Global, size: usize) -> Result<Workload, NoMemory> {
    let mut store = Store::new(alloc);
    let x = store.add_free()?;
    let y = store.add_free()?;
    let on_x = add_tower(&mut store, x, size)?;
    let on_y = add_tower(&mut store, y, size.saturating_add(2))?;
    tie(&mut store, x, on_x)?;
    tie(&mut store, y, on_y)?;
    let product = size.saturating_mul(size.saturating_add(2));
    Ok(Workload {
        store,
        left: x,
        right: y,
        pairs: if size % 2 == 0 { product / 2 } else { product },
    })
}

/// Two rows of dots with the same elements.
fn rows(alloc: Global, size: usize) -> Result<Workload, NoMemory> {
    let mut store = Store::new(alloc);
    let element = store.add(AA, &[])?;
    let end = store.add(BB, &[])?;
    let left = add_row(&mut store, element, end, size)?;
    let right = add_row(&mut store, element, end, size)?;
    Ok(Workload {
        store,
        left,
        right,
        pairs: size,
    })
}

/// The same, with a variable between the dots of one row: no two pairs are on one diagonal of node numbers.
fn spaced(alloc: Global, size: usize) -> Result<Workload, NoMemory> {
    let mut store = Store::new(alloc);
    let element = store.add(AA, &[])?;
    let end = store.add(BB, &[])?;
    let left = add_row(&mut store, element, end, size)?;
    let right = add_spaced_row(&mut store, element, end, size)?;
    Ok(Workload {
        store,
        left,
        right,
        pairs: size,
    })
}

/// `ff(x,y)` and `ff(aa,bb)`.
fn small(alloc: Global) -> Result<Workload, NoMemory> {
    let mut store = Store::new(alloc);
    let x = store.add_free()?;
    let y = store.add_free()?;
    let aa = store.add(AA, &[])?;
    let bb = store.add(BB, &[])?;
    let left = store.add(FF, &[x, y])?;
    let right = store.add(FF, &[aa, bb])?;
    Ok(Workload {
        store,
        left,
        right,
        pairs: 1,
    })
}

/// Binds a variable to a node over it, where it is free.
fn tie(store: &mut Store, var: NodeId, to: NodeId) -> Result<(), NoMemory>
    requires var_in { var < length store.old.nodes }
    requires to_in { to < length store.old.nodes }
    ensures { store.new.nodes ≡ store.old.nodes }
{
    let free = store.deref(var) == var && store.root_label(var).is_none();
    if free && store.deref(to) != var {
        store.bind(var, to)?;
    }
    Ok(())
}

fn add_tower(store: &mut Store, foot: NodeId, height: usize) -> Result<NodeId, NoMemory>
    requires { foot < length store.old.nodes }
    ensures top { IfOk result (λ top. top < length store.new.nodes) }
    ensures more { length store.old.nodes ≤ length store.new.nodes }
{
    let mut top = foot;
    for _ in 0..height {
        top = store.add(GG, &[top])?;
    }
    Ok(top)
}

fn add_row(
    store: &mut Store,
    element: NodeId,
    end: NodeId,
    count: usize,
) -> Result<NodeId, NoMemory>
    requires element_in { element < length store.old.nodes }
    requires end_in { end < length store.old.nodes }
    ensures top { IfOk result (λ top. top < length store.new.nodes) }
    ensures more { length store.old.nodes ≤ length store.new.nodes }
{
    let mut top = end;
    for _ in 0..count {
        top = store.add(Label::Dot, &[element, top])?;
    }
    Ok(top)
}

fn add_spaced_row(
    store: &mut Store,
    element: NodeId,
    end: NodeId,
    count: usize,
) -> Result<NodeId, NoMemory>
    requires element_in { element < length store.old.nodes }
    requires end_in { end < length store.old.nodes }
    ensures top { IfOk result (λ top. top < length store.new.nodes) }
    ensures more { length store.old.nodes ≤ length store.new.nodes }
{
    let mut top = end;
    for _ in 0..count {
        store.add_free()?;
        top = store.add(Label::Dot, &[element, top])?;
    }
    Ok(top)
}
