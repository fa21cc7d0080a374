//! Random terms, whose numbers are worked out plainly, one operation after the other, beside `eval`.
use crate::building::{bind_free, is_inside};
use crate::writing::{put, put_number};
use mars_base::NoMemory;
use mars_store::{NodeId, Store};
use mars_tree::{Label, NameId};
use mars_val::eval;
use rows::Draw;
use std::alloc::Global;

/// So many times a term is added, or one is made of two.
const CHANGES: usize = 12;

/// The operations by their places among the built-in names, and a name that is none.
const NAMES: [u32; 6] = [7, 8, 9, 10, 11, 0];

/// How many terms had the same number by both, how many of these had one and how many had none.
#[derive(Clone, Copy)]
struct Told {
    alike: usize,
    with: usize,
    without: usize,
}

/// Draws so many terms, and writes how many have the number by `eval` that they have plainly, and whether some have one and
/// some have none.
pub(crate) fn put_plain(alloc: Global, count: usize, into: &mut Vec<u8>) -> Result<(), NoMemory> {
    let mut draw = Draw::new(25);
    let mut told = Told {
        alike: 0,
        with: 0,
        without: 0,
    };
    for _ in 0..count {
        told = tell_next(alloc, &mut draw, told)?;
    }
    put_number(into, "alike ", told.alike)?;
    put(into, if told.with > 0 { ", some have one" } else { "" })?;
    put(
        into,
        if told.without > 0 {
            ", some have none"
        } else {
            ""
        },
    )
}

/// Draws a term, and counts it.
fn tell_next(alloc: Global, draw: &mut Draw, told: Told) -> Result<Told, NoMemory> {
    let mut store = Store::new(alloc);
    let mut nodes = Vec::new(alloc);
    let mut numbers = Vec::new(alloc);
    add_integer(draw, &mut store, &mut nodes, &mut numbers)?;
    for _ in 0..CHANGES {
        change(draw, &mut store, &mut nodes, &mut numbers)?;
    }
    match (nodes.last(), numbers.last()) {
        (Some(node), Some(number)) => tell(alloc, &store, *node, *number, told),
        _ => Ok(told),
    }
}

/// Counts a term whose plain number is given.
fn tell(
    alloc: Global,
    store: &Store,
    node: NodeId,
    number: Option<i64>,
    told: Told,
) -> Result<Told, NoMemory> {
    if !is_inside(store, node) || eval(alloc, store, node)? != number {
        return Ok(told);
    }
    let is_number = number.is_some();
    Ok(Told {
        alike: told.alike.saturating_add(1),
        with: told.with.saturating_add(usize::from(is_number)),
        without: told.without.saturating_add(usize::from(!is_number)),
    })
}

/// Adds a term, or makes one of the last two.
fn change(
    draw: &mut Draw,
    store: &mut Store,
    nodes: &mut Vec<NodeId>,
    numbers: &mut Vec<Option<i64>>,
) -> Result<(), NoMemory> {
    match draw.below(9) {
        0 => add_variable(store, nodes, numbers),
        1..=4 => add_integer(draw, store, nodes, numbers),
        _ => operate(draw, store, nodes, numbers),
    }
}

/// Adds a variable: bound to the last term, where there is one, it has that term's number.
fn add_variable(
    store: &mut Store,
    nodes: &mut Vec<NodeId>,
    numbers: &mut Vec<Option<i64>>,
) -> Result<(), NoMemory> {
    let var = store.add_free()?;
    let number = match (nodes.last(), numbers.last()) {
        (Some(node), Some(number)) if bind_free(store, var, *node)? => *number,
        _ => None,
    };
    nodes.push(var)?;
    numbers.push(number)?;
    Ok(())
}

/// Adds an integer: a small one, or one at an end of those that there are.
fn add_integer(
    draw: &mut Draw,
    store: &mut Store,
    nodes: &mut Vec<NodeId>,
    numbers: &mut Vec<Option<i64>>,
) -> Result<(), NoMemory> {
    let number = match draw.below(10) {
        0 => i64::MAX,
        1 => i64::MIN,
        small => small as i64 - 5,
    };
    let node = store.add(Label::Int(number), &[])?;
    nodes.push(node)?;
    numbers.push(Some(number))?;
    Ok(())
}

/// Makes a term of the last two.
fn operate(
    draw: &mut Draw,
    store: &mut Store,
    nodes: &mut Vec<NodeId>,
    numbers: &mut Vec<Option<i64>>,
) -> Result<(), NoMemory> {
    if nodes.len() < 2 || numbers.len() < 2 {
        return Ok(());
    }
    let (Some(right), Some(left)) = (nodes.pop(), nodes.pop()) else {
        return Ok(());
    };
    let (Some(second), Some(first)) = (numbers.pop(), numbers.pop()) else {
        return Ok(());
    };
    if !is_inside(store, left) || !is_inside(store, right) {
        return Ok(());
    }
    let which = draw.below(NAMES.len());
    let name = NameId(NAMES[which]);
    let node = store.add(Label::Name { name, arity: 2 }, &[left, right])?;
    nodes.push(node)?;
    numbers.push(result_of(which, first, second))?;
    Ok(())
}

/// The result of an operation, none where there is none or it is outside i64.
fn result_of(which: usize, first: Option<i64>, second: Option<i64>) -> Option<i64> {
    let (first, second) = (first?, second?);
    match which {
        0 => first.checked_add(second),
        1 => first.checked_sub(second),
        2 => first.checked_mul(second),
        3 => first.checked_div(second),
        4 => first.checked_rem(second),
        _ => None,
    }
}
