//! Rows of numbers: a term in postfix, and its number.
use crate::building::{bind_free, is_inside};
use crate::writing::put;
use itoa::Buffer;
use mars_base::NoMemory;
use mars_store::{NodeId, Store};
use mars_tree::{Label, NameId};
use mars_val::eval;
use std::alloc::Global;

/// Writes the number of the term that a row has in postfix: `7` is an integer, `x` a variable, `add` an operation on the
/// two terms before it, `copy` the term before it once more, and `tie` binds the first node to the last term.
pub(crate) fn put_term_number(
    alloc: Global,
    words: &str,
    into: &mut Vec<u8>,
) -> Result<(), NoMemory> {
    let mut store = Store::new(alloc);
    let mut stack = Vec::new(alloc);
    push_all(&mut store, &mut stack, words)?;
    put_last(alloc, &store, &stack, into)
}

/// Does what the words of a row say.
fn push_all(store: &mut Store, stack: &mut Vec<NodeId>, words: &str) -> Result<(), NoMemory> {
    for word in words.split_whitespace() {
        push_term(store, stack, word)?;
    }
    Ok(())
}

/// Does what a word of a row says.
fn push_term(store: &mut Store, stack: &mut Vec<NodeId>, word: &str) -> Result<(), NoMemory> {
    match name_of(word) {
        Some(name) => push_pair(store, stack, name),
        None => push_leaf(store, stack, word),
    }
}

/// An operation's name by its place among the built-in names, and `eq`, which is no operation.
fn name_of(word: &str) -> Option<NameId> {
    match word {
        "eq" => Some(NameId(0)),
        "add" => Some(NameId(7)),
        "sub" => Some(NameId(8)),
        "mul" => Some(NameId(9)),
        "div" => Some(NameId(10)),
        "mod" => Some(NameId(11)),
        _ => None,
    }
}

/// Puts a name over the two last terms.
fn push_pair(store: &mut Store, stack: &mut Vec<NodeId>, name: NameId) -> Result<(), NoMemory> {
    let (Some(right), Some(left)) = (stack.pop(), stack.pop()) else {
        return Ok(());
    };
    if !is_inside(store, left) || !is_inside(store, right) {
        return Ok(());
    }
    let node = store.add(Label::Name { name, arity: 2 }, &[left, right])?;
    stack.push(node)?;
    Ok(())
}

/// Puts a variable, an integer or a copy last, or ties the first variable.
fn push_leaf(store: &mut Store, stack: &mut Vec<NodeId>, word: &str) -> Result<(), NoMemory> {
    let node = match (word, stack.last().copied()) {
        ("x", _) => store.add_free()?,
        ("copy", Some(last)) => last,
        ("tie", Some(last)) => return tie(store, last),
        _ => store.add(Label::Int(word.parse::<i64>().unwrap_or(0)), &[])?,
    };
    stack.push(node)?;
    Ok(())
}

/// Binds the first node to another, where it is a variable.
fn tie(store: &mut Store, to: NodeId) -> Result<(), NoMemory> {
    let _is_bound = bind_free(store, NodeId::default(), to)?;
    Ok(())
}

/// Writes the number of the last term.
fn put_last(
    alloc: Global,
    store: &Store,
    stack: &[NodeId],
    into: &mut Vec<u8>,
) -> Result<(), NoMemory> {
    match stack.last() {
        Some(node) if is_inside(store, *node) => put_number(eval(alloc, store, *node)?, into),
        _ => put(into, "?"),
    }
}

fn put_number(number: Option<i64>, into: &mut Vec<u8>) -> Result<(), NoMemory> {
    match number {
        Some(number) => put(into, Buffer::new().format(number)),
        None => put(into, "none"),
    }
}
