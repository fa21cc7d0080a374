//! Rows on the book. `book threads` has two threads that keep one tree, each with a pass of its own; `book alone` has one pass
//! that makes each call. What is told is the same however the threads ran.
mod alone;
mod threads;
mod trees;

use crate::book::alone::{Told, call_alone};
use crate::book::threads::{Closed, keep_by_two};
use crate::book::trees::cycle;
use mars_base::NoMemory;
use mars_canon::Tree;
use mars_table::Handle;
use std::alloc::Global;
use std::sync::Wait;
use std::thread::Threads;

/// Appends the answer of a row on the book.
pub(crate) fn answer_book<R: Threads + Wait + Sync>(
    rt: &R,
    alloc: Global,
    rest: &str,
    into: &mut String,
) -> Result<(), NoMemory> {
    let Some(tree) = cycle(alloc)? else {
        return push(into, "no tree");
    };
    match rest {
        "threads" => answer_threads(rt, alloc, &tree, into),
        "alone" => answer_alone(rt, alloc, tree, into),
        _ => push(into, "no such row"),
    }
}

/// Appends a text.
fn push(into: &mut String, text: &str) -> Result<(), NoMemory> {
    into.push_str(text)?;
    Ok(())
}

/// Two threads keep a tree.
fn answer_threads<R: Threads + Wait + Sync>(
    rt: &R,
    alloc: Global,
    tree: &Tree,
    into: &mut String,
) -> Result<(), NoMemory> {
    match keep_by_two(rt, alloc, tree)? {
        Some(closed) => push_closed(alloc, closed, into),
        None => push(into, "not complete"),
    }
}

/// Appends what two threads were told, and what the closed table has.
fn push_closed(alloc: Global, closed: Closed, into: &mut String) -> Result<(), NoMemory> {
    let Closed {
        one,
        two,
        first,
        second,
        entries,
        rows,
        pins,
        by,
    } = closed;
    let text = format!(in alloc;
        "told {one:?} and {two:?}, entries {first} and {second} of {entries}, rows {rows}, pins {pins}, closed by {by}"
    )?;
    push(into, text.as_str())
}

/// One pass keeps a tree, and makes each call.
fn answer_alone<R: Wait>(
    rt: &R,
    alloc: Global,
    tree: Tree,
    into: &mut String,
) -> Result<(), NoMemory> {
    match call_alone(rt, alloc, tree)? {
        Some(told) => push_calls(alloc, told, into),
        None => push(into, "full"),
    }
}

/// Appends what each call answered.
fn push_calls(alloc: Global, told: Told, into: &mut String) -> Result<(), NoMemory> {
    let Told {
        handle: Handle(number),
        shown,
        swept,
        rows,
        pins,
        again,
        by_door,
    } = told;
    let text = format!(in alloc;
        "kept #{number}, nodes shown {shown}, swept {swept}, rows {rows}, pins {pins}, nodes shown {again}, pins by the door {by_door}"
    )?;
    push(into, text.as_str())
}
