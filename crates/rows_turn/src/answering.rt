//! The answer of a row, by its first word.
use crate::alone::{Stages, history_in_order, tell_stages};
use crate::book::answer_book;
use crate::closing::Closed;
use crate::history::{Entry, count_of, counted};
use crate::threads::{Shape, Told, history_of_four, keep_by_two};
use mars_base::NoMemory;
use std::alloc::Global;
use std::sync::Wait;
use std::thread::Threads;

/// Appends the answer of a row.
pub(crate) fn answer<R: Threads + Wait + Sync>(
    rt: &R,
    alloc: Global,
    row: &str,
    into: &mut String,
) -> Result<(), NoMemory> {
    let (word, rest) = row.split_once(' ').unwrap_or((row, ""));
    match word {
        "threads" => answer_threads(rt, alloc, rest, into),
        "keep" => answer_keep(rt, alloc, rest, into),
        "order" => answer_order(rt, alloc, rest, into),
        "complete" => push_stages(alloc, tell_stages(rt, alloc)?, into),
        "book" => answer_book(rt, alloc, rest, into),
        _ => push(into, "no such row"),
    }
}

/// Appends a text.
fn push(into: &mut String, text: &str) -> Result<(), NoMemory> {
    into.push_str(text)?;
    Ok(())
}

/// `1 2 1`: passes that put items in this order.
fn answer_order<R: Wait>(
    rt: &R,
    alloc: Global,
    rest: &str,
    into: &mut String,
) -> Result<(), NoMemory> {
    match history_in_order(rt, alloc, rest)? {
        Some(closed) => push_list(alloc, &closed, into),
        None => push(into, "not complete"),
    }
}

/// `COUNT SHAPE`: four callers in four threads.
fn answer_threads<R: Threads + Wait + Sync>(
    rt: &R,
    alloc: Global,
    rest: &str,
    into: &mut String,
) -> Result<(), NoMemory> {
    let (count, shape) = rest.split_once(' ').unwrap_or((rest, ""));
    let shape = match shape {
        "chain" => Shape::Chain,
        "pairs" => Shape::Pairs,
        _ => return push(into, "no such shape"),
    };
    let Ok(count) = count.parse::<u64>() else {
        return push(into, "a number is wanted");
    };
    match history_of_four(rt, alloc, count, shape)? {
        Some(closed) => push_four(alloc, &closed, count, into),
        None => push(into, "not complete"),
    }
}

/// `ITEM`: two callers in two threads.
fn answer_keep<R: Threads + Wait + Sync>(
    rt: &R,
    alloc: Global,
    rest: &str,
    into: &mut String,
) -> Result<(), NoMemory> {
    let Ok(item) = rest.parse::<u64>() else {
        return push(into, "a number is wanted");
    };
    match keep_by_two(rt, alloc, item)? {
        Some(told) => push_told(alloc, &told, into),
        None => push(into, "not complete"),
    }
}

/// Appends whether each of four callers has its items, each once and in order, and how many items there are.
fn push_four(
    alloc: Global,
    closed: &Closed,
    count: u64,
    into: &mut String,
) -> Result<(), NoMemory> {
    let entries = closed.history.entries.as_slice();
    let one = counted(entries, 1) == Some(count);
    let two = counted(entries, 2) == Some(count);
    let three = counted(entries, 3) == Some(count);
    let four = counted(entries, 4) == Some(count);
    let (all, limit, by) = (entries.len(), closed.history.limit, closed.by);
    let text = format!(in alloc;
        "in order {one} {two} {three} {four}, {all} in all, limit {limit}, closed by {by}"
    )?;
    push(into, text.as_str())
}

/// Appends what two callers were told, and how many entries each has.
fn push_told(alloc: Global, told: &Told, into: &mut String) -> Result<(), NoMemory> {
    let (one, two) = (told.one, told.two);
    let entries = told.closed.history.entries.as_slice();
    let (first, second) = (count_of(entries, 1), count_of(entries, 2));
    let (all, by) = (entries.len(), told.closed.by);
    let text = format!(in alloc;
        "told {one:?} and {two:?}, entries {first} and {second} of {all}, closed by {by}"
    )?;
    push(into, text.as_str())
}

/// Appends a history.
fn push_list(alloc: Global, closed: &Closed, into: &mut String) -> Result<(), NoMemory> {
    for entry in closed.history.entries.as_slice() {
        push_entry(alloc, *entry, into)?;
    }
    let (limit, by) = (closed.history.limit, closed.by);
    let text = format!(in alloc; "limit {limit}, closed by {by}")?;
    push(into, text.as_str())
}

/// Appends an entry.
fn push_entry(alloc: Global, entry: Entry, into: &mut String) -> Result<(), NoMemory> {
    let Entry { who, item } = entry;
    let text = format!(in alloc; "{who}:{item} ")?;
    push(into, text.as_str())
}

/// Appends when a pass is complete.
fn push_stages(alloc: Global, stages: Stages, into: &mut String) -> Result<(), NoMemory> {
    let Stages {
        alone,
        inside,
        with_another,
        other,
        joined,
        number,
    } = stages;
    let text = format!(in alloc;
        "alone {alone}, inside {inside}, with another {with_another}, the other {other}, joined {joined} as {number}"
    )?;
    push(into, text.as_str())
}
