//! Rows of changes to a line and to watchers, one word a change.
ghost use Rattle.std.specs.Prelude.{IsTrue, length};
ghost use Rattle.mars_watch.specs.Lined.{AreAscending};

use crate::writing::{put, put_break, put_number};
use mars_base::NoMemory;
use mars_store::{NodeId, Store};
use mars_watch::{Line, Watchers};
use std::alloc::Global;

/// A word as a name and the number after its colon, 0 where there is none.
fn number_of(word: &str) -> (&str, usize) {
    match word.split_once(':') {
        Some((name, number)) => (name, number.parse::<usize>().unwrap_or(0)),
        None => (word, 0),
    }
}

/// Writes numbers in brackets.
fn put_numbers(into: &mut Vec<u8>, numbers: &[usize]) -> Result<(), NoMemory> {
    put(into, "[")?;
    for place in 0..numbers.len() {
        put_number(into, if place == 0 { "" } else { " " }, numbers[place])?;
    }
    put(into, "]")
}

/// Runs a row of changes to a line: `add:5`, `leave:1,2`, `undo:3`, `now`, `changes`.
pub(crate) fn put_line(alloc: Global, words: &str, into: &mut Vec<u8>) -> Result<(), NoMemory> {
    let mut line = Line::new(alloc);
    for word in words.split_whitespace() {
        change_line(alloc, &mut line, word, into)?;
    }
    Ok(())
}

fn change_line(
    alloc: Global,
    line: &mut Line<usize>,
    word: &str,
    into: &mut Vec<u8>,
) -> Result<(), NoMemory> {
    match number_of(word) {
        ("add", item) => line.add(item)?,
        ("leave", _) => leave(alloc, line, word, into)?,
        ("undo", mark) if mark <= line.changes() => line.undo_to(mark),
        ("now", _) => {
            put_break(into)?;
            put_numbers(into, line.now())?;
        }
        ("changes", _) => {
            put_break(into)?;
            put_number(into, "", line.changes())?;
        }
        _ => {
            put_break(into)?;
            put(into, "?")?;
        }
    }
    Ok(())
}

/// Takes out the items at the places after a colon, with commas between them.
fn leave(
    alloc: Global,
    line: &mut Line<usize>,
    word: &str,
    into: &mut Vec<u8>,
) -> Result<(), NoMemory> {
    let mut places = Vec::new(alloc);
    if let Some((_leave, list)) = word.split_once(':') {
        push_places(list, &mut places)?;
    }
    leave_at(line, &places, into)
}

/// Puts the places of a list with commas last in a list.
fn push_places(list: &str, into: &mut Vec<usize>) -> Result<(), NoMemory> {
    for place in list.split(',') {
        into.push(place.parse::<usize>().unwrap_or(usize::MAX))?;
    }
    Ok(())
}

/// Takes out the items at places, where these ascend below the line's length.
fn leave_at(line: &mut Line<usize>, places: &[usize], into: &mut Vec<u8>) -> Result<(), NoMemory> {
    if !are_ascending(places, line.now().len()) {
        put_break(into)?;
        return put(into, "?");
    }
    line.leave(places)
}

/// Whether places ascend below a size.
fn are_ascending(places: &[usize], size: usize) -> bool
    ensures { IsTrue result → AreAscending 0 places.now size }
{
    let mut bound = size;
    let mut left = places.len();
    while left > 0 {
        left -= 1;
        if places[left] >= bound {
            return false;
        }
        bound = places[left];
    }
    true
}

/// How many variables a row of watchers may speak of.
const VARIABLES: usize = 4;

/// Runs a row of watchers: `watch:1:10` lets item 10 wait at variable 1, `gather:1` gathers what waits there after what
/// was gathered before, `undo:2`, `len`.
pub(crate) fn put_watchers(alloc: Global, words: &str, into: &mut Vec<u8>) -> Result<(), NoMemory> {
    let mut store = Store::new(alloc);
    let mut vars = Vec::new(alloc);
    push_variables(&mut store, &mut vars)?;
    put_changes(alloc, &vars, words, into)
}

/// Adds variables to a store, and puts them last in a list.
fn push_variables(store: &mut Store, into: &mut Vec<NodeId>) -> Result<(), NoMemory> {
    for _ in 0..VARIABLES {
        let var = store.add_free()?;
        into.push(var)?;
    }
    Ok(())
}

/// Runs changes to watchers that wait at some variables.
fn put_changes(
    alloc: Global,
    vars: &[NodeId],
    words: &str,
    into: &mut Vec<u8>,
) -> Result<(), NoMemory> {
    let mut watchers = Watchers::new(alloc);
    let mut woken = Vec::new(alloc);
    change_by_words(&mut watchers, vars, &mut woken, words, into)
}

/// Changes watchers word by word.
fn change_by_words(
    watchers: &mut Watchers,
    vars: &[NodeId],
    woken: &mut Vec<usize>,
    words: &str,
    into: &mut Vec<u8>,
) -> Result<(), NoMemory> {
    for word in words.split_whitespace() {
        change_watchers(watchers, vars, woken, word, into)?;
    }
    Ok(())
}

fn change_watchers(
    watchers: &mut Watchers,
    vars: &[NodeId],
    woken: &mut Vec<usize>,
    word: &str,
    into: &mut Vec<u8>,
) -> Result<(), NoMemory> {
    match number_of(word) {
        ("watch", _) => watch(watchers, vars, word)?,
        ("gather", at) => {
            if let Some(var) = vars.get(at) {
                watchers.gather(*var, woken)?;
            }
            put_break(into)?;
            put_numbers(into, woken)?;
        }
        ("undo", mark) if mark <= watchers.len() => watchers.undo_to(mark),
        ("len", _) => {
            put_break(into)?;
            put_number(into, "", watchers.len())?;
        }
        _ => {
            put_break(into)?;
            put(into, "?")?;
        }
    }
    Ok(())
}

/// Lets an item wait at a variable: both numbers come after colons.
fn watch(watchers: &mut Watchers, vars: &[NodeId], word: &str) -> Result<(), NoMemory> {
    if let Some((_watch, numbers)) = word.split_once(':') {
        let (at, item) = number_of(numbers);
        if let Some(var) = vars.get(at.parse::<usize>().unwrap_or(0)) {
            watchers.watch(*var, item)?;
        }
    }
    Ok(())
}
