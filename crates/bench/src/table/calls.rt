//! What calls of a table take.
use crate::failing::no_memory;
use crate::table::trees::{large_tree, small_tree};
use mars_base::NoMemory;
use mars_canon::Tree;
use mars_rows::Rows;
use mars_table::{Call, Handle, Reply, Table};
use std::alloc::Global;
use std::io;
use std::time::{Clock, Instant};

/// The caller of all calls.
const WHO: u32 = 0;

/// More rows than are measured.
const LIMIT: u64 = 4_000_000_000;

/// The nanoseconds of interning trees for the first time and again, and the rows then.
#[derive(Clone, Copy, Debug, PartialEq, Eq)]
pub struct Interns {
    pub first: u128,
    pub again: u128,
    pub rows: u64,
}

/// The nanoseconds of pins and drops, and how many calls were made.
#[derive(Clone, Copy, Debug, PartialEq, Eq)]
pub struct Pins {
    pub time: u128,
    pub calls: usize,
}

/// The nanoseconds of a sweep that takes nothing and of one that takes all rows, the rows, and how many went.
#[derive(Clone, Copy, Debug, PartialEq, Eq)]
pub struct Sweeps {
    pub held: u128,
    pub free: u128,
    pub rows: u64,
    pub gone: u64,
}

/// Makes a call, where it may be made.
fn call_table(table: &mut Table, call: Call) -> Result<Option<Reply>, NoMemory> {
    if !table.may_call(WHO, &call) {
        return Ok(None);
    }
    let reply = table.apply(WHO, call)?;
    Ok(Some(reply))
}

/// Interns a tree; gives its number.
fn intern(table: &mut Table, tree: Tree) -> Result<Option<Handle>, NoMemory> {
    match call_table(table, Call::Intern(tree))? {
        Some(Reply::Kept(handle)) => Ok(Some(handle)),
        _ => Ok(None),
    }
}

/// So many small trees.
fn small_trees(alloc: Global, count: usize) -> Result<Vec<Tree>, NoMemory> {
    let mut trees = Vec::new(alloc);
    for number in 0..count {
        if let Some(tree) = small_tree(alloc, number)? {
            trees.push(tree)?;
        }
    }
    Ok(trees)
}

/// Interns trees one after the other.
fn intern_all(table: &mut Table, trees: Vec<Tree>) -> Result<(), NoMemory> {
    for tree in trees {
        let _ = intern(table, tree)?;
    }
    Ok(())
}

/// The nanoseconds of interning trees.
fn time_of_interns(clock: &impl Clock, table: &mut Table, trees: Vec<Tree>) -> io::Result<u128> {
    let start = Instant::now(clock)?;
    intern_all(table, trees).map_err(no_memory)?;
    Ok(start.elapsed(clock)?.as_nanos())
}

/// The same of so many small trees.
fn time_of_small(
    clock: &impl Clock,
    alloc: Global,
    table: &mut Table,
    count: usize,
) -> io::Result<u128> {
    let trees = small_trees(alloc, count).map_err(no_memory)?;
    time_of_interns(clock, table, trees)
}

/// What interning so many small trees takes, and again.
pub fn time_interns(clock: &impl Clock, alloc: Global, count: usize) -> io::Result<Interns> {
    let mut table = Table::new(alloc, LIMIT);
    let first = time_of_small(clock, alloc, &mut table, count)?;
    let again = time_of_small(clock, alloc, &mut table, count)?;
    let (rows, _) = table.counts();
    Ok(Interns { first, again, rows })
}

/// Puts so many pins on a row.
fn put_pins(table: &mut Table, handle: Handle, count: usize) -> Result<(), NoMemory> {
    for _ in 0..count {
        let _ = call_table(table, Call::Pin(handle))?;
    }
    Ok(())
}

/// Puts a pin on a row and takes one off, so many times.
fn pin_and_drop(table: &mut Table, handle: Handle, count: usize) -> Result<(), NoMemory> {
    for _ in 0..count {
        let _ = call_table(table, Call::Pin(handle))?;
        let _ = call_table(table, Call::Drop(handle))?;
    }
    Ok(())
}

/// The row of a small tree, with one pin.
fn one_row(alloc: Global, table: &mut Table, number: usize) -> Result<Handle, NoMemory> {
    match small_tree(alloc, number)? {
        Some(tree) => match intern(table, tree)? {
            Some(handle) => Ok(handle),
            None => Ok(Handle(0)),
        },
        None => Ok(Handle(0)),
    }
}

/// A row whose pins come after so many others.
fn row_after(alloc: Global, table: &mut Table, others: usize) -> Result<Handle, NoMemory> {
    let first = one_row(alloc, table, 0)?;
    put_pins(table, first, others)?;
    one_row(alloc, table, 1)
}

/// What so many pins and drops take on a row whose pins come after so many others, each call with its test.
pub fn time_pins(
    clock: &impl Clock,
    alloc: Global,
    count: usize,
    others: usize,
) -> io::Result<Pins> {
    let mut table = Table::new(alloc, LIMIT);
    let handle = row_after(alloc, &mut table, others).map_err(no_memory)?;
    let before = table.history().len();
    let start = Instant::now(clock)?;
    pin_and_drop(&mut table, handle, count).map_err(no_memory)?;
    Ok(Pins {
        time: start.elapsed(clock)?.as_nanos(),
        calls: table.history().len().saturating_sub(before),
    })
}

/// Interns so many large trees, and lists their numbers.
fn fill_table(
    alloc: Global,
    table: &mut Table,
    count: usize,
    handles: &mut Vec<Handle>,
) -> Result<(), NoMemory> {
    for number in 0..count {
        if let Some(tree) = large_tree(alloc, number)? {
            if let Some(handle) = intern(table, tree)? {
                handles.push(handle)?;
            }
        }
    }
    Ok(())
}

/// Takes one pin off each row of a list.
fn drop_all(table: &mut Table, handles: &[Handle]) -> Result<(), NoMemory> {
    for handle in handles {
        let _ = call_table(table, Call::Drop(*handle))?;
    }
    Ok(())
}

/// The nanoseconds of a sweep, and how many rows went.
fn time_of_sweep(clock: &impl Clock, table: &mut Table) -> io::Result<(u128, u64)> {
    let start = Instant::now(clock)?;
    let reply = call_table(table, Call::Sweep).map_err(no_memory)?;
    let time = start.elapsed(clock)?.as_nanos();
    match reply {
        Some(Reply::Swept(gone)) => Ok((time, gone)),
        _ => Ok((time, 0)),
    }
}

/// What sweeps of a table take that holds these rows, before and after their pins go.
fn time_both(clock: &impl Clock, table: &mut Table, handles: &[Handle]) -> io::Result<Sweeps> {
    let (rows, _) = table.counts();
    let (held, _) = time_of_sweep(clock, table)?;
    drop_all(table, handles).map_err(no_memory)?;
    let (free, gone) = time_of_sweep(clock, table)?;
    Ok(Sweeps {
        held,
        free,
        rows,
        gone,
    })
}

/// What sweeps of so many large trees take.
pub fn time_sweeps(clock: &impl Clock, alloc: Global, count: usize) -> io::Result<Sweeps> {
    let mut table = Table::new(alloc, LIMIT);
    let mut handles = Vec::new(alloc);
    fill_table(alloc, &mut table, count, &mut handles).map_err(no_memory)?;
    time_both(clock, &mut table, &handles)
}

/// Adds a tree to rows. At a number past 2^126 nothing is added.
fn add(rows: &mut Rows, tree: &Tree) -> Result<(), NoMemory> {
    if rows.next_number() < 1 << 126 {
        let _ = rows.add(tree)?;
    }
    Ok(())
}

/// Adds so many large trees to rows.
fn fill_rows(alloc: Global, rows: &mut Rows, count: usize) -> Result<(), NoMemory> {
    for number in 0..count {
        if let Some(tree) = large_tree(alloc, number)? {
            add(rows, &tree)?;
        }
    }
    Ok(())
}

/// How many rows so many large trees make, in rows alone.
pub fn hold_rows(alloc: Global, count: usize) -> io::Result<u64> {
    let mut rows = Rows::new(alloc, LIMIT);
    fill_rows(alloc, &mut rows, count).map_err(no_memory)?;
    Ok(rows.counts().0)
}

/// The same in a table, whose history keeps each tree.
pub fn hold_table(alloc: Global, count: usize) -> io::Result<u64> {
    let mut table = Table::new(alloc, LIMIT);
    let mut handles = Vec::new(alloc);
    fill_table(alloc, &mut table, count, &mut handles).map_err(no_memory)?;
    Ok(table.counts().0)
}
