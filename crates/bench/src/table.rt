//! Measures the table: what interning small trees takes, a pin and its drop, and a sweep of many rows; and fills rows, or a
//! table, so that the memory can be looked at from outside.
//!
//! Without words it writes what small numbers make. With the words `intern N`, `pins N P`, `sweep T`, `rows T` or `table T`
//! it writes microseconds and counts.
mod calls;
mod trees;

use crate::table::calls::{hold_rows, hold_table, time_interns, time_pins, time_sweeps};
use crate::words::Words;
use std::io;
use std::time::Clock;

/// What is measured.
#[derive(Clone, Copy, Debug, PartialEq, Eq)]
enum Task {
    /// So many small trees are interned, twice.
    Intern(usize),
    /// So many pins and drops beside so many other pins.
    Pins(usize, usize),
    /// So many large trees are swept, held and then not.
    Sweep(usize),
    /// So many large trees go into rows.
    Rows(usize),
    /// So many large trees go into a table.
    Table(usize),
}

/// Measures as the words say.
pub(crate) fn measure<R: Print + AllocGlobal + Clock>(rt: &R, words: Words) -> io::Result<()> {
    match read_task(words) {
        Some(task) => write_task(rt, task),
        None => write_small(rt),
    }
}

/// The words as a task, where they are one.
fn read_task(words: Words) -> Option<Task> {
    let Words {
        first,
        second,
        third,
    } = words;
    let (name, count) = (first?, second?);
    let count = count.as_str().parse::<usize>().ok()?;
    match name.as_str() {
        "intern" => Some(Task::Intern(count)),
        "pins" => Some(Task::Pins(count, third?.as_str().parse::<usize>().ok()?)),
        "sweep" => Some(Task::Sweep(count)),
        "rows" => Some(Task::Rows(count)),
        "table" => Some(Task::Table(count)),
        _ => None,
    }
}

/// Writes what small numbers make, without times.
fn write_small<R: Print + AllocGlobal + Clock>(rt: &R) -> io::Result<()> {
    let interns = time_interns(rt, rt.alloc(), 100)?;
    println!(rt; "intern 100: {} rows", interns.rows)?;
    let pins = time_pins(rt, rt.alloc(), 10, 5)?;
    println!(rt; "pins 10 5: {} calls", pins.calls)?;
    let sweeps = time_sweeps(rt, rt.alloc(), 2)?;
    println!(rt; "sweep 2: {} rows, {} go", sweeps.rows, sweeps.gone)
}

/// Writes what a task takes.
fn write_task<R: Print + AllocGlobal + Clock>(rt: &R, task: Task) -> io::Result<()> {
    match task {
        Task::Intern(count) => write_interns(rt, count),
        Task::Pins(count, others) => write_pins(rt, count, others),
        Task::Sweep(count) => write_sweeps(rt, count),
        Task::Rows(count) => {
            let rows = hold_rows(rt.alloc(), count)?;
            println!(rt; "rows {count}: {rows} rows")
        }
        Task::Table(count) => {
            let rows = hold_table(rt.alloc(), count)?;
            println!(rt; "table {count}: {rows} rows")
        }
    }
}

/// Writes what interning small trees takes.
fn write_interns<R: Print + AllocGlobal + Clock>(rt: &R, count: usize) -> io::Result<()> {
    let interns = time_interns(rt, rt.alloc(), count)?;
    println!(rt;
        "intern {count}: first {} us, again {} us, {} rows",
        interns.first / 1000,
        interns.again / 1000,
        interns.rows
    )
}

/// Writes what pins and drops take.
fn write_pins<R: Print + AllocGlobal + Clock>(
    rt: &R,
    count: usize,
    others: usize,
) -> io::Result<()> {
    let pins = time_pins(rt, rt.alloc(), count, others)?;
    println!(rt;
        "pins {count} {others}: {} us, {} calls",
        pins.time / 1000,
        pins.calls
    )
}

/// Writes what sweeps take.
fn write_sweeps<R: Print + AllocGlobal + Clock>(rt: &R, count: usize) -> io::Result<()> {
    let sweeps = time_sweeps(rt, rt.alloc(), count)?;
    println!(rt;
        "sweep {count}: {} rows, held {} us, {} go {} us",
        sweeps.rows,
        sweeps.held / 1000,
        sweeps.gone,
        sweeps.free / 1000
    )
}
