//! Answers rows on the turn and on the book: callers that take the turn one after the other, and that call one table, on one
//! thread and in several. Each line of standard input is written again, and after it `-->` and its answer where it is a row:
//! no comment and not blank.
#![tactic(auto)]

mod alone;
mod answering;
mod book;
mod callers;
mod closing;
mod history;
mod threads;

use crate::answering::answer;
use mars_base::NoMemory;
use std::alloc::{AllocError, Global};
use std::io;
use std::io::Write;
use std::sync::Wait;
use std::thread::Threads;

fn main(rt: HostRuntime) -> io::Result<()> {
    for line in rt.lines(rt.alloc()) {
        let line = line?;
        let text = answered(&rt, rt.alloc(), line.as_str())?;
        io::writer(&rt).write_all(text.as_bytes())?;
    }
    Ok(())
}

/// A line, and after it its answer where it is a row.
fn answered<R: Threads + Wait + Sync>(
    rt: &R,
    alloc: Global,
    line: &str,
) -> Result<String, AllocError> {
    let mut text = String::from_str(alloc, line)?;
    match push_answer(rt, alloc, line, &mut text) {
        Ok(()) => Ok(text),
        Err(_) => Err(AllocError),
    }
}

/// Appends the answer of a row, and ends the line.
fn push_answer<R: Threads + Wait + Sync>(
    rt: &R,
    alloc: Global,
    line: &str,
    into: &mut String,
) -> Result<(), NoMemory> {
    if !line.is_empty() && !line.starts_with("--") {
        into.push_str("  -->  ")?;
        answer(rt, alloc, line, into)?;
    }
    into.push_str("\n")?;
    Ok(())
}
