//! Measures the book: threads that call one table, each with a pass of its own.
//!
//! Without words each number of threads makes a small number of calls, and how many entries the table has then is written.
//! With the words `KIND THREADS CALLS`, where KIND is `count` or `intern`, it writes how many calls a second there were: of
//! `count`, or of `intern` with one tree.
mod calls;
mod trees;

use crate::book::calls::{Kind, Measured, run};
use crate::words::Words;
use std::io;
use std::sync::Wait;
use std::thread::Threads;
use std::time::Clock;

/// Measures as the words say.
pub(crate) fn measure<R: Threads + Wait + Sync + Clock + Print + AllocGlobal>(
    rt: &R,
    words: Words,
) -> io::Result<()> {
    match read_task(words) {
        Some((kind, threads, calls)) => write_rate(rt, kind, threads, calls),
        None => write_counts(rt),
    }
}

/// Writes how many entries the table has after a small number of calls.
fn write_counts<R: Threads + Wait + Sync + Clock + Print + AllocGlobal>(rt: &R) -> io::Result<()> {
    for threads in [1, 2, 4] {
        let counts = run(rt, rt.alloc(), Kind::Count, threads, 100)?.entries;
        let interned = run(rt, rt.alloc(), Kind::Intern, threads, 100)?.entries;
        println!(rt; "{threads} threads: {counts} counts, {interned} trees")?;
    }
    Ok(())
}

/// Writes how many calls a second there were.
fn write_rate<R: Threads + Wait + Sync + Clock + Print + AllocGlobal>(
    rt: &R,
    kind: Kind,
    threads: u16,
    calls: u64,
) -> io::Result<()> {
    let measured = run(rt, rt.alloc(), kind, threads, calls)?;
    println!(rt;
        "{kind:?}, {threads} threads: {} a second",
        a_second(measured)
    )
}

/// The words as a task, where they are one.
fn read_task(words: Words) -> Option<(Kind, u16, u64)> {
    let Words {
        first,
        second,
        third,
    } = words;
    let (kind, threads, calls) = (first?, second?, third?);
    let kind = match kind.as_str() {
        "count" => Kind::Count,
        "intern" => Kind::Intern,
        _ => return None,
    };
    Some((
        kind,
        threads.as_str().parse().ok()?,
        calls.as_str().parse().ok()?,
    ))
}

/// How many calls there were in a second.
fn a_second(measured: Measured) -> u128 {
    (measured.entries as u128).saturating_mul(1_000_000_000) / measured.nanoseconds.max(1)
}
