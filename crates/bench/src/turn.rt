//! Measures the turn: threads that take it one after the other, and beside it std's mutex round the same value.
//!
//! Without words it has each number of threads count to a small number and writes what was counted. With the words
//! `KIND THREADS TURNS`, where KIND is `turn` or `mutex`, it writes how many turns a second there were.
mod counter;
mod turns;

use crate::turn::turns::{Measured, count_by_mutex, count_by_turn};
use crate::words::Words;
use std::alloc::Global;
use std::io;
use std::sync::Wait;
use std::thread::Threads;
use std::time::Clock;

/// What keeps threads apart.
#[derive(Clone, Copy, Debug, PartialEq, Eq)]
enum Kind {
    Turn,
    Mutex,
}

/// Measures as the words say.
pub(crate) fn measure<R: Threads + Wait + Sync + Clock + Print + AllocGlobal>(
    rt: &R,
    words: Words,
) -> io::Result<()> {
    match read_task(words) {
        Some((kind, threads, turns)) => write_rate(rt, kind, threads, turns),
        None => write_counts(rt),
    }
}

/// Writes what each number of threads counts.
fn write_counts<R: Threads + Wait + Sync + Clock + Print + AllocGlobal>(rt: &R) -> io::Result<()> {
    for threads in [1, 2, 4] {
        let turn = count(rt, rt.alloc(), Kind::Turn, threads, 100)?.count;
        let mutex = count(rt, rt.alloc(), Kind::Mutex, threads, 100)?.count;
        println!(rt; "{threads} threads: {turn} turns, {mutex} locks")?;
    }
    Ok(())
}

/// Writes how many turns a second there were.
fn write_rate<R: Threads + Wait + Sync + Clock + Print + AllocGlobal>(
    rt: &R,
    kind: Kind,
    threads: u16,
    turns: u64,
) -> io::Result<()> {
    let measured = count(rt, rt.alloc(), kind, threads, turns)?;
    println!(rt;
        "{kind:?}, {threads} threads: {} a second",
        a_second(measured)
    )
}

/// So many threads count, each so often.
fn count<R: Threads + Wait + Sync + Clock>(
    rt: &R,
    alloc: Global,
    kind: Kind,
    threads: u16,
    turns: u64,
) -> io::Result<Measured> {
    match kind {
        Kind::Turn => count_by_turn(rt, alloc, threads, turns),
        Kind::Mutex => count_by_mutex(rt, alloc, threads, turns),
    }
}

/// The words as a task, where they are one.
fn read_task(words: Words) -> Option<(Kind, u16, u64)> {
    let Words {
        first,
        second,
        third,
    } = words;
    let (kind, threads, turns) = (first?, second?, third?);
    let kind = match kind.as_str() {
        "turn" => Kind::Turn,
        "mutex" => Kind::Mutex,
        _ => return None,
    };
    Some((
        kind,
        threads.as_str().parse().ok()?,
        turns.as_str().parse().ok()?,
    ))
}

/// How often it counted in a second.
fn a_second(measured: Measured) -> u128 {
    u128::from(measured.count).saturating_mul(1_000_000_000) / measured.nanoseconds.max(1)
}
