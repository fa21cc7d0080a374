//! Measures the keeper of inequations: variables that are all different and are bound one after the other, and many
//! inequations of which one is tried again and again; and compares it with a plain one over random histories.
//!
//! Without words it runs 10,000 random histories, and each workload at a small size, and writes the counts. With the words
//! `KIND SIZE CALLS`, where KIND is `different`, `leaves` or `stays`, it writes what a workload takes.
mod histories;
mod keeping;
mod nodes;
mod times;
mod workloads;
mod world;

use crate::difs::histories::run_histories;
use crate::difs::times::{Times, time_different, time_wakes};
use crate::failing::no_memory;
use crate::words::Words;
use std::alloc::Global;
use std::io;
use std::time::Clock;

/// What is measured.
#[derive(Clone, Copy, Debug, PartialEq, Eq)]
enum Kind {
    Different,
    Leaves,
    Stays,
}

/// Measures as the words say.
pub(crate) fn measure<R: Print + AllocGlobal + Clock>(rt: &R, words: Words) -> io::Result<()> {
    match read_task(words) {
        Some((kind, size, calls)) => write_times(rt, kind, size, calls),
        None => write_counts(rt),
    }
}

/// The words as a task, where they are one.
fn read_task(words: Words) -> Option<(Kind, usize, usize)> {
    let Words {
        first,
        second,
        third,
    } = words;
    let (kind, size, calls) = (first?, second?, third?);
    let kind = match kind.as_str() {
        "different" => Kind::Different,
        "leaves" => Kind::Leaves,
        "stays" => Kind::Stays,
        _ => return None,
    };
    Some((
        kind,
        size.as_str().parse().ok()?,
        calls.as_str().parse().ok()?,
    ))
}

/// Writes how often the keeper and a plain one were compared, and how many inequations wait after each workload.
fn write_counts<R: Print + AllocGlobal + Clock>(rt: &R) -> io::Result<()> {
    let counts = run_histories(rt.alloc(), 10_000).map_err(no_memory)?;
    println!(rt;
        "histories: {} comparisons, {} with inequations that wait, {} with one that has failed, {} differences",
        counts.compared, counts.waited, counts.failed, counts.different
    )?;
    for kind in [Kind::Different, Kind::Leaves, Kind::Stays] {
        let times = time_of(rt, rt.alloc(), kind, 6, 3)?;
        println!(rt; "{kind:?}: {} wait", times.waiting)?;
    }
    Ok(())
}

/// Writes what a workload takes.
fn write_times<R: Print + AllocGlobal + Clock>(
    rt: &R,
    kind: Kind,
    size: usize,
    calls: usize,
) -> io::Result<()> {
    let times = time_of(rt, rt.alloc(), kind, size, calls)?;
    println!(rt;
        "{kind:?} {size} {calls}: {} us to add, {} ns to bind",
        times.adding / 1000,
        times.binding
    )
}

/// What a workload takes.
fn time_of<C: Clock>(
    clock: &C,
    alloc: Global,
    kind: Kind,
    size: usize,
    calls: usize,
) -> io::Result<Times> {
    match kind {
        Kind::Different => time_different(clock, alloc, size),
        Kind::Leaves => time_wakes(clock, alloc, size, calls, false),
        Kind::Stays => time_wakes(clock, alloc, size, calls, true),
    }
}
