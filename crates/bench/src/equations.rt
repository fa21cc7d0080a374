//! Measures unification: two cycles, two rows of dots, two rows of which one is spaced, and small calls that are
//! undone.
//!
//! Without words it unifies each workload once at a small size and writes the answers. With the words `KIND SIZE CALLS`,
//! where KIND is `cycles`, `rows`, `spaced` or `small`, it writes what a pair of nodes costs.
mod times;
mod workloads;

use crate::equations::times::{answer, nanoseconds};
use crate::equations::workloads::{Kind, make_workload};
use crate::failing::no_memory;
use crate::words::Words;
use mars_base::NoMemory;
use mars_unify::Unified;
use std::alloc::Global;
use std::io;
use std::time::Clock;

/// Measures as the words say.
pub(crate) fn measure<R: Print + AllocGlobal + Clock>(rt: &R, words: Words) -> io::Result<()> {
    match read_task(words) {
        Some((kind, size, calls)) => write_time(rt, kind, size, calls),
        None => write_answers(rt),
    }
}

/// Writes the answer of each workload at a small size.
fn write_answers<R: Print + AllocGlobal>(rt: &R) -> io::Result<()> {
    for kind in [Kind::Cycles, Kind::Rows, Kind::Spaced, Kind::Small] {
        let (pairs, unified) = answer_of(rt.alloc(), kind).map_err(no_memory)?;
        println!(rt; "{kind:?}: {pairs} pairs, {unified:?}")?;
    }
    Ok(())
}

/// Writes what a pair of nodes costs.
fn write_time<R: Print + AllocGlobal + Clock>(
    rt: &R,
    kind: Kind,
    size: usize,
    calls: u64,
) -> io::Result<()> {
    let work = make_workload(rt.alloc(), kind, size).map_err(no_memory)?;
    let pairs = work.pairs;
    let time = nanoseconds(rt, rt.alloc(), work, calls)?;
    println!(rt;
        "{kind:?} {size}: {pairs} pairs a call, {calls} calls, {} ns a pair",
        time_a_pair(time, pairs, calls)
    )
}

fn answer_of(alloc: Global, kind: Kind) -> Result<(usize, Unified), NoMemory> {
    answer(alloc, make_workload(alloc, kind, 6)?)
}

/// The words as a task, where they are one.
fn read_task(words: Words) -> Option<(Kind, usize, u64)> {
    let Words {
        first,
        second,
        third,
    } = words;
    let (kind, size, calls) = (first?, second?, third?);
    let kind = match kind.as_str() {
        "cycles" => Kind::Cycles,
        "rows" => Kind::Rows,
        "spaced" => Kind::Spaced,
        "small" => Kind::Small,
        _ => return None,
    };
    Some((
        kind,
        size.as_str().parse().ok()?,
        calls.as_str().parse().ok()?,
    ))
}

/// Whole nanoseconds a pair; a call without pairs counts as one.
fn time_a_pair(time: u128, pairs: usize, calls: u64) -> u64 {
    let all = (pairs as u64).saturating_mul(calls).max(1);
    u64::try_from(time).unwrap_or(u64::MAX) / all
}
