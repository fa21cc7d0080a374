//! Measures what a derivation step costs: a goal matched against a rule's head and the body built, a rule's copy, and the
//! look-up of a rule among many.
//!
//! Without words it does each once and writes what came out. With the words `KIND CALLS`, where KIND is `append`,
//! `reverse`, `copy` or `lookup`, it does so many, each undone, and writes the nanoseconds of one.
mod base;
mod calls;

use crate::failing::no_memory;
use crate::rules::base::{Kind, base_of, rule_of};
use crate::rules::calls::{copies, look_ups, steps};
use crate::words::Words;
use mars_base::NoMemory;
use mars_rules::RuleBase;
use std::alloc::Global;
use std::io;
use std::time::{Clock, Instant};

/// Measures as the words say.
pub(crate) fn measure<R: Print + AllocGlobal + Clock>(rt: &R, words: Words) -> io::Result<()> {
    match read_task(words) {
        Some((kind, calls)) => write_time(rt, kind, calls),
        None => write_told(rt),
    }
}

/// Writes what comes out of one call of each kind.
fn write_told<R: Print + AllocGlobal>(rt: &R) -> io::Result<()> {
    for kind in [Kind::Append, Kind::Reverse, Kind::Copy, Kind::LookUp] {
        let told = told_of(rt.alloc(), kind, 1).map_err(no_memory)?;
        println!(rt; "{kind:?}: {told}")?;
    }
    Ok(())
}

/// Writes the nanoseconds of a call.
fn write_time<R: Print + AllocGlobal + Clock>(rt: &R, kind: Kind, calls: u64) -> io::Result<()> {
    let start = Instant::now(rt)?;
    let told = told_of(rt.alloc(), kind, calls).map_err(no_memory)?;
    let time = start.elapsed(rt)?.as_nanos();
    println!(rt;
        "{kind:?}: {told}, {calls} calls, {} ns a call",
        each(time, calls)
    )
}

/// What so many calls of a kind tell: the nodes that the last one added, or the sum of the places that were found.
fn told_of(alloc: Global, kind: Kind, calls: u64) -> Result<usize, NoMemory> {
    match base_of(alloc, kind)? {
        Some(base) => told_by(alloc, &base, kind, calls),
        None => Ok(0),
    }
}

/// The same over a rule base.
fn told_by(alloc: Global, base: &RuleBase, kind: Kind, calls: u64) -> Result<usize, NoMemory> {
    let Some(rule) = rule_of(base, kind) else {
        return Ok(0);
    };
    match kind {
        Kind::Append | Kind::Reverse => steps(alloc, base, rule, calls),
        Kind::Copy => copies(alloc, base, rule, calls),
        Kind::LookUp => Ok(look_ups(base, rule, calls)),
    }
}

/// The words as a task, where they are one.
fn read_task(words: Words) -> Option<(Kind, u64)> {
    let Words { first, second, .. } = words;
    let (kind, calls) = (first?, second?);
    let kind = match kind.as_str() {
        "append" => Kind::Append,
        "reverse" => Kind::Reverse,
        "copy" => Kind::Copy,
        "lookup" => Kind::LookUp,
        _ => return None,
    };
    Some((kind, calls.as_str().parse().ok()?))
}

/// Whole nanoseconds of each call.
fn each(time: u128, calls: u64) -> u64 {
    u64::try_from(time).unwrap_or(u64::MAX) / calls.max(1)
}
