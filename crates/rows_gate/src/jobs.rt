//! Rows on jobs that keep a tree: `jobs meeting`, `jobs holding`, `jobs uneven SEED`, `jobs losing` and `jobs none`.
use crate::runs::{Shown, held, met, none, one_cut, uneven};
use mars_base::NoMemory;
use rows::Stop;
use std::alloc::Global;
use std::sync::Wait;
use std::thread::Threads;

/// Appends what came of jobs under a gate.
pub(crate) fn answer_jobs<R: Threads + Wait + Sync>(
    rt: &R,
    alloc: Global,
    rest: &str,
    into: &mut Vec<u8>,
) -> Result<(), Stop> {
    let (kind, seed) = rest.split_once(' ').unwrap_or((rest, ""));
    match kind {
        "meeting" => push_meeting(alloc, met(rt, alloc)?, into),
        "holding" => push_holding(alloc, held(rt, alloc)?, into),
        "uneven" => match seed.parse::<u64>() {
            Ok(seed) => push_uneven(alloc, uneven(rt, alloc, seed)?, into),
            Err(_) => Err(Stop::OtherParts),
        },
        "losing" => push_losing(alloc, one_cut(rt, alloc)?, into),
        "none" => push_closing(alloc, none(rt, alloc)?, into),
        _ => Err(Stop::NoRow),
    }
}

/// Appends whether two jobs met in time.
fn push_meeting(alloc: Global, shown: Option<Shown>, into: &mut Vec<u8>) -> Result<(), Stop> {
    if let Some(Shown { in_time, .. }) = shown {
        push(format!(in alloc; "in time {in_time}, ")?, into)?;
    }
    push_closing(alloc, shown, into)
}

/// Appends whether a job was held in time, and what the two were told.
fn push_holding(alloc: Global, shown: Option<Shown>, into: &mut Vec<u8>) -> Result<(), Stop> {
    if let Some(
        Shown {
            in_time,
            first,
            second,
            ..
        },
    ) = shown
    {
        push(
            format!(in alloc; "in time {in_time}, told {first:?} and {second:?}, ")?,
            into,
        )?;
    }
    push_closing(alloc, shown, into)
}

/// Appends whether all jobs were told one number.
fn push_uneven(alloc: Global, shown: Option<Shown>, into: &mut Vec<u8>) -> Result<(), Stop> {
    if let Some(Shown { one_handle, .. }) = shown {
        push(format!(in alloc; "one handle {one_handle}, ")?, into)?;
    }
    push_closing(alloc, shown, into)
}

/// Appends how many jobs were cut.
fn push_losing(alloc: Global, shown: Option<Shown>, into: &mut Vec<u8>) -> Result<(), Stop> {
    if let Some(Shown { cut, .. }) = shown {
        push(format!(in alloc; "cut {cut}, ")?, into)?;
    }
    push_closing(alloc, shown, into)
}

/// Appends the history's length and what the closing calls were told.
fn push_closing(alloc: Global, shown: Option<Shown>, into: &mut Vec<u8>) -> Result<(), Stop> {
    match shown {
        Some(
            Shown {
                entries,
                swept,
                rows,
                pins,
                ..
            },
        ) => {
            let text = format!(in alloc;
                "entries {entries}, swept {swept}, rows {rows}, pins {pins}"
            )?;
            Ok(push(text, into)?)
        }
        None => Err(Stop::NoTree),
    }
}

/// Appends a text.
fn push(text: String, into: &mut Vec<u8>) -> Result<(), NoMemory> {
    into.extend_from_slice(text.as_bytes())?;
    Ok(())
}
