//! Rows on many sessions that do the same: `copies COUNT SEED INPUT` has the sessions of an input so many times, under an
//! uneven gate.
use crate::handles::{first_entries, has_one_handle_each};
use crate::inputs::{USUAL, read_number, read_row, rules_of_sessions};
use crate::sessions::{last_line, push_lines};
use mars_gate::run_sessions;
use mars_session::Ran;
use rows::Stop;
use std::alloc::Global;
use std::sync::Wait;
use std::thread::Threads;
use test_gates::UnevenGate;

/// Appends what is the same in each order: how many trees are kept, whether each has one number in all sessions, how many
/// entries there are, and the last line.
pub(crate) fn answer_copies<R: Threads + Wait + Sync>(
    rt: &R,
    alloc: Global,
    rest: &str,
    into: &mut Vec<u8>,
) -> Result<(), Stop> {
    let (count, rest) = read_number(rest)?;
    let (seed, rest) = read_number(rest)?;
    let input = read_row(alloc, rest, count)?;
    let rules = rules_of_sessions(alloc, &input)?;
    let gate = UnevenGate { seed };
    let ran = run_sessions(rt, alloc, &input, &rules, USUAL, &gate)?;
    push_handles(alloc, &ran, into)
}

/// Appends what is told of a run of many sessions.
fn push_handles(alloc: Global, ran: &Ran, into: &mut Vec<u8>) -> Result<(), Stop> {
    let history = ran.history.as_slice();
    let firsts = first_entries(alloc, history)?;
    let (trees, entries) = (firsts.len(), history.len());
    let one_handle = has_one_handle_each(history, &firsts);
    let text = format!(in alloc;
        "trees {trees}, one handle each {one_handle}, entries {entries}, "
    )?;
    into.extend_from_slice(text.as_bytes())?;
    push_lines(last_line(&ran.text), into)
}
