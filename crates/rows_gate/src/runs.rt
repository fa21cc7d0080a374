//! Runs of keepers under gates.
ghost use Rattle.std.specs.Prelude.{◌≡◌, ◌+◌, ◌<◌, ◌^◌, IfOk, vec_len};
ghost use Rattle.mars_gate.specs.Jobs.{AreNewJobs};
ghost use Rattle.rows_gate.specs.Keepers.{job_of};

use crate::keeper::Keeper;
use crate::trees::one_node;
use mars_base::NoMemory;
use mars_canon::Tree;
use mars_gate::{Closed, run_jobs};
use mars_io::{Gate, OpenGate};
use mars_table::{Entry, Handle, Reply};
use std::alloc::Global;
use std::sync::Wait;
use std::thread::Threads;
use test_gates::{HoldingGate, MeetingGate, UnevenGate};

/// The row limit.
const LIMIT: u64 = 16;

/// What came of a run.
#[derive(Clone, Copy)]
pub(crate) struct Shown {
    /// Whether the gate says that all came in time.
    pub(crate) in_time: bool,
    /// What the first job was told first, and the second.
    pub(crate) first: Option<Handle>,
    pub(crate) second: Option<Handle>,
    /// Whether all jobs have what the first was told alone.
    pub(crate) one_handle: bool,
    /// How many jobs were cut.
    pub(crate) cut: usize,
    pub(crate) entries: usize,
    pub(crate) swept: u64,
    pub(crate) rows: u64,
    pub(crate) pins: u64,
}

/// What a keeper was told first.
fn first_handle(keeper: &Keeper) -> Option<Handle> {
    match keeper.entries().first() {
        Some(entry) => handle_in(entry),
        None => None,
    }
}

/// The number that an entry's reply has.
fn handle_in(entry: &Entry) -> Option<Handle> {
    match &entry.reply {
        Reply::Kept(handle) => Some(*handle),
        _ => None,
    }
}

/// Whether a keeper was told this number alone.
fn has_only(keeper: &Keeper, handle: Option<Handle>) -> bool {
    for entry in keeper.entries() {
        if handle_in(entry) != handle {
            return false;
        }
    }
    true
}

/// Whether all keepers were told this number alone.
fn have_only(keepers: &[Keeper], handle: Option<Handle>) -> bool {
    for keeper in keepers {
        if !has_only(keeper, handle) {
            return false;
        }
    }
    true
}

/// How many keepers were cut.
fn cut_among(keepers: &[Keeper]) -> usize {
    let mut cut = 0_usize;
    for keeper in keepers {
        if keeper.was_cut() {
            cut = cut.saturating_add(1);
        }
    }
    cut
}

/// What came of a run.
fn show(closed: &Closed<Keeper>, in_time: bool) -> Shown {
    let keepers = closed.jobs.as_slice();
    let first = match keepers.first() {
        Some(keeper) => first_handle(keeper),
        None => None,
    };
    let second = match keepers.get(1) {
        Some(keeper) => first_handle(keeper),
        None => None,
    };
    Shown {
        in_time,
        first,
        second,
        one_handle: have_only(keepers, first),
        cut: cut_among(keepers),
        entries: closed.table.history().len(),
        swept: closed.replies.swept,
        rows: closed.replies.rows,
        pins: closed.replies.pins,
    }
}

/// Two keepers of a tree each.
fn two(alloc: Global, first: Tree, second: Tree) -> Result<Vec<Keeper>, NoMemory>
    ensures new { IfOk result (λ keepers. AreNewJobs job_of keepers.items) }
    ensures count { IfOk result (λ keepers. vec_len keepers ≡ 2) }
{
    let mut keepers = Vec::new(alloc);
    keepers.push(Keeper::new(alloc, 0, first, 1, false))?;
    keepers.push(Keeper::new(alloc, 1, second, 1, false))?;
    Ok(keepers)
}

/// So many keepers of one tree; the first one is cut at its last call, if it is to lose the reply.
fn many(
    alloc: Global,
    tree: &Tree,
    count: u16,
    times: usize,
    loses: bool,
) -> Result<Vec<Keeper>, NoMemory>
    ensures new { IfOk result (λ keepers. AreNewJobs job_of keepers.items) }
    ensures count { IfOk result (λ keepers. vec_len keepers ≡ count) }
{
    let mut keepers = Vec::new(alloc);
    for who in 0..count {
        let copy = tree.copy()?;
        let keeper = Keeper::new(alloc, u32::from(who), copy, times, loses && who == 0);
        keepers.push(keeper)?;
    }
    Ok(keepers)
}

/// Two sessions keep a tree each under a gate.
fn kept_by_two<G: Gate, R: Threads + Wait + Sync>(
    rt: &R,
    alloc: Global,
    gate: &G,
) -> Result<Option<Closed<Keeper>>, NoMemory> {
    let Some(cycle) = one_node(alloc, 0, 1)? else {
        return Ok(None);
    };
    let Some(leaf) = one_node(alloc, 1, 0)? else {
        return Ok(None);
    };
    let keepers = two(alloc, cycle, leaf)?;
    let closed = run_jobs(rt, alloc, keepers, LIMIT, gate)?;
    Ok(Some(closed))
}

/// So many sessions keep one tree so many times each under a gate.
fn kept_by_many<G: Gate, R: Threads + Wait + Sync>(
    rt: &R,
    alloc: Global,
    count: u16,
    times: usize,
    loses: bool,
    gate: &G,
) -> Result<Option<Closed<Keeper>>, NoMemory> {
    let Some(cycle) = one_node(alloc, 0, 1)? else {
        return Ok(None);
    };
    let keepers = many(alloc, &cycle, count, times, loses)?;
    let closed = run_jobs(rt, alloc, keepers, LIMIT, gate)?;
    Ok(Some(closed))
}

/// Two sessions meet.
pub(crate) fn met<R: Threads + Wait + Sync>(
    rt: &R,
    alloc: Global,
) -> Result<Option<Shown>, NoMemory> {
    let gate = MeetingGate::new();
    match kept_by_two(rt, alloc, &gate)? {
        Some(closed) => Ok(Some(show(&closed, gate.in_time()))),
        None => Ok(None),
    }
}

/// Session 0 is held until session 1 has called.
pub(crate) fn held<R: Threads + Wait + Sync>(
    rt: &R,
    alloc: Global,
) -> Result<Option<Shown>, NoMemory> {
    let gate = HoldingGate::new();
    match kept_by_two(rt, alloc, &gate)? {
        Some(closed) => Ok(Some(show(&closed, gate.in_time()))),
        None => Ok(None),
    }
}

/// 32 sessions keep one tree 100 times each, in another order with another seed.
pub(crate) fn uneven<R: Threads + Wait + Sync>(
    rt: &R,
    alloc: Global,
    seed: u64,
) -> Result<Option<Shown>, NoMemory> {
    let gate = UnevenGate { seed };
    match kept_by_many(rt, alloc, 32, 100, false, &gate)? {
        Some(closed) => Ok(Some(show(&closed, true))),
        None => Ok(None),
    }
}

/// Three sessions keep one tree three times each, and the first is cut at its last call.
pub(crate) fn one_cut<R: Threads + Wait + Sync>(
    rt: &R,
    alloc: Global,
) -> Result<Option<Shown>, NoMemory> {
    match kept_by_many(rt, alloc, 3, 3, true, &OpenGate)? {
        Some(closed) => Ok(Some(show(&closed, true))),
        None => Ok(None),
    }
}

/// No session at all: the closing calls are made by the opening pass.
pub(crate) fn none<R: Threads + Wait + Sync>(
    rt: &R,
    alloc: Global,
) -> Result<Option<Shown>, NoMemory> {
    match kept_by_many(rt, alloc, 0, 1, false, &OpenGate)? {
        Some(closed) => Ok(Some(show(&closed, true))),
        None => Ok(None),
    }
}
