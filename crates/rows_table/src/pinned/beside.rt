//! Random calls of two callers on `Rows` and on a plain list of rows, answer by answer.
use crate::pinned::called;
use crate::plain::{PlainReply, PlainTable, draw_sample};
use mars_base::NoMemory;
use mars_rows::Rows;
use rows::{Draw, Stop, push_number};
use std::alloc::Global;

/// Rows, and the plain list of rows on which the same calls are made.
#[derive(Drop)]
pub struct Beside {
    pub rows: Rows,
    listed: PlainTable,
}

impl Beside {
    /// No rows on either side, and at most `cap` later.
    pub fn new(alloc: Global, cap: u64) -> Beside {
        Beside {
            rows: Rows::new(alloc, cap),
            listed: PlainTable::new(alloc, cap),
        }
    }
}

/// How often each kind of answer came.
#[derive(Clone, Copy, Debug, PartialEq, Eq)]
pub struct Tally {
    kept: u32,
    again: u32,
    by_sweep: u32,
    full: u32,
    found: u32,
    missed: u32,
    pinned: u32,
    no_row: u32,
    unpinned: u32,
    no_pin: u32,
    swept: u32,
}

impl Tally {
    /// No answer came yet.
    pub fn new() -> Tally {
        Tally {
            kept: 0,
            again: 0,
            by_sweep: 0,
            full: 0,
            found: 0,
            missed: 0,
            pinned: 0,
            no_row: 0,
            unpinned: 0,
            no_pin: 0,
            swept: 0,
        }
    }

    /// Counts an answer, before which there were so many rows and the next number was `next`.
    fn count(&mut self, reply: PlainReply, before: PlainReply, after: PlainReply) {
        let count = match reply {
            PlainReply::Root(_) if rows_in(after) < rows_in(before) => &mut self.by_sweep,
            PlainReply::Root(_) if after == before => &mut self.again,
            PlainReply::Root(_) => &mut self.kept,
            PlainReply::Full { rows: _, fresh: _ } => &mut self.full,
            PlainReply::Found(Some(_)) => &mut self.found,
            PlainReply::Found(None) => &mut self.missed,
            PlainReply::Pinned(true) => &mut self.pinned,
            PlainReply::Pinned(false) => &mut self.no_row,
            PlainReply::Unpinned(true) => &mut self.unpinned,
            PlainReply::Unpinned(false) => &mut self.no_pin,
            PlainReply::Swept(0) => return,
            PlainReply::Swept(_) => &mut self.swept,
            PlainReply::Counted(_, _, _) => return,
            PlainReply::Ended => return,
        };
        *count = count.saturating_add(1);
    }

    /// Whether each kind of answer came a hundred times.
    fn is_full(&self) -> bool {
        let counts = [
            self.kept,
            self.again,
            self.by_sweep,
            self.full,
            self.found,
            self.missed,
            self.pinned,
            self.no_row,
            self.unpinned,
            self.no_pin,
            self.swept,
        ];
        for count in counts {
            if count < 100 {
                return false;
            }
        }
        true
    }
}

/// The rows that counts say.
fn rows_in(reply: PlainReply) -> u64 {
    match reply {
        PlainReply::Counted(rows, _, _) => rows,
        _ => 0,
    }
}

/// A number near the next one, given or not.
fn draw_number(beside: &Beside, draw: &mut Draw) -> u128 {
    let back = draw.below(10) as u128;
    beside
        .rows
        .next_number()
        .wrapping_add(1)
        .saturating_sub(back)
}

/// A pin that is there, or else one that looks random.
fn draw_pin(beside: &Beside, draw: &mut Draw) -> (u32, u128) {
    let count = beside.listed.pins.len();
    if count > 0 && draw.below(4) > 0 {
        let place = draw.below(count);
        return beside.listed.pins[place];
    }
    let number = draw_number(beside, draw);
    (draw.below(2) as u32, number)
}

/// Adds a tree to both.
fn both_add(
    alloc: Global,
    beside: &mut Beside,
    draw: &mut Draw,
) -> Result<(PlainReply, PlainReply), Stop> {
    let sample = draw_sample(alloc, draw)?;
    let left = called::add(&mut beside.rows, &sample.tree)?;
    let right = beside.listed.add(sample.form.graph())?;
    Ok((left, right))
}

/// Finds a node of a tree in both.
fn both_find(
    alloc: Global,
    beside: &Beside,
    draw: &mut Draw,
) -> Result<(PlainReply, PlainReply), Stop> {
    let sample = draw_sample(alloc, draw)?;
    let node = draw.below(4);
    let left = called::find(&beside.rows, &sample.tree, node)?;
    let right = beside.listed.find(sample.form.graph(), node)?;
    Ok((left, right))
}

/// Puts a pin on a row of both.
fn both_pin(beside: &mut Beside, who: u32, number: u128) -> Result<(PlainReply, PlainReply), Stop> {
    let left = called::pin(&mut beside.rows, who, number)?;
    let right = beside.listed.pin(who, number)?;
    Ok((left, right))
}

/// Takes a pin off a row of both.
fn both_unpin(beside: &mut Beside, draw: &mut Draw) -> (PlainReply, PlainReply) {
    let (who, number) = draw_pin(beside, draw);
    let left = called::unpin(&mut beside.rows, who, number);
    let right = beside.listed.unpin(who, number);
    (left, right)
}

/// Sweeps both.
fn both_sweep(beside: &mut Beside) -> Result<(PlainReply, PlainReply), Stop> {
    let left = called::sweep(&mut beside.rows)?;
    let right = beside.listed.sweep()?;
    Ok((left, right))
}

/// Makes a call on both.
fn both_call(
    alloc: Global,
    beside: &mut Beside,
    draw: &mut Draw,
) -> Result<(PlainReply, PlainReply), Stop> {
    match draw.below(10) {
        0 | 1 | 2 | 3 => both_add(alloc, beside, draw),
        4 => both_find(alloc, beside, draw),
        5 => {
            let (who, number) = (draw.below(2) as u32, draw_number(beside, draw));
            both_pin(beside, who, number)
        }
        6 | 7 | 8 => Ok(both_unpin(beside, draw)),
        _ => both_sweep(beside),
    }
}

/// Puts a pin on the root of a tree that was added, three times of four.
fn pin_root(
    beside: &mut Beside,
    reply: PlainReply,
    draw: &mut Draw,
) -> Result<(PlainReply, PlainReply), Stop> {
    match reply {
        PlainReply::Root(number) if draw.below(4) > 0 => {
            let who = draw.below(2) as u32;
            both_pin(beside, who, number)
        }
        _ => Ok((PlainReply::Pinned(true), PlainReply::Pinned(true))),
    }
}

/// Whether both have the same counts and each of the latest numbers or neither, and the same tree under one of them.
fn are_level(alloc: Global, beside: &Beside, draw: &mut Draw) -> Result<bool, Stop> {
    if called::counts(&beside.rows) != beside.listed.counts() {
        return Ok(false);
    }
    let number = draw_number(beside, draw);
    let left = called::tree_of(&beside.rows, number)?;
    let right = beside.listed.tree_of(alloc, number)?;
    Ok(left == right)
}

/// Makes a call on both, and tells whether their answers agree.
pub fn agrees(
    alloc: Global,
    beside: &mut Beside,
    draw: &mut Draw,
    tally: &mut Tally,
) -> Result<bool, Stop> {
    let before = called::counts(&beside.rows);
    let (left, right) = both_call(alloc, beside, draw)?;
    tally.count(left, before, called::counts(&beside.rows));
    let (first, second) = pin_root(beside, left, draw)?;
    Ok(left == right && first == second && are_level(alloc, beside, draw)?)
}

/// Makes so many calls on both; gives the first at which they differ.
fn differ_at(
    alloc: Global,
    beside: &mut Beside,
    calls: usize,
    draw: &mut Draw,
    tally: &mut Tally,
) -> Result<Option<usize>, Stop> {
    for call in 0..calls {
        if !agrees(alloc, beside, draw, tally)? {
            return Ok(Some(call));
        }
    }
    Ok(None)
}

/// A list of calls on no rows, with a limit that looks random.
fn differ_in_list(
    alloc: Global,
    calls: usize,
    draw: &mut Draw,
    tally: &mut Tally,
) -> Result<Option<usize>, Stop> {
    let cap = draw.below(9) as u64;
    let mut beside = Beside::new(alloc, cap);
    differ_at(alloc, &mut beside, calls, draw, tally)
}

/// Writes that a list differs at a call.
fn push_differing(list: usize, call: usize, into: &mut Vec<u8>) -> Result<(), Stop> {
    into.extend_from_slice(b"list ")?;
    push_number(list, into)?;
    into.extend_from_slice(b" differs at call ")?;
    push_number(call, into)?;
    Ok(())
}

/// Answers with whether so many lists of so many calls agree, and whether each kind of answer came often.
pub fn answer_lists(
    alloc: Global,
    seed: u64,
    lists: usize,
    calls: usize,
    into: &mut Vec<u8>,
) -> Result<(), Stop> {
    let mut draw = Draw::new(seed);
    let mut tally = Tally::new();
    for list in 0..lists {
        if let Some(call) = differ_in_list(alloc, calls, &mut draw, &mut tally)? {
            return push_differing(list, call, into);
        }
    }
    into.extend_from_slice(if tally.is_full() {
        b"all agree, each answer came"
    } else {
        b"all agree, few answers came"
    })?;
    Ok(())
}
