//! One long run of calls, in which numbers that were swept stay away.
use crate::pinned::beside::{Beside, Tally, agrees};
use mars_base::NoMemory;
use mars_rows::Rows;
use rows::{Draw, Stop, push_number};
use std::alloc::Global;

/// At most so many rows.
const CAP: u64 = 8;

/// Whether a number that had no row after an earlier call has one now; notes which numbers have none.
fn came_back(rows: &Rows, gone: &mut [bool]) -> bool {
    for number in 0..gone.len() {
        let has = rows.has(number as u128);
        if has && gone[number] {
            return true;
        }
        gone[number] = !has;
    }
    false
}

/// Notes the numbers that were given since, at most so many.
fn note_given(rows: &Rows, most: usize, gone: &mut Vec<bool>) -> Result<(), NoMemory> {
    for _ in 0..most {
        let number = gone.len() as u128;
        if number < rows.next_number() {
            gone.push(!rows.has(number))?;
        }
    }
    Ok(())
}

/// Makes a call; false where both sides differ, or a number came back.
fn stays(
    alloc: Global,
    beside: &mut Beside,
    draw: &mut Draw,
    tally: &mut Tally,
    gone: &mut Vec<bool>,
) -> Result<bool, Stop> {
    let agree = agrees(alloc, beside, draw, tally)?;
    let back = came_back(&beside.rows, gone);
    note_given(&beside.rows, 4, gone)?;
    Ok(agree && !back)
}

/// How many of the numbers are gone.
fn count_gone(gone: &[bool]) -> usize {
    let mut count: usize = 0;
    for is_gone in gone {
        if *is_gone {
            count = count.saturating_add(1);
        }
    }
    count
}

/// Makes so many calls; gives how many numbers are gone after them, none where one came back.
fn gone_after(
    alloc: Global,
    beside: &mut Beside,
    calls: usize,
    draw: &mut Draw,
    gone: &mut Vec<bool>,
) -> Result<Option<usize>, Stop> {
    let mut tally = Tally::new();
    for _ in 0..calls {
        if !stays(alloc, beside, draw, &mut tally, gone)? {
            return Ok(None);
        }
    }
    Ok(Some(count_gone(gone)))
}

/// Answers with whether numbers stay away over so many calls, and whether there are at least one of them for each fifty calls.
pub fn answer_away(alloc: Global, seed: u64, calls: usize, into: &mut Vec<u8>) -> Result<(), Stop> {
    let mut draw = Draw::new(seed);
    let mut beside = Beside::new(alloc, CAP);
    let mut gone = Vec::new(alloc);
    match gone_after(alloc, &mut beside, calls, &mut draw, &mut gone)? {
        Some(count) if count >= calls / 50 => into.extend_from_slice(b"all stay away")?,
        Some(count) => {
            into.extend_from_slice(b"only ")?;
            push_number(count, into)?;
            into.extend_from_slice(b" are gone")?;
        }
        None => into.extend_from_slice(b"one came back")?,
    }
    Ok(())
}
