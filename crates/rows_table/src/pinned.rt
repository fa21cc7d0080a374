//! Rows on `Rows`, after the word `rows`: calls that are written, and random calls beside a plain list of rows.
mod away;
mod beside;
mod called;
mod worked;

use rows::{Stop, read_numbers};
use std::alloc::Global;

/// The answer of a row of random lists: a seed, how many lists, and how many calls each has.
fn answer_random(alloc: Global, rest: &str, into: &mut Vec<u8>) -> Result<(), Stop> {
    let numbers = read_numbers(alloc, rest)?;
    if numbers.len() != 3 {
        return Err(Stop::OtherParts);
    }
    beside::answer_lists(alloc, numbers[0] as u64, numbers[1], numbers[2], into)
}

/// The answer of a row of one long run: a seed, and how many calls.
fn answer_away(alloc: Global, rest: &str, into: &mut Vec<u8>) -> Result<(), Stop> {
    let numbers = read_numbers(alloc, rest)?;
    if numbers.len() != 2 {
        return Err(Stop::OtherParts);
    }
    away::answer_away(alloc, numbers[0] as u64, numbers[1], into)
}

/// The answer of a row, by the first word after `rows`.
pub fn answer_pinned(alloc: Global, rest: &str, into: &mut Vec<u8>) -> Result<(), Stop> {
    let (word, rest) = rest.split_once(' ').unwrap_or((rest, ""));
    match word {
        "calls" => worked::answer_calls(alloc, rest, into),
        "random" => answer_random(alloc, rest, into),
        "away" => answer_away(alloc, rest, into),
        _ => Err(Stop::NoRow),
    }
}
