//! Answers rows on the table, and on the rows in it: the numbers that trees get, what written calls reply, and whether random
//! ones reply as a plain list of rows does. `stdin` has the rows, `stdout` the rows with their answers.
#![tactic(auto)]

mod beside;
mod called;
mod counting;
mod interning;
mod pinned;
mod plain;
mod tally;
mod worked;

use rows::{Stop, answer_rows, read_numbers};
use std::alloc::Global;
use std::io;

/// The answer of a row of random lists: a seed, how many lists, and how many calls each has.
fn answer_random(alloc: Global, rest: &str, into: &mut Vec<u8>) -> Result<(), Stop> {
    let numbers = read_numbers(alloc, rest)?;
    if numbers.len() != 3 {
        return Err(Stop::OtherParts);
    }
    beside::answer_lists(alloc, numbers[0] as u64, numbers[1], numbers[2], into)
}

/// The answer of a row, by its first word.
fn answer(alloc: Global, word: &str, rest: &str, into: &mut Vec<u8>) -> Result<(), Stop> {
    match word {
        "intern" => interning::answer_intern(alloc, rest, into),
        "calls" => worked::answer_calls(alloc, rest, into),
        "lent" => worked::answer_lent(alloc, rest, into),
        "full" => worked::answer_full(alloc, rest, into),
        "random" => answer_random(alloc, rest, into),
        "counting" => counting::answer_counting(alloc, rest, into),
        "rows" => pinned::answer_pinned(alloc, rest, into),
        _ => Err(Stop::NoRow),
    }
}

fn main(rt: HostRuntime) -> io::Result<()> {
    answer_rows(&rt, answer)
}
