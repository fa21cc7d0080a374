//! Answers rows on derivations: what the asks of an input say and how they end, long runs, and runs of random programs beside
//! those of the plain machine. `stdin` has the rows, `stdout` the rows with their answers.
#![tactic(auto)]

mod asked;
mod beside;
mod drawn;
mod plain;
mod tally;

use asked::answer_input;
use beside::answer_random;
use rows::{Stop, answer_rows};
use std::alloc::Global;
use std::io;

fn main(rt: HostRuntime) -> io::Result<()> {
    answer_rows(&rt, answer)
}

/// The answer of a row, by its first word.
fn answer(alloc: Global, word: &str, rest: &str, into: &mut Vec<u8>) -> Result<(), Stop> {
    match word {
        "asks" => answer_input(alloc, rest, into),
        "random" => answer_random(alloc, rest, into),
        _ => Err(Stop::NoRow),
    }
}
