//! Rows on the ends of `mars_io`: what its sources give, what its sinks take, and what a reading to the end gives.
mod reading;
mod row;
mod writing;

use rows::Stop;
use std::alloc::Global;

/// Answers a row by its first word.
pub fn answer_ends(alloc: Global, word: &str, rest: &str, into: &mut Vec<u8>) -> Result<(), Stop> {
    match word {
        "bytes" => reading::answer_bytes(alloc, rest, into),
        "never" => reading::answer_never(alloc, rest, into),
        "reader" => reading::answer_reader(alloc, rest, into),
        "whole" => reading::answer_whole(alloc, rest, into),
        "broken" => reading::answer_broken(alloc, rest, into),
        "long" => reading::answer_long(alloc, rest, into),
        "buffer" => writing::answer_buffer(alloc, rest, into),
        "list" => writing::answer_list(alloc, rest, into),
        "short" => writing::answer_short(rest, into),
        _ => Err(Stop::NoRow),
    }
}
