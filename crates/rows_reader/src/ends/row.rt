//! The parts of a row.
use rows::Stop;
use std::alloc::Global;

/// What is before a word of a row, and what is after it.
pub fn split_at<'a>(rest: &'a str, word: &str) -> Result<(&'a str, &'a str), Stop> {
    match rest.split_once(word) {
        Some((before, after)) => Ok((before.trim(), after.trim())),
        None => Err(Stop::OtherParts),
    }
}

/// A number.
pub fn read_number(text: &str) -> Result<usize, Stop> {
    match text.parse::<usize>() {
        Ok(number) => Ok(number),
        Err(_) => Err(Stop::OtherParts),
    }
}

/// The numbers of the calls that fail.
pub fn read_calls(alloc: Global, text: &str) -> Result<Vec<u64>, Stop> {
    let mut calls = Vec::new(alloc);
    for word in text.split_whitespace() {
        let Ok(call) = word.parse::<u64>() else {
            return Err(Stop::OtherParts);
        };
        calls.push(call)?;
    }
    Ok(calls)
}
