//! Rows `back list N`, `back ring N` and `back drawn N`: a list of so many elements, or a ring of so many nodes, is printed and
//! read back; so many random graphs are, of which those are counted that are read back to the same graph.
mod drawn;
mod shapes;
mod trips;

use crate::back::drawn::all_drawn;
use crate::back::shapes::{Lexicon, list, ring};
use crate::back::trips::{Trip, round_trip};
use mars_base::NoMemory;
use mars_tree::Names;
use rows::Stop;
use std::alloc::Global;

/// More than this isn't printed.
const MOST: u32 = 1_000_000;

/// Answers with what became of the texts.
pub fn answer_back(alloc: Global, rest: &str, into: &mut Vec<u8>) -> Result<(), Stop> {
    let (shape, count) = rest.split_once(' ').unwrap_or((rest, ""));
    let count = match count.parse::<u32>() {
        Ok(count) if count <= MOST => count,
        _ => return Err(Stop::OtherParts),
    };
    match shape {
        "list" => push_trip(alloc, list_trip(alloc, count as usize)?, into),
        "ring" => push_trip(alloc, ring_trip(alloc, count as usize)?, into),
        "drawn" => push_same(alloc, all_drawn(alloc, u64::from(count))?, into),
        _ => Err(Stop::NoRow),
    }
}

/// Writes what became of a graph.
fn push_trip(alloc: Global, trip: Trip, into: &mut Vec<u8>) -> Result<(), Stop> {
    Ok(into.extend_from_slice(format!(in alloc; "{trip:?}")?.as_bytes())?)
}

/// Writes how many graphs were read back.
fn push_same(alloc: Global, same: u64, into: &mut Vec<u8>) -> Result<(), Stop> {
    Ok(into.extend_from_slice(format!(in alloc; "{same} read back")?.as_bytes())?)
}

/// The list, printed and read.
fn list_trip(alloc: Global, count: usize) -> Result<Trip, NoMemory> {
    let mut names = Names::new(alloc);
    let lexicon = Lexicon::new(&mut names)?;
    let (graph, root) = list(alloc, &lexicon, count)?;
    round_trip(alloc, &mut names, &graph, root)
}

/// The ring, printed and read.
fn ring_trip(alloc: Global, count: usize) -> Result<Trip, NoMemory> {
    let mut names = Names::new(alloc);
    let lexicon = Lexicon::new(&mut names)?;
    let (graph, root) = ring(alloc, &lexicon, count)?;
    round_trip(alloc, &mut names, &graph, root)
}
