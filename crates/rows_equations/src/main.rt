//! Rows of text that show what stores, unification, answers, inequations, watchers, heads of rules, frozen goals and numbers
//! of terms do: one row a line of standard input, and a line of standard output for each.
#![tactic(auto)]

mod answers;
mod building;
mod changes;
mod freezing;
mod keeping;
mod numbers;
mod plain_numbers;
mod reading;
mod rules;
mod scripts;
mod shapes;
mod world;
mod writing;

use crate::changes::{put_line, put_watchers};
use crate::freezing::put_frozen;
use crate::numbers::put_term_number;
use crate::plain_numbers::put_plain;
use crate::reading::read_tree;
use crate::rules::put_goals;
use crate::scripts::put_script;
use crate::shapes::{put_levels, put_lists, put_towers};
use rows::{Stop, answer_rows};
use std::alloc::Global;
use std::io;

/// The numbers of a row, 0 where there is none.
fn numbers_of(rest: &str) -> (usize, usize) {
    let (first, second) = match rest.split_once(' ') {
        Some((first, second)) => (first, second),
        None => (rest, ""),
    };
    (
        first.parse::<usize>().unwrap_or(0),
        second.parse::<usize>().unwrap_or(0),
    )
}

/// The answer of a row, by its first word.
fn answer(alloc: Global, word: &str, rest: &str, into: &mut Vec<u8>) -> Result<(), Stop> {
    let mut text = Vec::new(alloc);
    put_answer(alloc, word, rest, &mut text)?;
    into.extend_from_slice(&text)?;
    Ok(())
}

/// Answers a row in a text of its own, since answers of commands have `; ` between them.
fn put_answer(alloc: Global, word: &str, rest: &str, into: &mut Vec<u8>) -> Result<(), Stop> {
    match word {
        "solve" | "match" => put_of_tree(alloc, word, rest, into),
        "line" => Ok(put_line(alloc, rest, into)?),
        "watchers" => Ok(put_watchers(alloc, rest, into)?),
        "frozen" => Ok(put_frozen(alloc, rest, into)?),
        "number" => Ok(put_term_number(alloc, rest, into)?),
        _ => put_shape(alloc, word, numbers_of(rest), into),
    }
}

/// Answers a row that writes a tree.
fn put_of_tree(alloc: Global, word: &str, rest: &str, into: &mut Vec<u8>) -> Result<(), Stop> {
    let tree = read_tree(alloc, rest)?;
    let told = if word == "solve" {
        put_script(alloc, &tree, into)
    } else {
        put_goals(alloc, &tree, into)
    };
    Ok(told?)
}

/// Answers a row of a large shape.
fn put_shape(
    alloc: Global,
    word: &str,
    numbers: (usize, usize),
    into: &mut Vec<u8>,
) -> Result<(), Stop> {
    let (first, second) = numbers;
    match word {
        "levels" => Ok(put_levels(alloc, first, into)?),
        "lists" => Ok(put_lists(alloc, first, into)?),
        "towers" => Ok(put_towers(alloc, first, second, into)?),
        "plain" => Ok(put_plain(alloc, first, into)?),
        _ => Err(Stop::NoRow),
    }
}

fn main(rt: HostRuntime) -> io::Result<()> {
    answer_rows(&rt, answer)
}
