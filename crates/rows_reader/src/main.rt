//! Answers rows on what is read, from the ends to the inputs: what an input, a tree or the goals of an ask say, or the refusal
//! with its place; tokens; the program's words; equal terms; sources and sinks. `stdin` has the rows, `stdout` the rows with
//! their answers.
#![tactic(auto)]

mod counted;
mod ends;
mod equality;
mod said;
mod terms;
mod tokens;
mod trees;
mod words;

use counted::{push_commands, push_counts, push_names, push_spelled};
use ends::answer_ends;
use equality::answer_terms;
use mars_read::read_input;
use mars_script::Input;
use rows::{Stop, answer_rows, push_refusal, unfolded_text};
use said::push_input;
use std::alloc::Global;
use std::io;
use terms::push_clauses;
use tokens::answer_tokens;
use trees::{answer_goals, answer_tree};
use words::answer_words;

fn main(rt: HostRuntime) -> io::Result<()> {
    answer_rows(&rt, answer)
}

/// The answer of a row, by its first word. A row that begins with a word of no other row is two terms.
fn answer(alloc: Global, word: &str, rest: &str, into: &mut Vec<u8>) -> Result<(), Stop> {
    match word {
        "marseille" => answer_words(alloc, rest, into),
        "bytes" | "never" | "reader" | "whole" | "broken" | "long" | "buffer" | "list" | "short" =>
            answer_ends(alloc, word, rest, into),
        "one"
        | "two"
        | "first"
        | "tree"
        | "goals"
        | "input"
        | "clauses"
        | "read"
        | "count"
        | "names"
        | "spelled" => answer_unfolded(alloc, word, rest, into),
        _ => answer_terms(alloc, word, rest, into),
    }
}

/// The answer of a row whose text may have parts that are repeated.
fn answer_unfolded(alloc: Global, word: &str, rest: &str, into: &mut Vec<u8>) -> Result<(), Stop> {
    let text = unfolded_text(alloc, rest)?;
    match word {
        "one" | "two" | "first" => answer_tokens(alloc, word, text.as_bytes(), into),
        "tree" => answer_tree(alloc, text.as_bytes(), into),
        "goals" => answer_goals(alloc, text.as_bytes(), into),
        _ => answer_text(alloc, word, text.as_bytes(), into),
    }
}

/// Reads an input, and answers, or writes the refusal.
fn answer_text(alloc: Global, word: &str, bytes: &[u8], into: &mut Vec<u8>) -> Result<(), Stop> {
    match read_input(alloc, bytes) {
        Ok(input) => answer_input(alloc, word, &input, into),
        Err(error) => push_refusal(error, into),
    }
}

/// Answers a row whose input was read.
fn answer_input(alloc: Global, word: &str, input: &Input, into: &mut Vec<u8>) -> Result<(), Stop> {
    match word {
        "input" => push_input(alloc, input, into),
        "clauses" => push_clauses(alloc, input, into),
        "read" => push_commands(input, into),
        "count" => push_counts(input, into),
        "names" => push_names(&input.names, into),
        "spelled" => push_spelled(input, into),
        _ => Err(Stop::NoRow),
    }
}
