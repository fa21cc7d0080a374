//! Answers rows on graphs, from their nodes to their texts: what each public call of `mars_tree`, `mars_reach`, `mars_refine`,
//! `mars_comp`, `mars_first`, `mars_minim`, `mars_canon` and `mars_print` gives, on worked cases and on large shapes, and
//! what is read back. `stdin` has the rows, `stdout` the rows with their answers.
#![tactic(auto)]

mod back;
mod canonical;
mod compare;
mod components;
mod draws;
mod equality;
mod forms;
mod growing;
mod laid;
mod plain;
mod printing;
mod reaching;
mod refining;
mod smallest;
mod spellings;

use rows::{Layout, Stop, answer_rows, push_graph, read_nodes, read_numbers};
use std::alloc::Global;
use std::io;

fn main(rt: HostRuntime) -> io::Result<()> {
    answer_rows(&rt, answer)
}

/// The answer of a row, by its first word.
fn answer(alloc: Global, word: &str, rest: &str, into: &mut Vec<u8>) -> Result<(), Stop> {
    match word {
        "same" => equality::answer_same(alloc, rest, into),
        "count" => refining::answer_count(alloc, rest, into),
        "lists" => laid::answer_lists(alloc, into),
        "names" => spellings::answer_names(alloc, rest, into),
        "listed" => spellings::answer_listed(alloc, rest, into),
        "order" => reaching::answer_order(alloc, rest, into),
        "least" | "layout" | "form" | "one" | "tree" | "size" | "twins" | "copy" => {
            forms::answer_trees(alloc, word, rest, into)
        }
        "three" => draws::answer_three(alloc, into),
        "drawn" => draws::answer_drawn(alloc, rest, into),
        "canon" => printing::answer_canon(alloc, rest, into),
        "print" => printing::answer_print(alloc, rest, into),
        "back" => back::answer_back(alloc, rest, into),
        _ => answer_laid(alloc, word, rest, into),
    }
}

/// The answer of a row that lays out a graph after its last colon.
fn answer_laid(alloc: Global, word: &str, rest: &str, into: &mut Vec<u8>) -> Result<(), Stop> {
    let (parts, nodes) = match rest.rsplit_once(':') {
        Some((parts, nodes)) => (parts, nodes),
        None => ("", rest),
    };
    let laid = read_nodes(alloc, nodes)?;
    answer_on(alloc, word, parts, &laid, into)
}

/// The answer of a row on a graph.
fn answer_on(
    alloc: Global,
    word: &str,
    parts: &str,
    laid: &Layout,
    into: &mut Vec<u8>,
) -> Result<(), Stop> {
    match word {
        "nodes" => Ok(push_graph(&laid.names, &laid.graph, into)?),
        "classes" => refining::answer_classes(alloc, &laid.graph, into),
        "components" => components::answer_components(alloc, &laid.graph, into),
        "key" | "leastkey" | "firstkey" => components::answer_keyed(alloc, word, parts, laid, into),
        _ => {
            let roots = read_numbers(alloc, parts)?;
            answer_roots(alloc, word, &roots, laid, into)
        }
    }
}

/// The answer of a row on a graph and some of its nodes.
fn answer_roots(
    alloc: Global,
    word: &str,
    roots: &[usize],
    laid: &Layout,
    into: &mut Vec<u8>,
) -> Result<(), Stop> {
    match word {
        "part" => reaching::answer_part(alloc, roots, laid, into),
        "reached" => reaching::answer_reached(alloc, roots, &laid.graph, into),
        "free" => reaching::answer_free(alloc, roots, &laid.graph, into),
        "grown" => growing::answer_grown(alloc, roots, laid, into),
        _ => Err(Stop::NoRow),
    }
}
