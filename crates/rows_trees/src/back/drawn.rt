//! Random graphs: up to twelve nodes with labels of every kind over random kids.
use crate::back::shapes::{Lexicon, name};
use crate::back::trips::{Trip, round_trip};
use mars_base::NoMemory;
use mars_tree::{Graph, Label, Names};
use rand_core::utils::NextWord;
use rand_pcg::Pcg32;
use rows::set_kid_at;
use std::alloc::Global;

/// How many of so many graphs are read back to the same graph.
pub fn all_drawn(alloc: Global, count: u64) -> Result<u64, NoMemory> {
    let mut words = Pcg32::new(42, 54);
    let mut names = Names::new(alloc);
    let lexicon = Lexicon::new(&mut names)?;
    let mut same: u64 = 0;
    for _ in 0..count {
        if is_same(alloc, &mut words, &mut names, &lexicon)? {
            same = same.saturating_add(1);
        }
    }
    Ok(same)
}

/// Whether a graph that is drawn is read back.
fn is_same(
    alloc: Global,
    words: &mut Pcg32,
    names: &mut Names,
    lexicon: &Lexicon,
) -> Result<bool, NoMemory> {
    let graph = draw(alloc, words, lexicon)?;
    let trip = round_trip(alloc, names, &graph, 0)?;
    Ok(matches!(trip, Trip::Same { .. }))
}

/// A random graph.
fn draw(alloc: Global, words: &mut Pcg32, lexicon: &Lexicon) -> Result<Graph, NoMemory> {
    let mut graph = Graph::new(alloc);
    let size = words.next_word() % 12 + 1;
    for _ in 0..size {
        let _node = match draw_label(words, lexicon) {
            Some(label) => graph.add(label)?,
            None => graph.add_free()?,
        };
    }
    link_all(words, &mut graph);
    Ok(graph)
}

/// Gives each node of a graph random kids.
fn link_all(words: &mut Pcg32, graph: &mut Graph) {
    for node in 0..graph.len() {
        link_kids(words, graph, node);
    }
}

/// Gives a node random kids.
fn link_kids(words: &mut Pcg32, graph: &mut Graph, node: usize) {
    for place in 0..4 {
        let to = words.next_word() as usize % graph.len().max(1);
        set_kid_at(graph, node, place, to);
    }
}

/// A random label, or none for a free leaf.
fn draw_label(words: &mut Pcg32, lexicon: &Lexicon) -> Option<Label> {
    let many = words.next_word() % 4;
    match words.next_word() % 14 {
        0 => None,
        1 => Some(name(lexicon.aa, 0)),
        2 => Some(name(lexicon.nil, 0)),
        3 => Some(name(lexicon.hh, 1)),
        4 => Some(name(lexicon.kk, many)),
        5 => Some(name(lexicon.put, 2)),
        6 => Some(Label::Int(draw_integer(words))),
        7 => Some(Label::Str(lexicon.plain)),
        8 => Some(Label::Str(lexicon.odd)),
        9 => Some(Label::Str(lexicon.nothing)),
        10 => Some(Label::Tup(many + 1)),
        _ => Some(Label::Dot),
    }
}

/// A random integer, often one at the end of its range.
fn draw_integer(words: &mut Pcg32) -> i64 {
    match words.next_word() % 5 {
        0 => i64::MIN,
        1 => i64::MAX,
        2 => 0,
        3 => -1,
        _ => i64::from(words.next_word()) - 1_000_000,
    }
}
