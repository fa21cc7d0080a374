//! What an input says, as text.
use crate::counted::push_name;
use mars_script::{Command, Input, Script};
use mars_term::{Ask, Rule, Term, Version};
use mars_tree::{Graph, NameId, Names};
use rows::{Stop, canon_of, push_number, push_text};
use std::alloc::Global;

/// Writes all of an input: its version, its rules and its sessions.
pub fn push_input(alloc: Global, input: &Input, into: &mut Vec<u8>) -> Result<(), Stop> {
    into.extend_from_slice(match input.version {
        Version::One => b"version 1",
        Version::Two => b"version 2",
    })?;
    push_rules(&input.names, input.rules.as_slice(), into)?;
    for session in input.sessions.as_slice() {
        push_session(alloc, &input.names, session, into)?;
    }
    Ok(())
}

/// Writes a session: its name, its rules and its commands.
fn push_session(
    alloc: Global,
    names: &Names,
    session: &Script,
    into: &mut Vec<u8>,
) -> Result<(), Stop> {
    push_one(names, b" | session", session.name, into)?;
    push_rules(names, session.rules.as_slice(), into)?;
    for command in session.commands.as_slice() {
        push_command(alloc, names, command, into)?;
    }
    Ok(())
}

/// Writes rules: of each the name of its head, and how many arguments, goals and variables there are.
fn push_rules(names: &Names, rules: &[Rule], into: &mut Vec<u8>) -> Result<(), Stop> {
    for rule in rules {
        if let Term::Name(name, terms) = &rule.head {
            push_one(names, b" | rule", *name, into)?;
            push_count(terms.len(), into)?;
            push_count(rule.body.len(), into)?;
            push_count(rule.vars as usize, into)?;
        }
    }
    Ok(())
}

/// Writes a number after a blank.
fn push_count(count: usize, into: &mut Vec<u8>) -> Result<(), Stop> {
    into.extend_from_slice(b" ")?;
    Ok(push_number(count, into)?)
}

/// Writes a command.
fn push_command(
    alloc: Global,
    names: &Names,
    command: &Command,
    into: &mut Vec<u8>,
) -> Result<(), Stop> {
    match command {
        Command::Put { name, graph, root } => {
            push_one(names, b" | put", *name, into)?;
            push_put(alloc, names, graph, *root, into)
        }
        Command::Ask { ask } => push_ask(names, ask, into),
        Command::Keep { name, var } => push_two(names, b" | keep", *name, *var, into),
        Command::Same { left, right } => push_two(names, b" | same", *left, *right, into),
        Command::Pin { new, old } => push_two(names, b" | pin", *new, *old, into),
        Command::Show { name } => push_one(names, b" | show", *name, into),
        Command::Drop { name } => push_one(names, b" | drop", *name, into),
        Command::Sweep => Ok(into.extend_from_slice(b" | sweep")?),
        Command::Count => Ok(into.extend_from_slice(b" | count")?),
    }
}

/// Writes a word and a name.
fn push_one(names: &Names, word: &[u8], name: NameId, into: &mut Vec<u8>) -> Result<(), Stop> {
    into.extend_from_slice(word)?;
    push_name(names, name, into)
}

/// Writes a word and two names.
fn push_two(
    names: &Names,
    word: &[u8],
    first: NameId,
    second: NameId,
    into: &mut Vec<u8>,
) -> Result<(), Stop> {
    push_one(names, word, first, into)?;
    push_name(names, second, into)
}

/// Writes the tree of a put.
fn push_put(
    alloc: Global,
    names: &Names,
    graph: &Graph,
    root: usize,
    into: &mut Vec<u8>,
) -> Result<(), Stop> {
    let canon = canon_of(alloc, graph, &[root])?;
    into.extend_from_slice(b" ")?;
    push_text(names, &canon, into)
}

/// Writes an ask: how many answers it wants at most, where it says so, how many goals it has, its variables, and after
/// `with` the names of trees.
fn push_ask(names: &Names, ask: &Ask, into: &mut Vec<u8>) -> Result<(), Stop> {
    into.extend_from_slice(b" | ask")?;
    if let Some(most) = ask.most {
        push_count(most as usize, into)?;
        into.extend_from_slice(b" times")?;
    }
    push_count(ask.goals.len(), into)?;
    push_all(names, ask.vars.as_slice(), into)?;
    if !ask.kept.as_slice().is_empty() {
        into.extend_from_slice(b" with")?;
    }
    push_all(names, ask.kept.as_slice(), into)
}

/// Writes names.
pub fn push_all(names: &Names, all: &[NameId], into: &mut Vec<u8>) -> Result<(), Stop> {
    for name in all {
        push_name(names, *name, into)?;
    }
    Ok(())
}
