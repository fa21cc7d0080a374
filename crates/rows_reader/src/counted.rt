//! The names of an input, and how much it has.
ghost use Rattle.std.specs.Prelude.{◌<◌};

use mars_script::{Command, Input, Script};
use mars_tree::{NameId, Names};
use rows::{Stop, push_number};

/// Writes a blank and the spelling of a name.
pub fn push_name(names: &Names, name: NameId, into: &mut Vec<u8>) -> Result<(), Stop> {
    into.extend_from_slice(b" ")?;
    if (name.0 as usize) < names.len() {
        into.extend_from_slice(names.text(name))?;
    }
    Ok(())
}

/// How many commands an input has.
fn count_commands(input: &Input) -> usize {
    let mut count: usize = 0;
    for session in input.sessions.as_slice() {
        count = count.saturating_add(session.commands.len());
    }
    count
}

/// How many rules an input has, those of sessions too.
fn count_rules(input: &Input) -> usize {
    let mut count = input.rules.len();
    for session in input.sessions.as_slice() {
        count = count.saturating_add(session.rules.len());
    }
    count
}

/// Writes how many commands an input has.
pub fn push_commands(input: &Input, into: &mut Vec<u8>) -> Result<(), Stop> {
    push_number(count_commands(input), into)?;
    Ok(into.extend_from_slice(b" commands")?)
}

/// Writes how many rules, sessions and commands an input has.
pub fn push_counts(input: &Input, into: &mut Vec<u8>) -> Result<(), Stop> {
    push_number(count_rules(input), into)?;
    into.extend_from_slice(b" rules, ")?;
    push_number(input.sessions.len(), into)?;
    into.extend_from_slice(b" sessions, ")?;
    push_commands(input, into)
}

/// Writes the names after the built-in ones.
pub fn push_names(names: &Names, into: &mut Vec<u8>) -> Result<(), Stop> {
    push_number(names.len(), into)?;
    into.extend_from_slice(b" names")?;
    for place in 13..names.len() {
        push_name(names, NameId(place as u32), into)?;
    }
    Ok(())
}

/// Writes a word, and a name with its number.
fn push_numbered(names: &Names, word: &[u8], name: NameId, into: &mut Vec<u8>) -> Result<(), Stop> {
    into.extend_from_slice(word)?;
    push_name(names, name, into)?;
    into.extend_from_slice(b" ")?;
    Ok(push_number(name.0 as usize, into)?)
}

/// Writes a session's name, and the name of each of its puts, with their numbers.
fn push_session(names: &Names, session: &Script, into: &mut Vec<u8>) -> Result<(), Stop> {
    push_numbered(names, b", session", session.name, into)?;
    for command in session.commands.as_slice() {
        if let Command::Put { name, .. } = command {
            push_numbered(names, b", put", *name, into)?;
        }
    }
    Ok(())
}

/// Writes how many names there are, and those of sessions and puts, with their numbers.
pub fn push_spelled(input: &Input, into: &mut Vec<u8>) -> Result<(), Stop> {
    push_number(input.names.len(), into)?;
    into.extend_from_slice(b" names")?;
    for session in input.sessions.as_slice() {
        push_session(&input.names, session, into)?;
    }
    Ok(())
}
