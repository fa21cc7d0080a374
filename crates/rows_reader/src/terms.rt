//! Rules and asks as terms: `v0` is a variable by its number, `k0` a kept name by its number, `[a.b]` a dot.
ghost use Rattle.std.specs.Prelude.{◌<◌};

use crate::said::push_all;
use mars_script::{Command, Input};
use mars_term::{Ask, Goal, Rule, Term};
use mars_tree::{NameId, Names};
use rows::{Stop, push_number};
use std::alloc::Global;

/// What is still to be written, the next last.
#[derive(Clone, Copy, Drop)]
enum Work<'a> {
    One(&'a Term),
    Piece(&'static str),
}

/// Writes the rules of an input and of its sessions, and the asks.
pub fn push_clauses(alloc: Global, input: &Input, into: &mut Vec<u8>) -> Result<(), Stop> {
    push_rules(alloc, &input.names, input.rules.as_slice(), into)?;
    for session in input.sessions.as_slice() {
        push_rules(alloc, &input.names, session.rules.as_slice(), into)?;
        push_asks(alloc, &input.names, session.commands.as_slice(), into)?;
    }
    Ok(())
}

/// Writes rules, each with how many variables it has.
fn push_rules(
    alloc: Global,
    names: &Names,
    rules: &[Rule],
    into: &mut Vec<u8>,
) -> Result<(), Stop> {
    for rule in rules {
        into.extend_from_slice(b"| rule ")?;
        push_term(alloc, names, &rule.head, into)?;
        into.extend_from_slice(b" ->")?;
        push_goals(alloc, names, rule.body.as_slice(), into)?;
        into.extend_from_slice(b" of ")?;
        push_number(rule.vars as usize, into)?;
        into.extend_from_slice(b" ")?;
    }
    Ok(())
}

/// Writes the asks among commands.
fn push_asks(
    alloc: Global,
    names: &Names,
    commands: &[Command],
    into: &mut Vec<u8>,
) -> Result<(), Stop> {
    for command in commands {
        if let Command::Ask { ask } = command {
            into.extend_from_slice(b"| ")?;
            push_ask_terms(alloc, names, ask, into)?;
            into.extend_from_slice(b" ")?;
        }
    }
    Ok(())
}

/// Writes an ask: how many answers it wants at most, where it says so, its goals, its variables and its kept names.
pub fn push_ask_terms(
    alloc: Global,
    names: &Names,
    ask: &Ask,
    into: &mut Vec<u8>,
) -> Result<(), Stop> {
    into.extend_from_slice(b"ask")?;
    if let Some(most) = ask.most {
        into.extend_from_slice(b" ")?;
        push_number(most as usize, into)?;
        into.extend_from_slice(b" times")?;
    }
    push_goals(alloc, names, ask.goals.as_slice(), into)?;
    into.extend_from_slice(b" of")?;
    push_all(names, ask.vars.as_slice(), into)?;
    into.extend_from_slice(b" with")?;
    push_all(names, ask.kept.as_slice(), into)
}

/// Writes goals, each after a blank.
fn push_goals(
    alloc: Global,
    names: &Names,
    goals: &[Goal],
    into: &mut Vec<u8>,
) -> Result<(), Stop> {
    for goal in goals {
        into.extend_from_slice(b" ")?;
        match goal {
            Goal::Call(term) => push_term(alloc, names, term, into)?,
            Goal::Cut => into.extend_from_slice(b"/")?,
        }
    }
    Ok(())
}

/// Writes a term, of at most so many parts as a row has.
fn push_term(alloc: Global, names: &Names, term: &Term, into: &mut Vec<u8>) -> Result<(), Stop> {
    let mut work = Vec::new(alloc);
    work.push(Work::One(term))?;
    for _ in 0..100_000 {
        match work.pop() {
            Some(Work::One(next)) => push_first(names, next, into, &mut work)?,
            Some(Work::Piece(piece)) => into.extend_from_slice(piece.as_bytes())?,
            None => return Ok(()),
        }
    }
    Ok(())
}

/// Writes what comes first of a term, and puts off the rest.
fn push_first<'a>(
    names: &Names,
    term: &'a Term,
    into: &mut Vec<u8>,
    work: &mut Vec<Work<'a>>,
) -> Result<(), Stop> {
    match term {
        Term::Var(number) => push_numbered(b"v", *number as usize, into),
        Term::Kept(number) => push_numbered(b"k", *number as usize, into),
        Term::Int(number) => push_integer(*number, into),
        Term::Name(name, terms) => {
            push_spelling(names, *name, into)?;
            into.extend_from_slice(b"(")?;
            put_off(terms.as_slice(), ")", work)
        }
        Term::Tup(terms) => {
            into.extend_from_slice(b"<")?;
            put_off(terms.as_slice(), ">", work)
        }
        Term::Dot(left, right) => {
            into.extend_from_slice(b"[")?;
            put_off_dot(left.get(), right.get(), work)
        }
        Term::Str(name) => {
            into.extend_from_slice(b"\"")?;
            push_spelling(names, *name, into)?;
            Ok(into.extend_from_slice(b"\"")?)
        }
    }
}

/// Writes a letter and a number.
fn push_numbered(letter: &[u8], number: usize, into: &mut Vec<u8>) -> Result<(), Stop> {
    into.extend_from_slice(letter)?;
    Ok(push_number(number, into)?)
}

/// Writes an integer.
fn push_integer(number: i64, into: &mut Vec<u8>) -> Result<(), Stop> {
    if number < 0 {
        into.extend_from_slice(b"-")?;
    }
    Ok(push_number(number.unsigned_abs() as usize, into)?)
}

/// Writes a spelling.
fn push_spelling(names: &Names, name: NameId, into: &mut Vec<u8>) -> Result<(), Stop> {
    if (name.0 as usize) < names.len() {
        into.extend_from_slice(names.text(name))?;
    }
    Ok(())
}

/// Puts off the terms of a list, with what is between and after them.
fn put_off<'a>(
    terms: &'a [Term],
    after: &'static str,
    work: &mut Vec<Work<'a>>,
) -> Result<(), Stop> {
    work.push(Work::Piece(after))?;
    let mut is_last = true;
    for term in terms.iter().rev() {
        if !is_last {
            work.push(Work::Piece(","))?;
        }
        work.push(Work::One(term))?;
        is_last = false;
    }
    Ok(())
}

/// Puts off the two terms of a dot.
fn put_off_dot<'a>(left: &'a Term, right: &'a Term, work: &mut Vec<Work<'a>>) -> Result<(), Stop> {
    work.push(Work::Piece("]"))?;
    work.push(Work::One(right))?;
    work.push(Work::Piece("."))?;
    work.push(Work::One(left))?;
    Ok(())
}
