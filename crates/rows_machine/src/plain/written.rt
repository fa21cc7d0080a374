//! Rules and asks of the plain machine, out of those that were read.
use crate::plain::goals::{Atom, Flat, PlainGoal};
use mars_term::{Ask, Goal, Rule, Term};
use mars_tree::NameId;
use rows::Stop;
use std::alloc::Global;

/// A rule: its head, its body, and how many variables it has.
#[derive(Drop)]
pub(crate) struct PlainRule {
    pub(crate) head: Flat,
    pub(crate) body: Vec<PlainGoal>,
    pub(crate) vars: u32,
}

/// Rules, in order.
pub(crate) type PlainProgram = Vec<PlainRule>;

/// The place of the name `freeze`.
const FREEZE: u32 = 2;

/// An atom: a variable, or a name of no arguments.
fn atom_of(term: &Term) -> Result<Atom, Stop> {
    match term {
        Term::Var(number) => Ok(Atom::Var(*number)),
        Term::Name(name, terms) => {
            if terms.as_slice().is_empty() {
                Ok(Atom::Name(name.0))
            } else {
                Err(Stop::OtherParts)
            }
        }
        _ => Err(Stop::OtherParts),
    }
}

/// A name over at most two atoms.
fn flat_of(term: &Term) -> Result<Flat, Stop> {
    match term {
        Term::Name(name, terms) => flat_over(name.0, terms.as_slice()),
        _ => Err(Stop::OtherParts),
    }
}

fn flat_over(name: u32, terms: &[Term]) -> Result<Flat, Stop> {
    if terms.len() > 2 {
        return Err(Stop::OtherParts);
    }
    Ok(Flat {
        name,
        first: argument_at(terms, 0)?,
        second: argument_at(terms, 1)?,
    })
}

/// The argument at a place, if there is one.
fn argument_at(terms: &[Term], place: usize) -> Result<Option<Atom>, Stop> {
    match terms.get(place) {
        Some(term) => Ok(Some(atom_of(term)?)),
        None => Ok(None),
    }
}

/// A goal: a freezing is one of its own, since its second argument is a term.
fn goal_of(goal: &Goal) -> Result<PlainGoal, Stop> {
    match goal {
        Goal::Cut => Ok(PlainGoal::Cut),
        Goal::Call(term) => call_of(term),
    }
}

fn call_of(term: &Term) -> Result<PlainGoal, Stop> {
    match term {
        Term::Name(NameId(FREEZE), terms) => freezing_of(terms.as_slice()),
        _ => Ok(PlainGoal::Call(flat_of(term)?)),
    }
}

fn freezing_of(terms: &[Term]) -> Result<PlainGoal, Stop> {
    match (terms.get(0), terms.get(1)) {
        (Some(on), Some(goal)) => Ok(PlainGoal::Freeze(atom_of(on)?, flat_of(goal)?)),
        _ => Err(Stop::OtherParts),
    }
}

/// Goals, in order.
fn goals_of(alloc: Global, goals: &[Goal]) -> Result<Vec<PlainGoal>, Stop> {
    let mut all = Vec::new(alloc);
    for goal in goals {
        all.push(goal_of(goal)?)?;
    }
    Ok(all)
}

/// A rule.
fn rule_of(alloc: Global, rule: &Rule) -> Result<PlainRule, Stop> {
    Ok(PlainRule {
        head: flat_of(&rule.head)?,
        body: goals_of(alloc, rule.body.as_slice())?,
        vars: rule.vars,
    })
}

/// The rules, where each of their terms is a name over at most two variables and names of no arguments.
pub(crate) fn plain_rules(alloc: Global, rules: &[Rule]) -> Result<PlainProgram, Stop> {
    let mut all = Vec::new(alloc);
    for rule in rules {
        all.push(rule_of(alloc, rule)?)?;
    }
    Ok(all)
}

/// The goals of an ask, with the same condition.
pub(crate) fn plain_ask(alloc: Global, ask: &Ask) -> Result<Vec<PlainGoal>, Stop> {
    goals_of(alloc, ask.goals.as_slice())
}
