//! Alternatives, and what is made of them.
use crate::plain::equations::{Classes, are_apart, solved};
use crate::plain::goals::{Atom, Flat, PlainGoal, PlainOpen, opened};
use mars_base::NoMemory;
use std::alloc::Global;

/// Goals, the first one first; equations; inequations; frozen pairs in the order of freezing; and the next unused variable.
#[derive(Drop)]
pub(crate) struct Plain {
    pub(crate) goals: Vec<PlainOpen>,
    pub(crate) equal: Vec<(Atom, Atom)>,
    pub(crate) differ: Vec<(Atom, Atom)>,
    pub(crate) frozen: Vec<(Atom, Flat)>,
    pub(crate) next: u32,
}

/// The goals after the first.
pub(crate) fn after_first(alloc: Global, goals: &[PlainOpen]) -> Result<Vec<PlainOpen>, NoMemory> {
    let mut rest = Vec::new(alloc);
    let mut is_first = true;
    for goal in goals {
        if !is_first {
            rest.push(*goal)?;
        }
        is_first = false;
    }
    Ok(rest)
}

/// An alternative with other goals.
pub(crate) fn with_goals(
    alloc: Global,
    parent: &Plain,
    goals: Vec<PlainOpen>,
) -> Result<Plain, NoMemory> {
    Ok(Plain {
        goals,
        equal: Vec::from_slice(alloc, &parent.equal)?,
        differ: Vec::from_slice(alloc, &parent.differ)?,
        frozen: Vec::from_slice(alloc, &parent.frozen)?,
        next: parent.next,
    })
}

/// Sorts frozen pairs: the goals of those that are known, and the pairs that wait on.
fn sort_frozen(
    classes: &Classes,
    frozen: &[(Atom, Flat)],
    goals: &mut Vec<PlainOpen>,
    left: &mut Vec<(Atom, Flat)>,
) -> Result<(), NoMemory> {
    for pair in frozen {
        if classes.is_known(pair.0) {
            goals.push(PlainOpen::Call(pair.1))?;
        } else {
            left.push(*pair)?;
        }
    }
    Ok(())
}

/// The child with more equations over more variables, whose goals are those that wake, then a body, then others: `None` where
/// the equations and the inequations have no solution.
pub(crate) fn child_under(
    alloc: Global,
    parent: &Plain,
    equal: Vec<(Atom, Atom)>,
    next: u32,
    body: &[PlainOpen],
    others: &[PlainOpen],
) -> Result<Option<Plain>, NoMemory> {
    let classes = match solved(alloc, &equal, next)? {
        Some(classes) => classes,
        None => {
            return Ok(None);
        }
    };
    if !are_apart(&classes, &parent.differ) {
        return Ok(None);
    }
    let mut goals = Vec::new(alloc);
    let mut frozen = Vec::new(alloc);
    sort_frozen(&classes, &parent.frozen, &mut goals, &mut frozen)?;
    goals.extend_from_slice(body)?;
    goals.extend_from_slice(others)?;
    Ok(Some(Plain {
        goals,
        equal,
        differ: Vec::from_slice(alloc, &parent.differ)?,
        frozen,
        next,
    }))
}

/// The goals of a rule's body, whose variables are those from a number on, with cuts of a height.
pub(crate) fn opened_body(
    alloc: Global,
    body: &[PlainGoal],
    first: u32,
    height: usize,
) -> Result<Vec<PlainOpen>, NoMemory> {
    let mut goals = Vec::new(alloc);
    for goal in body {
        goals.push(opened(*goal, first, height))?;
    }
    Ok(goals)
}

/// The equations with those of two terms' arguments.
pub(crate) fn with_arguments(
    alloc: Global,
    equal: &[(Atom, Atom)],
    call: Flat,
    head: Flat,
) -> Result<Vec<(Atom, Atom)>, NoMemory> {
    let mut all = Vec::from_slice(alloc, equal)?;
    push_argument(call.first, head.first, &mut all)?;
    push_argument(call.second, head.second, &mut all)?;
    Ok(all)
}

/// Adds the equation of two arguments.
fn push_argument(
    one: Option<Atom>,
    other: Option<Atom>,
    all: &mut Vec<(Atom, Atom)>,
) -> Result<(), NoMemory> {
    match (one, other) {
        (Some(left), Some(right)) => {
            all.push((left, right))?;
        }
        _ => {}
    }
    Ok(())
}
