//! Rules that are taken: a head matched with a goal, and the body built.
ghost use Rattle.std.specs.Prelude.{◌≡◌, ◌<◌, length, OnOk};
ghost use Rattle.mars_matching.specs.Trees.{IsTemplate};
ghost use Rattle.mars_store.specs.System.{Grows};

use crate::terms::{is_inside, push_term};
use mars_base::NoMemory;
use mars_matching::{Template, build_body, match_head};
use mars_rules::{BodyGoal, FlatGoal, FlatRule, RuleBase};
use mars_store::{NodeId, Registers, Store};
use mars_tree::{Label, Names};
use rows::{Stop, push_number};
use std::alloc::Global;

/// No input has more rules.
pub(crate) const MOST_RULES: usize = 4096;

/// Writes which rules the goals in the bodies of the rules from a place on take, and what that makes.
pub(crate) fn push_takes(
    alloc: Global,
    names: &Names,
    base: &RuleBase,
    from: usize,
    into: &mut Vec<u8>,
) -> Result<(), Stop> {
    for place in from..MOST_RULES {
        let Some(rule) = base.candidate(None, place) else {
            break;
        };
        push_body(alloc, names, base, rule, into)?;
    }
    Ok(())
}

/// Writes which rules the goals in the body of a rule take.
fn push_body(
    alloc: Global,
    names: &Names,
    base: &RuleBase,
    rule: usize,
    into: &mut Vec<u8>,
) -> Result<(), Stop>
    requires { rule < length base.now.rules }
{
    let mut store = Store::new(alloc);
    let copy = base.instance(&mut store, rule)?;
    push_goals(alloc, names, base, &mut store, copy.body.as_slice(), into)
}

fn push_goals(
    alloc: Global,
    names: &Names,
    base: &RuleBase,
    store: &mut Store,
    goals: &[BodyGoal],
    into: &mut Vec<u8>,
) -> Result<(), Stop> {
    for goal in goals {
        if let BodyGoal::Call(goal) = goal {
            push_goal(alloc, names, base, store, *goal, into)?;
        }
    }
    Ok(())
}

/// Writes which rules a goal takes.
fn push_goal(
    alloc: Global,
    names: &Names,
    base: &RuleBase,
    store: &mut Store,
    goal: NodeId,
    into: &mut Vec<u8>,
) -> Result<(), Stop> {
    let (label, first) = labels_of(store, goal);
    let mut from = 0;
    for _ in 0..MOST_RULES {
        let Some(rule) = base.candidate_by(label, first, from) else {
            break;
        };
        push_try(alloc, names, base, store, rule, goal, into)?;
        from = rule.saturating_add(1);
    }
    into.extend_from_slice(b" |")?;
    Ok(())
}

/// The labels of a goal and of its first argument.
fn labels_of(store: &Store, goal: NodeId) -> (Option<Label>, Option<Label>) {
    if !is_inside(store, goal) {
        return (None, None);
    }
    match store.root_label(goal) {
        Some(label) if label.arity() > 0 => (Some(label), store.root_label(store.kid(goal, 0))),
        label => (label, None),
    }
}

/// Tries a rule on a goal, writes what that makes, and undoes it.
fn push_try(
    alloc: Global,
    names: &Names,
    base: &RuleBase,
    store: &mut Store,
    rule: usize,
    goal: NodeId,
    into: &mut Vec<u8>,
) -> Result<(), Stop>
    requires { rule < length base.now.rules }
{
    into.extend_from_slice(b" ")?;
    push_number(rule, into)?;
    into.extend_from_slice(b": ")?;
    if is_inside(store, goal) {
        let mut registers = Registers::new(alloc);
        take(
            alloc,
            names,
            flat_of(base, rule),
            store,
            goal,
            &mut registers,
            into,
        )?;
    }
    Ok(())
}

/// A rule as a template.
fn flat_of(base: &RuleBase, rule: usize) -> &FlatRule
    requires { rule < length base.now.rules }
    ensures { IsTemplate result.now.template }
{
    base.flat(rule)
}

fn take(
    alloc: Global,
    names: &Names,
    rule: &FlatRule,
    store: &mut Store,
    goal: NodeId,
    registers: &mut Registers,
    into: &mut Vec<u8>,
) -> Result<(), NoMemory>
    requires template { IsTemplate rule.now.template }
    requires goal_in { goal < length store.old.nodes }
{
    let mark = store.mark();
    if is_taken(alloc, &rule.template, store, goal, registers)? {
        push_number(store.mark().nodes - mark.nodes, into)?;
        push_taken(alloc, names, store, goal, &rule.goals, registers, into)?;
    } else {
        into.extend_from_slice(b"no;")?;
    }
    store.undo_to(mark);
    Ok(())
}

/// Matches a rule's head and builds its body.
fn is_taken(
    alloc: Global,
    rule: &Template,
    store: &mut Store,
    goal: NodeId,
    registers: &mut Registers,
) -> Result<bool, NoMemory>
    requires template { IsTemplate rule.now }
    requires goal_in { goal < length store.old.nodes }
    ensures { OnOk result (Grows store.old store.new) }
{
    if !match_head(alloc, store, rule, goal, registers)? {
        return Ok(false);
    }
    build_body(store, rule, registers)?;
    Ok(true)
}

/// Writes a goal that took a rule, and the goals of the rule's body.
fn push_taken(
    alloc: Global,
    names: &Names,
    store: &Store,
    goal: NodeId,
    goals: &[FlatGoal],
    registers: &Registers,
    into: &mut Vec<u8>,
) -> Result<(), NoMemory> {
    into.extend_from_slice(b" ")?;
    push_term(alloc, names, store, goal, into)?;
    into.extend_from_slice(b" ->")?;
    for goal in goals {
        into.extend_from_slice(b" ")?;
        match goal {
            FlatGoal::Call(place) => push_place(alloc, names, store, registers, *place, into)?,
            FlatGoal::Cut => into.extend_from_slice(b"/")?,
        }
    }
    into.extend_from_slice(b";")?;
    Ok(())
}

/// Writes the term of a register.
fn push_place(
    alloc: Global,
    names: &Names,
    store: &Store,
    registers: &Registers,
    place: usize,
    into: &mut Vec<u8>,
) -> Result<(), NoMemory> {
    let node = if place < registers.len() {
        registers.get(place)
    } else {
        None
    };
    match node {
        Some(node) => push_term(alloc, names, store, node, into),
        None => Ok(into.extend_from_slice(b"?")?),
    }
}
