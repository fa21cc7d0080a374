//! The next alternative that has a solution: rules are tried one at a time, at a call or at the choice points.
ghost use Rattle.std.specs.Prelude.{◌≡◌, ◌+◌, ◌≤◌, length, All, IfOk, OnOk};
ghost use Rattle.mars_term.specs.Clauses.{IsRule};
ghost use Rattle.mars_memory.specs.Memory.{memory_undone, IsMemoryMark};
ghost use Rattle.mars_memory.specs.Found.{HasCallAt};
ghost use Rattle.mars_run.specs.States.{HasChoices};
ghost use Rattle.mars_run.specs.Searching.{AreRulesTried, with_left, IsChildChosen, GoesBack, GoesDown};

use mars_base::NoMemory;
use mars_goals::{Choice, ChoicePoints, GoalList};
use mars_memory::{Memory, take_rule};
use mars_rules::RuleBase;
use mars_store::{NodeId, Registers};
use std::alloc::Global;

/// The place after a rule's. So many rules that it is no number are more than memory has.
#[inline]
fn place_after(rule: usize) -> Result<usize, NoMemory>
    ensures { IfOk result (λ next. next ≡ rule + 1) }
{
    match rule.checked_add(1) {
        Some(next) => Ok(next),
        None => Err(NoMemory),
    }
}

/// Tries the rules of a choice, before so many choice points, until one has a child: the goals of the child, and the next
/// candidate after that rule.
fn try_rules(
    alloc: Global,
    rules: &RuleBase,
    memory: &mut Memory,
    choice: &Choice,
    depth: usize,
    registers: &mut Registers,
) -> Result<Option<(GoalList, Option<usize>)>, NoMemory>
    requires rules { All IsRule rules.now.rules }
    requires held { HasCallAt memory.old choice.now.call choice.now.rest depth }
    requires within { choice.now.from ≤ length rules.now.rules }
    ensures { IfOk result (AreRulesTried rules.now.rules memory.old choice.now.call choice.now.rest choice.now.from depth memory.new) }
{
    let root = memory.root_label(choice.call);
    let first = memory.first_label(choice.call);
    let mut from = choice.from;
    'rules: while let Some(rule) = rules.candidate_by(root, first, from) {
        let next = place_after(rule)?;
        let flat = rules.flat(rule);
        if let Some(list) = take_rule(
            alloc,
            memory,
            flat,
            choice.call,
            choice.rest,
            depth,
            registers,
        )? {
            return Ok(Some((list, rules.candidate_by(root, first, next))));
        }
        from = next;
    }
    Ok(None)
}

/// Keeps a choice point for the rules from a place on, where there are any.
fn keep_left(
    points: &mut ChoicePoints,
    choice: &Choice,
    left: Option<usize>,
) -> Result<(), NoMemory>
    ensures { OnOk result (points.new ≡ with_left choice.now left points.old) }
{
    match left {
        None => Ok(()),
        Some(from) => points.push(Choice { from, ..*choice }),
    }
}

/// Takes the next child of a choice that was made at the present state, and keeps a choice point where a candidate is left.
fn choose(
    alloc: Global,
    rules: &RuleBase,
    memory: &mut Memory,
    points: &mut ChoicePoints,
    choice: &Choice,
    registers: &mut Registers,
) -> Result<Option<GoalList>, NoMemory>
    requires rules { All IsRule rules.now.rules }
    requires held { HasCallAt memory.old choice.now.call choice.now.rest (length points.old) }
    requires within { choice.now.from ≤ length rules.now.rules }
    requires made { IsMemoryMark memory.old choice.now.mark }
    requires back { memory_undone memory.old choice.now.mark ≡ memory.old }
    ensures { IfOk result (IsChildChosen rules.now.rules memory.old points.old choice.now memory.new points.new) }
{
    let depth = points.len();
    match try_rules(alloc, rules, memory, choice, depth, registers)? {
        None => Ok(None),
        Some(found) => {
            keep_left(points, choice, found.1)?;
            Ok(Some(found.0))
        }
    }
}

/// Goes back to the latest choice point that has a child left, and takes it.
pub(crate) fn next_alternative(
    alloc: Global,
    rules: &RuleBase,
    memory: &mut Memory,
    points: &mut ChoicePoints,
    registers: &mut Registers,
) -> Result<Option<GoalList>, NoMemory>
    requires rules { All IsRule rules.now.rules }
    requires choices { HasChoices rules.now.rules memory.old points.old }
    ensures { IfOk result (GoesBack rules.now.rules memory.old points.old memory.new points.new) }
{
    'points: while let Some(latest) = points.pop() {
        memory.undo_to(latest.mark);
        let choice = Choice {
            mark: memory.mark(),
            ..latest
        };
        if let Some(list) = choose(alloc, rules, memory, points, &choice, registers)? {
            return Ok(Some(list));
        }
    }
    Ok(None)
}

/// Takes the first child of a call by rules, or goes back where it has none. A call whose last candidate is taken keeps no
/// choice point.
pub(crate) fn call_rules(
    alloc: Global,
    rules: &RuleBase,
    memory: &mut Memory,
    points: &mut ChoicePoints,
    node: NodeId,
    rest: GoalList,
    registers: &mut Registers,
) -> Result<Option<GoalList>, NoMemory>
    requires rules { All IsRule rules.now.rules }
    requires held { HasCallAt memory.old node rest (length points.old) }
    requires choices { HasChoices rules.now.rules memory.old points.old }
    ensures { IfOk result (GoesDown rules.now.rules memory.old points.old node rest memory.new points.new) }
{
    let choice = Choice {
        mark: memory.mark(),
        call: node,
        rest,
        from: 0,
    };
    match choose(alloc, rules, memory, points, &choice, registers)? {
        Some(list) => Ok(Some(list)),
        None => next_alternative(alloc, rules, memory, points, registers),
    }
}
