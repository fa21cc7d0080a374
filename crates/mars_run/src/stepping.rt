//! One step on a memory and its choice points.
ghost use Rattle.std.specs.Prelude.{◌<◌, length, All, IfOk, MatchOption};
ghost use Rattle.mars_term.specs.Clauses.{IsRule};
ghost use Rattle.mars_machine.specs.BuiltIns.{HasBuiltIn};
ghost use Rattle.mars_memory.specs.Found.{HasCallAt, IsCallOf};
ghost use Rattle.mars_run.specs.States.{HasState, HasChoices};
ghost use Rattle.mars_run.specs.Stepping.{IsStepMade, IsCalled, IsOfRules, HasAnswer, IsAnswerStep, HasGoal, IsDown};

use crate::saying::say;
use crate::searching::{call_rules, next_alternative};
use mars_base::NoMemory;
use mars_goals::{ChoicePoints, GoalList, Pending};
use mars_machine::{BuiltIn, Stepped, built_in_of};
use mars_memory::{Memory, call_built_in, tell_answer};
use mars_rules::RuleBase;
use mars_store::{NodeId, Registers};
use std::alloc::Global;

/// What a step told, and the goals with which the machine goes on, if any alternative is left.
type Step = (Stepped, Option<GoalList>);

/// The built-in that a node calls, `None` exactly where it calls none of the version.
fn called_built_in(rules: &RuleBase, memory: &Memory, node: NodeId) -> Option<BuiltIn>
    requires { node < length memory.now.system.nodes }
    ensures { MatchOption result (IsOfRules rules.now.version memory.now node) (λ built_in. HasBuiltIn rules.now.version built_in × IsCallOf memory.now node built_in) }
{
    match memory.root_label(node) {
        Some(label) => built_in_of(rules.version(), label),
        None => None,
    }
}

/// Calls a built-in: its child, or the next alternative where it has none.
fn step_built_in(
    alloc: Global,
    rules: &RuleBase,
    memory: &mut Memory,
    points: &mut ChoicePoints,
    registers: &mut Registers,
    built_in: BuiltIn,
    node: NodeId,
    rest: GoalList,
) -> Result<Step, NoMemory>
    requires rules { All IsRule rules.now.rules }
    requires has { HasBuiltIn rules.now.version built_in }
    requires held { HasCallAt memory.old node rest (length points.old) }
    requires label { IsCallOf memory.old node built_in }
    requires choices { HasChoices rules.now.rules memory.old points.old }
    ensures { IfOk result (λ step. IsCalled rules.now memory.old points.old node rest step.0 memory.new points.new step.1) }
{
    let told = say(alloc, memory, built_in, node, rest)?;
    match call_built_in(alloc, memory, built_in, node, rest)? {
        Some(list) => Ok((told, Some(list))),
        None => {
            let next = next_alternative(alloc, rules, memory, points, registers)?;
            Ok((Stepped::Went, next))
        }
    }
}

/// Calls a node: a built-in, or rules.
fn step_call(
    alloc: Global,
    rules: &RuleBase,
    memory: &mut Memory,
    points: &mut ChoicePoints,
    registers: &mut Registers,
    node: NodeId,
    rest: GoalList,
) -> Result<Step, NoMemory>
    requires rules { All IsRule rules.now.rules }
    requires held { HasCallAt memory.old node rest (length points.old) }
    requires choices { HasChoices rules.now.rules memory.old points.old }
    ensures { IfOk result (λ step. IsCalled rules.now memory.old points.old node rest step.0 memory.new points.new step.1) }
{
    match called_built_in(rules, memory, node) {
        Some(built_in) => step_built_in(
            alloc, rules, memory, points, registers, built_in, node, rest,
        ),
        None => {
            let next = call_rules(alloc, rules, memory, points, node, rest, registers)?;
            Ok((Stepped::Went, next))
        }
    }
}

/// Tells an answer, and goes back.
fn step_answer(
    alloc: Global,
    rules: &RuleBase,
    memory: &mut Memory,
    points: &mut ChoicePoints,
    registers: &mut Registers,
    asked: &[NodeId],
) -> Result<Step, NoMemory>
    requires rules { All IsRule rules.now.rules }
    requires answer { HasAnswer asked.now rules.now.rules memory.old points.old }
    ensures { IfOk result (λ step. IsAnswerStep asked.now rules.now memory.old points.old step.0 memory.new points.new step.1) }
{
    let answer = tell_answer(alloc, memory, asked)?;
    let next = next_alternative(alloc, rules, memory, points, registers)?;
    Ok((Stepped::Answered(answer), next))
}

/// One step on the first alternative, whose goals are a goal before a list.
fn step_goal(
    alloc: Global,
    rules: &RuleBase,
    memory: &mut Memory,
    points: &mut ChoicePoints,
    registers: &mut Registers,
    goal: Pending,
    rest: GoalList,
) -> Result<Step, NoMemory>
    requires rules { All IsRule rules.now.rules }
    requires goal { HasGoal rules.now.rules memory.old points.old goal rest }
    ensures { IfOk result (λ step. IsDown rules.now memory.old points.old goal rest step.0 memory.new points.new step.1) }
{
    match goal {
        Pending::Cut(kept) => {
            points.cut(kept);
            Ok((Stepped::Went, Some(rest)))
        }
        Pending::Call(node) => step_call(alloc, rules, memory, points, registers, node, rest),
    }
}

/// One step on the first alternative, whose goals are a list.
pub(crate) fn step_on(
    alloc: Global,
    rules: &RuleBase,
    memory: &mut Memory,
    points: &mut ChoicePoints,
    registers: &mut Registers,
    asked: &[NodeId],
    list: GoalList,
) -> Result<Step, NoMemory>
    requires rules { All IsRule rules.now.rules }
    requires state { HasState asked.now rules.now.rules memory.old points.old list }
    ensures { IfOk result (λ step. IsStepMade asked.now rules.now memory.old points.old list step.0 memory.new points.new step.1) }
{
    match memory.first(list) {
        None => step_answer(alloc, rules, memory, points, registers, asked),
        Some(first) => step_goal(alloc, rules, memory, points, registers, first.0, first.1),
    }
}
