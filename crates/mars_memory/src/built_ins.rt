//! Calls of built-ins.
ghost use Rattle.std.specs.Prelude.{IfOk};
ghost use Rattle.mars_machine.specs.declared.built_in.BuiltIn.TheVariants.{Eq, Dif as DifCall, Val, Freeze, Bound, Free, Out, OutText};
ghost use Rattle.mars_memory.specs.Found.{HasCall, IsCallOf, IsBuiltInDone};
ghost use Rattle.mars_memory.specs.BuiltInsInside.{HasPair, IsMadeEqual};

use crate::memory::Memory;
use crate::settling::settle;
use mars_base::NoMemory;
use mars_dif::Dif;
use mars_goals::GoalList;
use mars_machine::BuiltIn;
use mars_store::NodeId;
use mars_tree::Label;
use mars_unify::Unified;
use std::alloc::Global;

/// Calls a built-in before a list: `None` exactly where the call has no child, and else the goals of the child. It takes what
/// `unify` or `eval` takes, and for an inequation what its keeper takes; else it is linear in the links of the arguments. The
/// only error is out of memory.
pub fn call_built_in(
    alloc: Global,
    memory: &mut Memory,
    built_in: BuiltIn,
    node: NodeId,
    rest: GoalList,
) -> Result<Option<GoalList>, NoMemory>
    requires held { HasCall memory.old node rest }
    requires label { IsCallOf memory.old node built_in }
    ensures { IfOk result (IsBuiltInDone memory.old node rest built_in memory.new) }
{
    match built_in {
        BuiltIn::Eq => call_eq(alloc, memory, node, rest),
        BuiltIn::Dif => call_dif(memory, node, rest),
        BuiltIn::Freeze => call_freeze(memory, node, rest),
        BuiltIn::Val => call_val(alloc, memory, node, rest),
        BuiltIn::Bound => Ok(call_bound(memory, node, rest)),
        BuiltIn::Free => Ok(call_free(memory, node, rest)),
        BuiltIn::Out => Ok(call_out(memory, node, rest)),
        BuiltIn::OutText => Ok(call_out_text(memory, node, rest)),
    }
}

/// Makes both arguments equal.
fn call_eq(
    alloc: Global,
    memory: &mut Memory,
    node: NodeId,
    rest: GoalList,
) -> Result<Option<GoalList>, NoMemory>
    requires held { HasCall memory.old node rest }
    requires label { IsCallOf memory.old node Eq }
    ensures { IfOk result (IsBuiltInDone memory.old node rest Eq memory.new) }
{
    let left = memory.argument(node, 0);
    let right = memory.argument(node, 1);
    make_equal(alloc, memory, left, right, rest)
}

/// Makes the second argument the number of the first: where this has none there is no child.
fn call_val(
    alloc: Global,
    memory: &mut Memory,
    node: NodeId,
    rest: GoalList,
) -> Result<Option<GoalList>, NoMemory>
    requires held { HasCall memory.old node rest }
    requires label { IsCallOf memory.old node Val }
    ensures { IfOk result (IsBuiltInDone memory.old node rest Val memory.new) }
{
    let expression = memory.argument(node, 0);
    let value = memory.argument(node, 1);
    match memory.number_at(alloc, expression)? {
        Some(number) => {
            let integer = memory.leaf(Label::Int(number))?;
            make_equal(alloc, memory, value, integer, rest)
        }
        None => Ok(None),
    }
}

/// Makes two nodes equal before a list, and puts what wakes before it: `None` exactly where they can't be equal, or the
/// inequations would fail.
fn make_equal(
    alloc: Global,
    memory: &mut Memory,
    left: NodeId,
    right: NodeId,
    rest: GoalList,
) -> Result<Option<GoalList>, NoMemory>
    requires { HasPair memory.old rest left right }
    ensures { IfOk result (IsMadeEqual memory.old rest left right memory.new) }
{
    match memory.unify(alloc, left, right)? {
        Unified::No => Ok(None),
        Unified::Yes { bound: _ } => settle(memory, rest),
    }
}

/// Keeps both arguments from being equal: where they are equal already there is no child.
fn call_dif(memory: &mut Memory, node: NodeId, rest: GoalList) -> Result<Option<GoalList>, NoMemory>
    requires held { HasCall memory.old node rest }
    requires label { IsCallOf memory.old node DifCall }
    ensures { IfOk result (IsBuiltInDone memory.old node rest DifCall memory.new) }
{
    let left = memory.argument(node, 0);
    let right = memory.argument(node, 1);
    match memory.keep_apart(left, right)? {
        Dif::Fails => Ok(None),
        _ => Ok(Some(rest)),
    }
}

/// Calls the second argument where the first is known, and else lets it wait.
fn call_freeze(
    memory: &mut Memory,
    node: NodeId,
    rest: GoalList,
) -> Result<Option<GoalList>, NoMemory>
    requires held { HasCall memory.old node rest }
    requires label { IsCallOf memory.old node Freeze }
    ensures { IfOk result (IsBuiltInDone memory.old node rest Freeze memory.new) }
{
    let on = memory.argument(node, 0);
    let goal = memory.argument(node, 1);
    match memory.root_label(on) {
        Some(_) => Ok(Some(memory.call_before(goal, rest)?)),
        None => {
            memory.freeze(on, goal)?;
            Ok(Some(rest))
        }
    }
}

/// Goes on where the argument is known.
fn call_bound(memory: &Memory, node: NodeId, rest: GoalList) -> Option<GoalList>
    requires held { HasCall memory.now node rest }
    requires label { IsCallOf memory.now node Bound }
    ensures { IsBuiltInDone memory.now node rest Bound memory.now result }
{
    let kid = memory.argument(node, 0);
    match memory.root_label(kid) {
        Some(_) => Some(rest),
        None => None,
    }
}

/// Goes on where the argument isn't known.
fn call_free(memory: &Memory, node: NodeId, rest: GoalList) -> Option<GoalList>
    requires held { HasCall memory.now node rest }
    requires label { IsCallOf memory.now node Free }
    ensures { IsBuiltInDone memory.now node rest Free memory.now result }
{
    let kid = memory.argument(node, 0);
    match memory.root_label(kid) {
        Some(_) => None,
        None => Some(rest),
    }
}

/// Goes on: what it says is told by `tell_tree`.
fn call_out(memory: &Memory, node: NodeId, rest: GoalList) -> Option<GoalList>
    requires held { HasCall memory.now node rest }
    ensures { IsBuiltInDone memory.now node rest Out memory.now result }
{
    Some(rest)
}

/// Goes on where the argument is a string: what it says is told by `tell_text`.
fn call_out_text(memory: &Memory, node: NodeId, rest: GoalList) -> Option<GoalList>
    requires held { HasCall memory.now node rest }
    requires label { IsCallOf memory.now node OutText }
    ensures { IsBuiltInDone memory.now node rest OutText memory.now result }
{
    let kid = memory.argument(node, 0);
    match memory.string_at(kid) {
        Some(_) => Some(rest),
        None => None,
    }
}
