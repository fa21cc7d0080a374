//! Goals before a list: those of a rule's body, and those that wake.
ghost use Rattle.std.specs.Prelude.{◌≡◌, ◌<◌, length, IfOk, All};
ghost use Rattle.mars_rules.specs.TakenRules.{HasGoalNode};
ghost use Rattle.mars_memory.specs.ListsInside.{ArePushed, pending_of, pendings_of, node_calls};

use mars_base::NoMemory;
use mars_goals::{GoalArena, GoalList, Pending};
use mars_rules::FlatGoal;
use mars_store::{NodeId, Registers};

/// A goal of a body over the nodes of its rule's places, whose cut keeps so many choice points.
#[inline]
fn pending(goal: FlatGoal, registers: &Registers, depth: usize) -> Pending
    requires { HasGoalNode registers.now goal }
    ensures { result ≡ pending_of registers.now depth goal }
{
    match goal {
        FlatGoal::Call(place) => match registers.get(place) {
            Some(node) => Pending::Call(node),
            None => unreachable!(),
        },
        FlatGoal::Cut => Pending::Cut(depth),
    }
}

/// The list of a body's goals before a list.
pub(crate) fn push_body(
    lists: &mut GoalArena,
    goals: &[FlatGoal],
    registers: &Registers,
    depth: usize,
    rest: GoalList,
) -> Result<GoalList, NoMemory>
    requires inside { rest < length lists.old }
    requires nodes { All (HasGoalNode registers.now) goals.now }
    ensures { IfOk result (λ list. ArePushed lists.old lists.new (pendings_of registers.now depth goals.now) rest list) }
{
    let mut list = rest;
    let mut place = goals.len();
    while place > 0 {
        place -= 1;
        list = lists.push(pending(goals[place], registers, depth), list)?;
    }
    Ok(list)
}

/// The list of calls of nodes before a list.
pub(crate) fn push_calls(
    lists: &mut GoalArena,
    nodes: &[NodeId],
    rest: GoalList,
) -> Result<GoalList, NoMemory>
    requires { rest < length lists.old }
    ensures { IfOk result (λ list. ArePushed lists.old lists.new (node_calls nodes.now) rest list) }
{
    let mut list = rest;
    let mut place = nodes.len();
    while place > 0 {
        place -= 1;
        list = lists.push(Pending::Call(nodes[place]), list)?;
    }
    Ok(list)
}
