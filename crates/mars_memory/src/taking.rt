//! Trying one rule on a call.
ghost use Rattle.std.specs.Prelude.{◌≡◌, ◌<◌, length, IfOk};
ghost use Rattle.mars_store.specs.System.{IsSystem};
ghost use Rattle.mars_memory.specs.Found.{HasCallAt, HasRule, IsTaken};
ghost use Rattle.mars_memory.specs.TakingInside.{IsHeadMatched, IsBodyWritten};

use crate::lists::push_body;
use crate::memory::Memory;
use crate::settling::settle;
use mars_base::NoMemory;
use mars_goals::GoalList;
use mars_matching::{build_body, match_head};
use mars_rules::FlatRule;
use mars_store::{NodeId, Registers};
use std::alloc::Global;

/// Tries one rule on a call before a list, which is made before so many choice points: `None` exactly where the call has no
/// child by the rule, and else the goals of the child.
pub fn take_rule(
    alloc: Global,
    memory: &mut Memory,
    flat: &FlatRule,
    node: NodeId,
    rest: GoalList,
    depth: usize,
    registers: &mut Registers,
) -> Result<Option<GoalList>, NoMemory>
    requires rule { HasRule flat.now }
    requires held { HasCallAt memory.old node rest depth }
    ensures { IfOk result (IsTaken memory.old node rest depth flat.now memory.new) }
{
    let mark = memory.mark();
    if !match_head(alloc, &mut memory.store, &flat.template, node, registers)? {
        return Ok(None);
    }
    let list = write_body(memory, flat, rest, depth, registers)?;
    match settle(memory, list)? {
        Some(found) => Ok(Some(found)),
        None => {
            memory.undo_to(mark);
            Ok(None)
        }
    }
}

/// Builds a rule's body after its head was matched, and puts its goals before a list.
fn write_body(
    memory: &mut Memory,
    flat: &FlatRule,
    rest: GoalList,
    depth: usize,
    registers: &mut Registers,
) -> Result<GoalList, NoMemory>
    requires inside { rest < length memory.old.lists }
    requires rule { HasRule flat.now }
    requires matched { IsHeadMatched flat.now memory.old.system registers.old }
    ensures { IfOk result (λ list. IsBodyWritten memory.old memory.new flat.now rest depth registers.old registers.new list) }
{
    build_body(&mut memory.store, &flat.template, registers)?;
    let list = push_body(&mut memory.lists, &flat.goals, registers, depth, rest)?;
    Ok(list)
}
