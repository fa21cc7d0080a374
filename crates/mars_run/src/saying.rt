//! What a call of a built-in says.
ghost use Rattle.std.specs.Prelude.{IfOk};
ghost use Rattle.mars_memory.specs.Found.{HasCall, IsCallOf};
ghost use Rattle.mars_run.specs.Stepping.{IsToldCall};

use mars_base::NoMemory;
use mars_goals::GoalList;
use mars_machine::{BuiltIn, Stepped};
use mars_memory::{Memory, tell_text, tell_tree};
use mars_store::NodeId;
use std::alloc::Global;

/// What a call of a built-in tells, where it has a child.
pub(crate) fn say(
    alloc: Global,
    memory: &Memory,
    built_in: BuiltIn,
    node: NodeId,
    rest: GoalList,
) -> Result<Stepped, NoMemory>
    requires held { HasCall memory.now node rest }
    requires label { IsCallOf memory.now node built_in }
    ensures { IfOk result (IsToldCall memory.now node rest built_in) }
{
    match built_in {
        BuiltIn::Out => Ok(Stepped::Said(tell_tree(alloc, memory, node, rest)?)),
        BuiltIn::OutText => match tell_text(memory, node, rest)? {
            Some(string) => Ok(Stepped::SaidText(string)),
            None => Ok(Stepped::Went),
        },
        _ => Ok(Stepped::Went),
    }
}
