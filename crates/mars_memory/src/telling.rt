//! What a memory tells: the tree of an argument, its string, and answers.
ghost use Rattle.std.specs.Prelude.{List, IfOk};
ghost use Rattle.mars_goals.specs.declared.cells.Pending.{Pending};
ghost use Rattle.mars_machine.specs.declared.built_in.BuiltIn.TheVariants.{Out, OutText};
ghost use Rattle.mars_machine.specs.Alternatives.{Alternative};
ghost use Rattle.mars_memory.specs.Memory.{IsLaterMemory};
ghost use Rattle.mars_memory.specs.Holding.{HoldsAlternative};
ghost use Rattle.mars_memory.specs.Found.{HasCall, IsCallOf, IsToldTree, IsToldText, IsToldAnswer};

use crate::memory::Memory;
use mars_answer::Answer;
use mars_base::NoMemory;
use mars_canon::Canon;
use mars_goals::GoalList;
use mars_store::NodeId;
use mars_tree::NameId;
use std::alloc::Global;

/// The tree of the argument of a call of `out`, as far as it is known. It takes what `answer` takes for what the argument
/// reaches. The only error is out of memory.
pub fn tell_tree(
    alloc: Global,
    memory: &Memory,
    node: NodeId,
    rest: GoalList,
) -> Result<Canon, NoMemory>
    requires held { HasCall memory.now node rest }
    requires label { IsCallOf memory.now node Out }
    ensures { IfOk result (λ canon. IsToldTree memory.now node rest canon) }
{
    let kid = memory.argument(node, 0);
    memory.tree_at(alloc, kid)
}

/// The string that the argument of a call of `outm` is, `None` exactly where it is none. Linear in the argument's links; it
/// takes no memory.
pub fn tell_text(memory: &Memory, node: NodeId, rest: GoalList) -> Result<Option<NameId>, NoMemory>
    requires held { HasCall memory.now node rest }
    requires label { IsCallOf memory.now node OutText }
    ensures { IfOk result (λ string. IsToldText memory.now node rest string) }
{
    let kid = memory.argument(node, 0);
    Ok(memory.string_at(kid))
}

/// The answer that a memory holds, of an ask with variables at these nodes. It looks again at the inequations, and then takes
/// what `answer` takes for what the answer reaches. The only error is out of memory.
pub fn tell_answer(alloc: Global, memory: &mut Memory, asked: &[NodeId]) -> Result<Answer, NoMemory>
    requires { (groups : List (List Alternative)) × (goals : List Pending) × (alternative : Alternative) × HoldsAlternative asked.now memory.old groups goals alternative }
    ensures answer { IfOk result (λ answer. IsToldAnswer memory.old asked.now answer) }
    ensures later { IsLaterMemory memory.old memory.new }
{
    let _fine = memory.look_again()?;
    memory.answer_at(alloc, asked)
}
