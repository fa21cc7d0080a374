//! What is done after nodes were made equal: inequations are looked at again, and goals wake.
ghost use Rattle.std.specs.Prelude.{◌≡◌, [], IsTrue, IfOk};
ghost use Rattle.mars_dif.specs.Kept.{waiting_of};
ghost use Rattle.mars_frozen.specs.Freezing.{waiting_pairs};
ghost use Rattle.mars_memory.specs.Found.{HasWritten, IsAlternativeSettled};

use crate::lists::push_calls;
use crate::memory::Memory;
use mars_base::NoMemory;
use mars_goals::GoalList;

/// Whether no inequation waits and no goal is frozen.
#[inline]
fn is_quiet(memory: &Memory) -> bool
    ensures { IsTrue result → (waiting_of memory.now.difs ≡ []) × (waiting_pairs memory.now.frozen ≡ []) }
{
    memory.inequations.waiting().is_empty() && memory.frozen.waiting().is_empty()
}

/// Looks again at the inequations, and puts the goals that wake before a list: `None` exactly where the inequations have no
/// solution. Where none waits and no goal is frozen, nothing is done.
pub(crate) fn settle(memory: &mut Memory, list: GoalList) -> Result<Option<GoalList>, NoMemory>
    requires { HasWritten memory.old list }
    ensures { IfOk result (IsAlternativeSettled memory.old list memory.new) }
{
    if is_quiet(memory) {
        return Ok(Some(list));
    }
    if !memory.inequations.recheck(&mut memory.store)? {
        return Ok(None);
    }
    let woken = memory.frozen.wake(&memory.store)?;
    let list = push_calls(&mut memory.lists, &woken, list)?;
    Ok(Some(list))
}
