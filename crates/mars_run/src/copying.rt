//! Copies of an ask and of its kept trees, which a machine keeps.
ghost use Rattle.std.specs.Prelude.{◌≡◌, IfOk};

use mars_base::NoMemory;
use mars_canon::Tree;
use mars_term::{Ask, Goal, Goals, NameIds};
use mars_tree::NameId;
use sqlite_items::Items;
use std::alloc::Global;

/// The same ask once more.
pub(crate) fn copy_ask(alloc: Global, ask: &Ask) -> Result<Ask, NoMemory>
    ensures { IfOk result (λ copy. copy ≡ ask.now) }
{
    Ok(Ask {
        most: ask.most,
        goals: copy_goals(alloc, ask.goals.as_slice())?,
        vars: copy_names(alloc, ask.vars.as_slice())?,
        kept: copy_names(alloc, ask.kept.as_slice())?,
    })
}

/// The same goals once more.
fn copy_goals(alloc: Global, goals: &[Goal]) -> Result<Goals, NoMemory>
    ensures { IfOk result (λ copy. copy ≡ goals.now) }
{
    let mut copy = Items::new(alloc);
    for goal in goals {
        copy.push(copy_goal(alloc, goal)?)?;
    }
    Ok(copy)
}

/// The same goal once more.
fn copy_goal(alloc: Global, goal: &Goal) -> Result<Goal, NoMemory>
    ensures { IfOk result (λ copy. copy ≡ goal.now) }
{
    match goal {
        Goal::Call(term) => Ok(Goal::Call(term.copy(alloc)?)),
        Goal::Cut => Ok(Goal::Cut),
    }
}

/// The same names once more.
fn copy_names(alloc: Global, names: &[NameId]) -> Result<NameIds, NoMemory>
    ensures { IfOk result (λ copy. copy ≡ names.now) }
{
    let mut copy = Items::new(alloc);
    for name in names {
        copy.push(*name)?;
    }
    Ok(copy)
}

/// The same trees once more.
pub(crate) fn copy_trees(alloc: Global, trees: &[Tree]) -> Result<Vec<Tree>, NoMemory>
    ensures { IfOk result (λ copy. copy.items ≡ trees.now) }
{
    let mut copy = Vec::new(alloc);
    for tree in trees {
        copy.push(tree.copy()?)?;
    }
    Ok(copy)
}
