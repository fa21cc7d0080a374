//! The start of an ask.
ghost use Rattle.std.specs.Prelude.{◌≡◌, ◌<◌, length, IfOk};
ghost use Rattle.mars_term.specs.Clauses.{IsAsk};
ghost use Rattle.mars_goals.specs.GoalLists.{list_at};
ghost use Rattle.mars_start.specs.Started.{IsStarted};

use crate::loading::{add_variables, load_trees};
use crate::writing::write_goals;
use mars_base::NoMemory;
use mars_canon::Tree;
use mars_goals::{GoalArena, GoalList};
use mars_store::{NodeId, Store};
use mars_term::Ask;
use std::alloc::Global;

/// What an ask begins with.
#[derive(Drop)]
pub struct Started {
    /// The nodes of the kept trees, of the variables and of the goals.
    pub store: Store,
    /// The nodes of the ask's variables, by their numbers.
    pub vars: Vec<NodeId>,
    /// The goal lists, of which one has the ask's goals.
    pub lists: GoalArena,
    /// That list.
    pub goals: GoalList,
}

/// Begins an ask, with a tree for each of its kept names. Linear in the trees' nodes and kids, and in the ask. The error is
/// out of memory alone.
pub fn start_ask(alloc: Global, ask: &Ask, kept: &[Tree]) -> Result<Started, NoMemory>
    requires ask { IsAsk ask.now }
    requires kept { length kept.now ≡ length ask.now.kept }
    ensures started { IfOk result (λ begun. IsStarted ask.now kept.now begun.store begun.vars.items (list_at begun.lists begun.goals)) }
    ensures inside { IfOk result (λ begun. begun.goals < length begun.lists) }
{
    let mut store = Store::new(alloc);
    let roots = load_trees(alloc, &mut store, kept)?;
    let vars = add_variables(alloc, &mut store, ask.vars.len())?;
    let mut lists = GoalArena::new(alloc);
    let goals = write_goals(
        alloc,
        &mut store,
        &vars,
        &roots,
        ask.goals.as_slice(),
        &mut lists,
    )?;
    Ok(Started {
        store,
        vars,
        lists,
        goals,
    })
}
