//! The terms of an ask are written into a store, each node after its arguments. A row of dots is gone along by a loop, so
//! calls nest as deep as brackets do.
ghost use Rattle.std.specs.Prelude.{◌≡◌, ◌<◌, ◌++◌, length, IfOk, All};
ghost use Rattle.std.specs.List.{flat_map};
ghost use Rattle.mars_term.specs.Clauses.{parts_of_goal};
ghost use Rattle.mars_term.specs.Parts.{parts_of};
ghost use Rattle.mars_term.specs.declared.term.Term.{Dot};
ghost use Rattle.mars_store.specs.System.{IsSystem};
ghost use Rattle.mars_start.specs.WritingInside.{IsAskPart, HasNames, IsTermWritten, AreTermsWritten, IsRowWritten, IsOneGoalWritten, AreGoalsWritten};

use mars_base::NoMemory;
use mars_goals::{GoalArena, GoalList, Pending};
use mars_store::{NodeId, Store};
use mars_term::{Goal, Term};
use mars_tree::Label;
use std::alloc::Global;

/// Writes goals over nodes of variables and of kept names, and gives them as a list of an arena. Linear in the goals.
pub(crate) fn write_goals(
    alloc: Global,
    store: &mut Store,
    vars: &[NodeId],
    kept: &[NodeId],
    goals: &[Goal],
    lists: &mut GoalArena,
) -> Result<GoalList, NoMemory>
    requires names { HasNames store.old vars.now kept.now }
    requires parts { All (IsAskPart (length vars.now) (length kept.now)) (flat_map parts_of_goal goals.now) }
    ensures { IfOk result (λ list. AreGoalsWritten store.old store.new vars.now kept.now goals.now lists.new list) }
{
    let mut list = lists.empty();
    for back in 0..goals.len() {
        let goal = &goals[goals.len() - 1 - back];
        let pending = write_goal(alloc, store, vars, kept, goal)?;
        list = lists.push(pending, list)?;
    }
    Ok(list)
}

/// Writes a goal. A cut of an ask keeps no choice point.
fn write_goal(
    alloc: Global,
    store: &mut Store,
    vars: &[NodeId],
    kept: &[NodeId],
    goal: &Goal,
) -> Result<Pending, NoMemory>
    requires names { HasNames store.old vars.now kept.now }
    requires parts { All (IsAskPart (length vars.now) (length kept.now)) (parts_of_goal goal.now) }
    ensures { IfOk result (λ pending. IsOneGoalWritten store.old store.new vars.now kept.now goal.now pending) }
{
    match goal {
        Goal::Call(term) => Ok(Pending::Call(write_term(alloc, store, vars, kept, term)?)),
        Goal::Cut => Ok(Pending::Cut(0)),
    }
}

#[cycle(writing)]
/// Writes a term, and gives its node. A variable or a kept name has its node.
fn write_term(
    alloc: Global,
    store: &mut Store,
    vars: &[NodeId],
    kept: &[NodeId],
    term: &Term,
) -> Result<NodeId, NoMemory>
    requires names { HasNames store.old vars.now kept.now }
    requires parts { All (IsAskPart (length vars.now) (length kept.now)) (parts_of term.now) }
    ensures { IfOk result (λ node. IsTermWritten store.old store.new vars.now kept.now term.now node) }
{
    match term {
        Term::Var(number) => Ok(vars[*number as usize]),
        Term::Kept(number) => Ok(kept[*number as usize]),
        Term::Int(number) => store.add(Label::Int(*number), &[]),
        Term::Name(name, terms) => {
            let kids = write_terms(alloc, store, vars, kept, terms.as_slice())?;
            let label = Label::Name {
                name: *name,
                arity: kids.len() as u32,
            };
            store.add(label, &kids)
        }
        Term::Tup(terms) => {
            let kids = write_terms(alloc, store, vars, kept, terms.as_slice())?;
            store.add(Label::Tup(kids.len() as u32), &kids)
        }
        Term::Dot(left, right) => write_dots(alloc, store, vars, kept, left.get(), right.get()),
        Term::Str(name) => store.add(Label::Str(*name), &[]),
    }
}

#[cycle(writing)]
/// Writes terms, and gives their nodes.
fn write_terms(
    alloc: Global,
    store: &mut Store,
    vars: &[NodeId],
    kept: &[NodeId],
    terms: &[Term],
) -> Result<Vec<NodeId>, NoMemory>
    requires names { HasNames store.old vars.now kept.now }
    requires parts { All (IsAskPart (length vars.now) (length kept.now)) (flat_map parts_of terms.now) }
    ensures { IfOk result (λ nodes. AreTermsWritten store.old store.new vars.now kept.now terms.now nodes.items) }
{
    let mut nodes = Vec::new(alloc);
    for term in terms {
        nodes.push(write_term(alloc, store, vars, kept, term)?)?;
    }
    Ok(nodes)
}

#[cycle(writing)]
/// Writes the dot of two terms, of which the right one may be a row of dots.
fn write_dots(
    alloc: Global,
    store: &mut Store,
    vars: &[NodeId],
    kept: &[NodeId],
    left: &Term,
    right: &Term,
) -> Result<NodeId, NoMemory>
    requires names { HasNames store.old vars.now kept.now }
    requires parts { All (IsAskPart (length vars.now) (length kept.now)) (parts_of left.now ++ parts_of right.now) }
    ensures { IfOk result (λ node. IsTermWritten store.old store.new vars.now kept.now (Dot left.now right.now) node) }
{
    let mut firsts = Vec::new(alloc);
    firsts.push(write_term(alloc, store, vars, kept, left)?)?;
    let mut last = right;
    while let Term::Dot(left, right) = last {
        firsts.push(write_term(alloc, store, vars, kept, left.get())?)?;
        last = right.get();
    }
    let last = write_term(alloc, store, vars, kept, last)?;
    write_row(store, firsts, last)
}

/// Adds a dot for each of these nodes, from the last one up, and gives the node of the whole row.
fn write_row(store: &mut Store, mut firsts: Vec<NodeId>, last: NodeId) -> Result<NodeId, NoMemory>
    requires sound { IsSystem store.old }
    requires first { All (λ node. node < length store.old.nodes) firsts.items }
    requires last { last < length store.old.nodes }
    ensures { IfOk result (λ node. IsRowWritten store.old store.new firsts.items last node) }
{
    let mut last = last;
    while let Some(first) = firsts.pop() {
        last = store.add(Label::Dot, &[first, last])?;
    }
    Ok(last)
}
