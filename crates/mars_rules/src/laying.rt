//! Rules are laid out as nodes, each after its arguments. A row of dots is gone along by a loop, so calls nest as deep
//! as brackets do.
ghost use Rattle.std.specs.Prelude.{◌≡◌, ◌<◌, ◌++◌, ◌∷◌, [], length, replicate, map, IfOk, All, ℕ, List};
ghost use Rattle.mars_tree.specs.Graph.{free_leaf, arity_at, labelled};
ghost use Rattle.mars_tree.specs.Label.{arity_of};
ghost use Rattle.mars_term.specs.Clauses.{IsRule, parts_of_goal};
ghost use Rattle.mars_term.specs.Parts.{parts_of};
ghost use Rattle.std.specs.List.{flat_map};
ghost use Rattle.mars_term.specs.declared.term.Term.{Dot};
ghost use Rattle.mars_term.specs.Rows.{dots};
ghost use Rattle.mars_rules.specs.FlatRules.{IsFlatRule};
ghost use Rattle.mars_rules.specs.LayingInside.{IsLayout, IsRulePart, IsLaidOut, IsLaidGoal, AreLaidGoals, AreLaidTerms, IsRowLaid};

use crate::flat::{FlatGoal, FlatRule};
use mars_base::NoMemory;
use mars_matching::Template;
use mars_term::{Goal, Rule, Term};
use mars_tree::{Graph, Label};
use std::alloc::Global;

/// A rule as nodes: its variables, the head's nodes, and then those of the body. Linear in the rule.
pub(crate) fn lay_rule(alloc: Global, rule: &Rule) -> Result<FlatRule, NoMemory>
    requires { IsRule rule.now }
    ensures { IfOk result (λ flat. IsFlatRule rule.now flat) }
{
    let vars = rule.vars as usize;
    let mut nodes = lay_vars(alloc, vars)?;
    let head = lay_head(alloc, vars, &mut nodes, &rule.head)?;
    let goals = lay_goals(alloc, vars, &mut nodes, rule.body.as_slice())?;
    Ok(FlatRule {
        template: Template { nodes, vars, head },
        goals,
    })
}

/// A free leaf for each variable.
fn lay_vars(alloc: Global, vars: usize) -> Result<Graph, NoMemory>
    ensures { IfOk result (λ nodes. nodes ≡ replicate vars free_leaf) }
{
    let mut nodes = Graph::new(alloc);
    for _ in 0..vars {
        nodes.add_free()?;
    }
    Ok(nodes)
}

/// Adds the nodes of a head, and gives its place. Those of its last argument come first: heads are matched from the last
/// place down, so the first argument is matched first.
fn lay_head(alloc: Global, vars: usize, nodes: &mut Graph, head: &Term) -> Result<usize, NoMemory>
    requires layout { IsLayout vars nodes.old }
    requires parts { All (IsRulePart vars) (parts_of head.now) }
    ensures { IfOk result (λ place. IsLaidOut vars nodes.old nodes.new head.now place) }
{
    match head {
        Term::Name(name, terms) => {
            let kids = lay_last_first(alloc, vars, nodes, terms.as_slice())?;
            let label = Label::Name {
                name: *name,
                arity: kids.len() as u32,
            };
            lay_node(nodes, label, &kids)
        }
        _ => lay_term(alloc, vars, nodes, head),
    }
}

/// Adds the nodes of terms, from the last term on, and gives the places of the terms in order.
fn lay_last_first(
    alloc: Global,
    vars: usize,
    nodes: &mut Graph,
    terms: &[Term],
) -> Result<Vec<usize>, NoMemory>
    requires layout { IsLayout vars nodes.old }
    requires parts { All (IsRulePart vars) (flat_map parts_of terms.now) }
    ensures { IfOk result (λ places. AreLaidTerms vars nodes.old nodes.new terms.now (length terms.now) places.items) }
{
    let mut places = Vec::new(alloc);
    for back in 0..terms.len() {
        let term = &terms[terms.len() - 1 - back];
        places.push(lay_term(alloc, vars, nodes, term)?)?;
    }
    places.reverse();
    Ok(places)
}

/// Adds the nodes of goals, and gives their places.
fn lay_goals(
    alloc: Global,
    vars: usize,
    nodes: &mut Graph,
    goals: &[Goal],
) -> Result<Vec<FlatGoal>, NoMemory>
    requires layout { IsLayout vars nodes.old }
    requires parts { All (IsRulePart vars) (flat_map parts_of_goal goals.now) }
    ensures { IfOk result (λ flat. AreLaidGoals vars nodes.old nodes.new goals.now flat.items) }
{
    let mut flat = Vec::new(alloc);
    for goal in goals {
        flat.push(lay_goal(alloc, vars, nodes, goal)?)?;
    }
    Ok(flat)
}

/// Adds the nodes of a goal, and gives its place.
fn lay_goal(
    alloc: Global,
    vars: usize,
    nodes: &mut Graph,
    goal: &Goal,
) -> Result<FlatGoal, NoMemory>
    requires layout { IsLayout vars nodes.old }
    requires parts { All (IsRulePart vars) (parts_of_goal goal.now) }
    ensures { IfOk result (λ flat. IsLaidGoal vars nodes.old nodes.new goal.now flat) }
{
    match goal {
        Goal::Call(term) => Ok(FlatGoal::Call(lay_term(alloc, vars, nodes, term)?)),
        Goal::Cut => Ok(FlatGoal::Cut),
    }
}

#[cycle(laying)]
/// Adds the nodes of a term, and gives its place. A variable is at the place of its number.
fn lay_term(alloc: Global, vars: usize, nodes: &mut Graph, term: &Term) -> Result<usize, NoMemory>
    requires layout { IsLayout vars nodes.old }
    requires parts { All (IsRulePart vars) (parts_of term.now) }
    ensures { IfOk result (λ place. IsLaidOut vars nodes.old nodes.new term.now place) }
{
    match term {
        Term::Var(number) => Ok(*number as usize),
        Term::Int(number) => lay_node(nodes, Label::Int(*number), &[]),
        Term::Name(name, terms) => {
            let kids = lay_terms(alloc, vars, nodes, terms.as_slice())?;
            let label = Label::Name {
                name: *name,
                arity: kids.len() as u32,
            };
            lay_node(nodes, label, &kids)
        }
        Term::Tup(terms) => {
            let kids = lay_terms(alloc, vars, nodes, terms.as_slice())?;
            lay_node(nodes, Label::Tup(kids.len() as u32), &kids)
        }
        Term::Dot(left, right) => lay_dots(alloc, vars, nodes, left.get(), right.get()),
        Term::Kept(_) => unreachable!(),
        Term::Str(name) => lay_node(nodes, Label::Str(*name), &[]),
    }
}

#[cycle(laying)]
/// Adds the nodes of terms, and gives their places.
fn lay_terms(
    alloc: Global,
    vars: usize,
    nodes: &mut Graph,
    terms: &[Term],
) -> Result<Vec<usize>, NoMemory>
    requires layout { IsLayout vars nodes.old }
    requires parts { All (IsRulePart vars) (flat_map parts_of terms.now) }
    ensures { IfOk result (λ places. AreLaidTerms vars nodes.old nodes.new terms.now (length terms.now) places.items) }
{
    let mut places = Vec::new(alloc);
    for term in terms {
        places.push(lay_term(alloc, vars, nodes, term)?)?;
    }
    Ok(places)
}

#[cycle(laying)]
/// Adds the nodes of the dot of two terms, of which the right one may be a row of dots.
fn lay_dots(
    alloc: Global,
    vars: usize,
    nodes: &mut Graph,
    left: &Term,
    right: &Term,
) -> Result<usize, NoMemory>
    requires layout { IsLayout vars nodes.old }
    requires parts { All (IsRulePart vars) (parts_of left.now ++ parts_of right.now) }
    ensures { IfOk result (λ place. IsLaidOut vars nodes.old nodes.new (Dot left.now right.now) place) }
{
    let mut firsts = Vec::new(alloc);
    firsts.push(lay_term(alloc, vars, nodes, left)?)?;
    let mut last = right;
    while let Term::Dot(left, right) = last {
        firsts.push(lay_term(alloc, vars, nodes, left.get())?)?;
        last = right.get();
    }
    let last = lay_term(alloc, vars, nodes, last)?;
    lay_row(nodes, firsts, last)
}

/// Adds a dot for each of these places, from the last one up, and gives the place of the whole row.
fn lay_row(nodes: &mut Graph, mut firsts: Vec<usize>, last: usize) -> Result<usize, NoMemory>
    requires first { All (λ place. place < length nodes.old) firsts.items }
    requires last { last < length nodes.old }
    ensures { IfOk result (λ place. IsRowLaid nodes.old nodes.new firsts.items last place) }
{
    let mut last = last;
    while let Some(first) = firsts.pop() {
        last = lay_node(nodes, Label::Dot, &[first, last])?;
    }
    Ok(last)
}

/// Adds a node over places.
fn lay_node(nodes: &mut Graph, label: Label, kids: &[usize]) -> Result<usize, NoMemory>
    requires arity { length kids.now ≡ arity_of label }
    requires inside { All (λ kid. kid < length nodes.old) kids.now }
    ensures { IfOk result (λ place. (place ≡ length nodes.old) × (nodes.new ≡ nodes.old ++ labelled label kids.now ∷ [])) }
{
    Ok(nodes.add_node(Some(label), kids)?)
}
