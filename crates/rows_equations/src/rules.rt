//! Rows of rules: `goal(GOAL, HEAD, BODY)` matches the head against the goal, builds the body, and goes on with the body
//! as the next goal.
ghost use Rattle.std.specs.Prelude.{◌<◌, length, IfOk, MatchOption};
ghost use Rattle.mars_matching.specs.Trees.{IsTemplate};

use crate::answers::put_told;
use crate::building::{is_inside, load, spread};
use crate::reading::Tree;
use crate::writing::{put, put_number};
use mars_answer::answer;
use mars_base::NoMemory;
use mars_matching::{Template, build_body, match_head};
use mars_reach::rooted_part;
use mars_store::{NodeId, Registers, Store};
use mars_tree::Graph;
use rows::{label_at, set_kid_at};
use std::alloc::Global;

/// A row stops after so many goals.
const MOST_GOALS: usize = 10;

/// The nodes that a node reaches. A parent's number is smaller than that of its kids.
fn reach_from(graph: &Graph, from: usize, found: &mut [bool]) {
    if let Some(place) = found.get_mut(from) {
        *place = true;
    }
    spread(graph, found);
}

/// The nodes of a rule in the order of a template's places, and the place of the head. A written term has one parent,
/// so that in the order of a walk, breadth first, each node comes before its kids; the places go the other way.
fn order_of(
    graph: &Graph,
    in_head: &[bool],
    order: &mut Vec<usize>,
) -> Result<(usize, usize), NoMemory> {
    for node in 0..graph.len() {
        if graph.label(node).is_none() {
            order.push(node)?;
        }
    }
    let vars = order.len();
    push_labelled(graph, in_head, true, order)?;
    let head = order.len().saturating_sub(1);
    push_labelled(graph, in_head, false, order)?;
    Ok((vars, head))
}

/// Puts the labelled nodes of the head, or else those of the body, last in a list: kids before parents.
fn push_labelled(
    graph: &Graph,
    in_head: &[bool],
    wanted: bool,
    order: &mut Vec<usize>,
) -> Result<(), NoMemory> {
    for node in (0..graph.len()).rev() {
        if graph.label(node).is_some() && in_head.get(node).copied() == Some(wanted) {
            order.push(node)?;
        }
    }
    Ok(())
}

/// The place of each node in an order.
fn places_of(alloc: Global, order: &[usize], count: usize) -> Result<Vec<usize>, NoMemory> {
    let mut places = vec![in alloc; 0usize; count]?;
    for place in 0..order.len() {
        if let Some(at) = places.get_mut(order[place]) {
            *at = place;
        }
    }
    Ok(places)
}

/// Adds nodes of a graph in an order, without their kids.
fn add_in_order(graph: &Graph, order: &[usize], new: &mut Graph) -> Result<(), NoMemory> {
    for node in order {
        match label_at(graph, *node) {
            Some(label) => new.add(label)?,
            None => new.add_free()?,
        };
    }
    Ok(())
}

/// Gives a node at its new place the kids that it had.
fn set_kids(kids: &[usize], node: usize, places: &[usize], new: &mut Graph) {
    for (at, kid) in kids.iter().enumerate() {
        if let Some(kid) = places.get(*kid) {
            set_kid_at(new, node, at, *kid);
        }
    }
}

/// Gives all nodes at their new places the kids that they had.
fn set_all_kids(graph: &Graph, places: &[usize], new: &mut Graph) {
    for node in 0..graph.len() {
        if let Some(place) = places.get(node) {
            set_kids(graph.kids(node), *place, places, new);
        }
    }
}

/// A graph's nodes in an order.
fn reordered(alloc: Global, graph: &Graph, order: &[usize]) -> Result<Graph, NoMemory> {
    let places = places_of(alloc, order, graph.len())?;
    let mut new = Graph::new(alloc);
    add_in_order(graph, order, &mut new)?;
    set_all_kids(graph, &places, &mut new);
    Ok(new)
}

/// The template whose places are a graph's nodes in an order.
fn template_in(
    alloc: Global,
    graph: &Graph,
    order: &[usize],
    vars: usize,
    head: usize,
) -> Result<Option<Template>, NoMemory>
    ensures { IfOk result (λ found. MatchOption found (Unit {0}) (λ rule. IsTemplate rule)) }
{
    let nodes = reordered(alloc, graph, order)?;
    Ok(Template::new(nodes, vars, head))
}

/// The template of a graph that has the head's nodes and others.
fn template_with(
    alloc: Global,
    graph: &Graph,
    in_head: &[bool],
) -> Result<Option<Template>, NoMemory>
    ensures { IfOk result (λ found. MatchOption found (Unit {0}) (λ rule. IsTemplate rule)) }
{
    let mut order = Vec::new(alloc);
    let (vars, head) = order_of(graph, in_head, &mut order)?;
    template_in(alloc, graph, &order, vars, head)
}

/// The template of a graph whose first node is the head.
fn template_of(alloc: Global, graph: &Graph) -> Result<Option<Template>, NoMemory>
    ensures { IfOk result (λ found. MatchOption found (Unit {0}) (λ rule. IsTemplate rule)) }
{
    let mut in_head = vec![in alloc; false; graph.len()]?;
    reach_from(graph, 0, &mut in_head);
    template_with(alloc, graph, &in_head)
}

/// The template of a head and a body.
fn template(
    alloc: Global,
    tree: &Tree,
    head: usize,
    body: usize,
) -> Result<Option<Template>, NoMemory>
    ensures { IfOk result (λ found. MatchOption found (Unit {0}) (λ rule. IsTemplate rule)) }
{
    if head >= tree.graph.len() || body >= tree.graph.len() {
        return Ok(None);
    }
    let part = rooted_part(alloc, &tree.graph, &[head, body])?;
    template_of(alloc, &part.graph)
}

/// Runs a row: for each goal whether the head matches, and how many nodes were added; and the first goal at the end.
pub(crate) fn put_goals(alloc: Global, tree: &Tree, into: &mut Vec<u8>) -> Result<(), NoMemory> {
    match tree.kids(tree.root) {
        [goal, head, body] => match template(alloc, tree, *head, *body)? {
            Some(rule) => put_goals_of(alloc, tree, *goal, &rule, into),
            None => put(into, "no rule"),
        },
        _ => put(into, "no rule"),
    }
}

/// Runs a row whose rule is a template.
fn put_goals_of(
    alloc: Global,
    tree: &Tree,
    goal: usize,
    rule: &Template,
    into: &mut Vec<u8>,
) -> Result<(), NoMemory>
    requires { IsTemplate rule.now }
{
    let mut store = Store::new(alloc);
    match first_goal(alloc, &mut store, tree, goal)? {
        Some(first) => put_all_goals(alloc, &mut store, tree, rule, first, into),
        None => put(into, "no goal"),
    }
}

/// Adds a goal to a store.
fn first_goal(
    alloc: Global,
    store: &mut Store,
    tree: &Tree,
    goal: usize,
) -> Result<Option<NodeId>, NoMemory> {
    let nodes = load(alloc, store, tree, &[goal])?;
    match nodes.get(goal) {
        Some(first) => Ok(*first),
        None => Ok(None),
    }
}

/// Matches goal after goal, and writes the first one at the end.
fn put_all_goals(
    alloc: Global,
    store: &mut Store,
    tree: &Tree,
    rule: &Template,
    first: NodeId,
    into: &mut Vec<u8>,
) -> Result<(), NoMemory>
    requires { IsTemplate rule.now }
{
    let mut next = Some(first);
    for _ in 0..MOST_GOALS {
        let Some(goal) = next else {
            break;
        };
        next = put_goal(alloc, store, rule, goal, into)?;
        put(into, "; ")?;
    }
    put_end(alloc, store, tree, first, into)
}

/// Matches one goal, and gives the next one.
fn put_goal(
    alloc: Global,
    store: &mut Store,
    rule: &Template,
    goal: NodeId,
    into: &mut Vec<u8>,
) -> Result<Option<NodeId>, NoMemory>
    requires { IsTemplate rule.now }
{
    if !is_inside(store, goal) {
        return Ok(None);
    }
    let before = store.mark().nodes;
    let matched = match_goal(alloc, store, rule, goal)?;
    let added = store.mark().nodes.saturating_sub(before);
    match matched {
        Some(next) => {
            put_number(into, "yes ", added)?;
            Ok(next)
        }
        None => {
            put_number(into, "no ", added)?;
            Ok(None)
        }
    }
}

/// Matches one goal, and gives the next one where it matches.
fn match_goal(
    alloc: Global,
    store: &mut Store,
    rule: &Template,
    goal: NodeId,
) -> Result<Option<Option<NodeId>>, NoMemory>
    requires template { IsTemplate rule.now }
    requires goal_in { goal < length store.old.nodes }
{
    let mut registers = Registers::new(alloc);
    if match_at(alloc, store, rule, goal, &mut registers)? {
        Ok(Some(last_of(&registers)))
    } else {
        Ok(None)
    }
}

/// Matches one goal, and builds the body where it matches.
fn match_at(
    alloc: Global,
    store: &mut Store,
    rule: &Template,
    goal: NodeId,
    registers: &mut Registers,
) -> Result<bool, NoMemory>
    requires template { IsTemplate rule.now }
    requires goal_in { goal < length store.old.nodes }
{
    let matched = match_head(alloc, store, rule, goal, registers)?;
    if matched {
        build_body(store, rule, registers)?;
    }
    Ok(matched)
}

/// The node in the last register, which is that of the body.
fn last_of(registers: &Registers) -> Option<NodeId> {
    if registers.len() > 0 {
        registers.get(registers.len() - 1)
    } else {
        None
    }
}

/// Writes the first goal as it is at the end.
fn put_end(
    alloc: Global,
    store: &Store,
    tree: &Tree,
    goal: NodeId,
    into: &mut Vec<u8>,
) -> Result<(), NoMemory> {
    if !is_inside(store, goal) {
        return Ok(());
    }
    let told = answer(alloc, store, &[goal], &[], &[])?;
    put_told(tree, &told, into)
}
