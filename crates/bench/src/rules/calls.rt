//! What is done again and again: steps, copies and look-ups. A step or a copy is undone, so each begins as the first one.
ghost use Rattle.std.specs.Prelude.{◌≡◌, ◌<◌, length, IfOk};
ghost use Rattle.mars_matching.specs.Trees.{IsTemplate};

use mars_base::NoMemory;
use mars_matching::{Template, build_body, match_head};
use mars_rules::RuleBase;
use mars_store::{NodeId, Registers, Store};
use mars_tree::Label;
use std::alloc::Global;

/// The nodes that a step adds, of so many steps.
pub fn steps(alloc: Global, base: &RuleBase, rule: usize, calls: u64) -> Result<usize, NoMemory>
    requires { rule < length base.now.rules }
{
    let rule = template_of(base, rule);
    let mut store = Store::new(alloc);
    let goal = add_goal(&mut store, rule)?;
    let mut registers = Registers::new(alloc);
    let mut added = 0;
    for _ in 0..calls {
        added = step(alloc, &mut store, rule, goal, &mut registers)?;
    }
    Ok(added)
}

/// A rule as a template.
fn template_of(base: &RuleBase, rule: usize) -> &Template
    requires { rule < length base.now.rules }
    ensures { IsTemplate result.now }
{
    &base.flat(rule).template
}

/// Adds a goal with the label of a rule's head: lists of one element, and a variable as its last argument.
fn add_goal(store: &mut Store, rule: &Template) -> Result<NodeId, NoMemory>
    requires { IsTemplate rule.now }
    ensures { IfOk result (λ goal. goal < length store.new.nodes) }
{
    let last = store.add(Label::Int(0), &[])?;
    let one = store.add(Label::Int(1), &[])?;
    let list = store.add(Label::Dot, &[one, last])?;
    let var = store.add_free()?;
    let Some(label) = rule.nodes.label(rule.head) else {
        return Ok(var);
    };
    match label.arity() {
        2 => store.add(label, &[list, var]),
        3 => store.add(label, &[list, list, var]),
        _ => Ok(var),
    }
}

/// Matches a rule's head and builds its body, tells how many nodes that added, and undoes it.
fn step(
    alloc: Global,
    store: &mut Store,
    rule: &Template,
    goal: NodeId,
    registers: &mut Registers,
) -> Result<usize, NoMemory>
    requires template { IsTemplate rule.now }
    requires goal_in { goal < length store.old.nodes }
    ensures { IfOk result (λ added. store.new ≡ store.old) }
{
    let mark = store.mark();
    if !match_head(alloc, store, rule, goal, registers)? {
        return Ok(0);
    }
    build_body(store, rule, registers)?;
    let now = store.mark().nodes;
    store.undo_to(mark);
    Ok(now - mark.nodes)
}

/// The nodes that a copy of a rule adds, of so many copies.
pub fn copies(alloc: Global, base: &RuleBase, rule: usize, calls: u64) -> Result<usize, NoMemory>
    requires { rule < length base.now.rules }
{
    let mut store = Store::new(alloc);
    let mut added = 0;
    for _ in 0..calls {
        added = copy(base, &mut store, rule)?;
    }
    Ok(added)
}

/// Copies a rule, tells how many nodes that added, and undoes it.
fn copy(base: &RuleBase, store: &mut Store, rule: usize) -> Result<usize, NoMemory>
    requires { rule < length base.now.rules }
{
    let mark = store.mark();
    let _copy = base.instance(store, rule)?;
    let now = store.mark();
    if mark.bound == 0 && mark.nodes <= now.nodes && now.bound == 0 {
        store.undo_to(mark);
    }
    Ok(now.nodes.saturating_sub(mark.nodes))
}

/// The places that look-ups by the first argument find, as one sum; the arguments go round from 0 up to the rule's place.
pub fn look_ups(base: &RuleBase, rule: usize, calls: u64) -> usize
    requires { rule < length base.now.rules }
{
    let goal = head_label(base, rule);
    let mut sum: usize = 0;
    let mut number = 0;
    for _ in 0..calls {
        if let Some(place) = base.candidate_by(goal, Some(Label::Int(number)), 0) {
            sum = sum.wrapping_add(place);
        }
        number = if number < 4095 { number + 1 } else { 0 };
    }
    sum
}

/// The label of a rule's head.
fn head_label(base: &RuleBase, rule: usize) -> Option<Label>
    requires { rule < length base.now.rules }
{
    let template = template_of(base, rule);
    template.nodes.label(template.head)
}
