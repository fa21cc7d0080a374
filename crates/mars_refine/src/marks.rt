//! The first classes: nodes at which the same is shown.
ghost use Rattle.std.specs.Prelude.{◌≡◌, ◌<◌, ◌≤◌, ◌+◌, ◌-◌, ℕ, length, IfOk, OnOk, All, slice_index_or};
ghost use Rattle.mars_refine.specs.Classes.{AreFree, IsSplitBy};
ghost use Rattle.mars_refine.specs.Marks.{AreNumbers, shown_of};
ghost use Rattle.mars_refine.specs.Refine.{IsRefining};
ghost use Rattle.mars_refine.specs.Chains.{Keyed};

use crate::chains::Chains;
use crate::classes::Classes;
use indexmap::IndexSet;
use mars_base::{NoMemory, Numbers};
use mars_tree::{Graph, Label};
use std::alloc::Global;

/// What is shown at a node: a label, or a free leaf by its number.
#[derive(Clone, Copy, Debug, PartialEq, Eq, Hash)]
pub enum NodeLabel {
    Label(Label),
    Free(usize),
}

/// What is shown at a node of a graph.
fn shown_at(graph: &Graph, node: usize) -> NodeLabel
    requires { node < length graph.now }
    ensures { result ≡ shown_of graph.now node }
{
    match graph.label(node) {
        Some(label) => NodeLabel::Label(label),
        None => NodeLabel::Free(node),
    }
}

/// Numbers of nodes that are equal exactly where the same is shown.
fn numbers(alloc: Global, graph: &Graph) -> Result<Numbers, NoMemory>
    ensures { IfOk result (λ n. AreNumbers graph.now n.items) }
{
    let mut marks = IndexSet::new(alloc);
    let mut numbers = Numbers::new(alloc, graph.len());
    for node in 0..graph.len() {
        let (number, _new) = marks.insert_full(shown_at(graph, node))?;
        numbers.push(number)?;
    }
    Ok(numbers)
}

/// The numbers as keys of entries.
fn chained(alloc: Global, size: usize, numbers: &Numbers) -> Result<Chains, NoMemory>
    requires { All (λ n. n < size) numbers.now.items }
    ensures { IfOk result (λ c. c ≡ record { size = size; keys = numbers.now.items }) }
{
    let mut chains = Chains::new(alloc, size)?;
    for node in 0..numbers.len() {
        chains.push(numbers.get(node))?;
    }
    Ok(chains)
}

/// Parts the nodes with a number from the others, in time linear in these nodes.
fn split_by_number(chains: &Chains, number: usize, classes: &mut Classes) -> Result<(), NoMemory>
    requires number_in { number < chains.now.size }
    requires size { length chains.now.keys ≡ length classes.old.of }
    requires free { AreFree classes.old }
    ensures { OnOk result (IsSplitBy (λ u. slice_index_or chains.now.keys u 0 ≡ number) classes.old classes.new) }
{
    let mut count = chains.last(number);
    while count > 0 {
        classes.mark(count - 1)?;
        count = chains.before(count - 1);
    }
    classes.split()?;
    Ok(())
}

/// The classes of nodes at which the same is shown, in time linear in the nodes.
pub fn classes_by_label(alloc: Global, graph: &Graph) -> Result<Classes, NoMemory>
    ensures size { IfOk result (λ c. length c.of ≡ length graph.now) }
    ensures free { IfOk result (λ c. AreFree c) }
    ensures refining { IfOk result (λ c. IsRefining graph.now c.of 0) }
{
    let numbers = numbers(alloc, graph)?;
    let chains = chained(alloc, graph.len(), &numbers)?;
    let mut classes = Classes::new(alloc, graph.len())?;
    for number in 0..graph.len() {
        split_by_number(&chains, number, &mut classes)?;
    }
    Ok(classes)
}
