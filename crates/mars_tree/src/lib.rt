//! Rational trees as finite graphs: labels and names, graphs that grow and are cut, when two nodes are the same tree,
//! and the laws of canonical graphs.
#![tactic(auto)]

mod graph;
mod label;
mod laws;
mod names;
mod numbers;
mod pairs;
mod sameness;

pub use graph::Graph;
pub use label::{Label, NameId};
pub use laws::{examples, one_canonical_graph, one_canonical_graph_of_trees, short_paths_decide};
pub use names::Names;
pub use numbers::{NewNumbers, NodeNumber, push_renumbered};
pub use sameness::same;
