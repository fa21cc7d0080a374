//! Which nodes of a graph are the same tree: one class of nodes for each tree.
#![tactic(auto)]

mod chains;
mod classes;
mod edge;
mod edges;
mod found;
mod links;
mod marks;
mod refine;
mod writes;

pub use classes::Classes;
pub use refine::classes_by_tree;
