//! The graph of a written tree: a term over a system of equations, told in steps, in one pass.
#![tactic(auto)]

mod laws;
mod maker;
mod nodes;
mod redirect;

pub use laws::{graph_is_small, graph_is_solution};
pub use maker::{GraphMaker, Head};
