//! Systems of equations over rational trees: a store of nodes and bindings with a trail.
#![tactic(auto)]

mod laws;
mod mark;
mod node_id;
mod nodes;
mod registers;
mod store;

pub use laws::{
    equation_solved, forced_shown, implied_shown, marks_nest, node_solved, older_solved,
    plain_decides, plain_solves,
};
pub use mark::Mark;
pub use node_id::NodeId;
pub use registers::Registers;
pub use store::Store;
