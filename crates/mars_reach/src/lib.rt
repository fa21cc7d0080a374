//! What roots reach in a graph: its nodes in the order of a walk over a queue, and the graph of them.
#![tactic(auto)]

mod free;
mod order;
mod queue;
mod renumber;
mod roots;

pub use free::reaches_free;
pub use order::Order;
pub use queue::reached;
pub use renumber::{RootedGraph, part, rooted_part};
pub use roots::Roots;
