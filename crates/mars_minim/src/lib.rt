//! The smallest graph of the trees of some roots: one node for each tree.
#![tactic(auto)]

mod smallest;

pub use smallest::{Minimal, minimise};
