//! The one form of rational trees: canonical graphs with their roots, and trees.
#![tactic(auto)]

mod canonical;
mod laws;
mod rooted;
mod tree;

pub use canonical::canon;
pub use laws::{
    alike_walks_hash_alike, examples, one_form_of_trees, one_form_of_walks, one_tree,
    same_tree_hashes_alike, same_trees_hash_alike,
};
pub use rooted::Canon;
pub use tree::{MOST_NODES, Tree};
