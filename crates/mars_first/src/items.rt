//! What is found of a component.

use mars_comp::Key;

/// The key of a component from its first node, and the nodes at the places of that key.
#[derive(Debug, Drop)]
pub struct FirstKey {
    pub key: Key,
    pub nodes: Vec<usize>,
}
