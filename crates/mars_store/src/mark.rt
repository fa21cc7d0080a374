//! States of a store that can be gone back to.

/// How many nodes and bindings a store had.
#[derive(Clone, Copy, Debug, PartialEq, Eq)]
pub struct Mark {
    pub nodes: usize,
    pub bound: usize,
}
