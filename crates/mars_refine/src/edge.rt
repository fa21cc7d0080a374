//! An edge of a graph.

/// A node and a place among its kids, counted from 0.
#[derive(Clone, Copy, Debug, PartialEq, Eq)]
pub struct Edge {
    pub node: usize,
    pub place: usize,
}
