//! States of frozen pairs that can be gone back to.

/// How many changes and watches were made, and how much of the pairs and of the store's bindings was looked at.
#[derive(Clone, Copy, Debug, PartialEq, Eq)]
pub struct Mark {
    pub changes: usize,
    pub watches: usize,
    pub filed: usize,
    pub seen: usize,
}
