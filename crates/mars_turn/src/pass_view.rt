//! What a pass knows.
use std::collections::LinkedList;

/// What a pass knows. It exists in the proofs alone: no value of it is made.
pub struct PassView<T> {
    /// False once the pass was joined into another: then it is spent.
    pub live: bool,
    /// Its number. The opening pass has 0.
    pub number: u32,
    /// That of the value with which its turn was opened.
    pub fixed: u64,
    /// The items that it made.
    pub mine: LinkedList<T>,
    /// The longest list of items that it has seen.
    pub seen: LinkedList<T>,
    /// The shorter of two lists that were seen, between a join and the load after it; else empty.
    pub shorter: LinkedList<T>,
    /// The passes that were joined into it, directly or through others, each with its number and the items that it made.
    pub ended: LinkedList<(u32, LinkedList<T>)>,
    /// How many passes there are. One pass knows it: the opening one, and after it the one into which it was joined.
    pub made: Option<u64>,
    /// The list that it found, while it is inside.
    pub entered: Option<LinkedList<T>>,
}
