//! How two values compare.
use std::hash::{DefaultHasher, Hash, Hasher};

/// The hash of a value.
fn hash_of<T: Hash>(value: &T) -> u64 {
    let mut state = DefaultHasher::new();
    value.hash(&mut state);
    state.finish()
}

/// What the comparison of two values says.
pub fn verdict<T: Eq + Hash>(left: &T, right: &T) -> &'static str {
    if left != right {
        "differ"
    } else if hash_of(left) == hash_of(right) {
        "equal, of one hash"
    } else {
        "equal, of two hashes"
    }
}
