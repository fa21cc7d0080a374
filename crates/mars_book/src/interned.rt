//! What a book answers where a tree is interned.
use mars_table::Handle;

/// What became of a tree.
#[derive(Clone, Copy, Debug, PartialEq, Eq)]
pub enum Interned {
    /// It is a row of this number, and the caller has one more pin on it.
    Kept(Handle),
    /// Rows and fresh nodes together exceed the limit.
    Full { rows: u64, fresh: u64, cap: u64 },
}
