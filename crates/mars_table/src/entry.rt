//! Handles, calls, replies, and the entries of a history.
use mars_canon::Tree;

/// The number of a row.
#[derive(Clone, Copy, Debug, PartialEq, Eq, PartialOrd, Ord, Hash)]
pub struct Handle(pub u128);

/// A call of the table.
#[derive(Drop)]
pub enum Call {
    /// Keeps a tree, with a pin of the caller on it.
    Intern(Tree),
    /// Puts one more pin of the caller on a row on which it has one.
    Pin(Handle),
    /// Gives the tree of a row on which the caller has a pin.
    Show(Handle),
    /// Takes one pin of the caller off a row.
    Drop(Handle),
    /// Takes away the rows that no walk from a pin meets.
    Sweep,
    /// Counts rows and pins.
    Count,
}

/// What the table replies.
#[derive(Drop)]
pub enum Reply {
    /// The tree is a row of this number.
    Kept(Handle),
    /// Rows and fresh nodes together exceed the limit.
    Full { rows: u64, fresh: u64, cap: u64 },
    /// The pin is there.
    Pinned,
    /// The tree of the row.
    Shown(Tree),
    /// The pin is gone.
    Dropped,
    /// How many rows went.
    Swept(u64),
    /// How many rows and pins there are.
    Counted { rows: u64, pins: u64 },
}

/// A call of a caller, with its reply.
#[derive(Drop)]
pub struct Entry {
    pub who: u32,
    pub call: Call,
    pub reply: Reply,
}
