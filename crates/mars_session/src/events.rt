//! What the next event of a session is, and what one event over a door was.
use mars_table::Call;

/// What the next event of a session is.
#[derive(Drop)]
pub enum Turned {
    /// One event without a table call was done.
    Moved,
    /// The next event makes this call; nothing was done.
    Wants(Call),
    /// No command is left, or the session was cut.
    Done,
}

/// What one event over a door was.
#[derive(Clone, Copy, Debug, PartialEq, Eq)]
pub enum Event {
    /// An event without a table call.
    Moved,
    /// A table call, whose reply was taken.
    Called,
    /// Nothing: no command was left, or the session was cut before.
    Done,
    /// Out of memory: the session was cut.
    Cut,
}
