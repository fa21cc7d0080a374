//! How a call of the program ended.
ghost use Rattle.std.specs.Prelude.{◌≡◌};
ghost use Rattle.marseille.specs.Status.{number_of_status};

use mars_table::Entry;

/// How a call of the program ended.
#[derive(Clone, Copy, Debug, PartialEq, Eq)]
pub enum Status {
    /// The whole text of the run was written.
    Done,
    /// The input isn't of the form; a line says so.
    Refused,
    /// The words aren't accepted, or their order names a session that the input lacks; a line says so.
    Words,
    /// Out of memory: nothing was written, or the text of a run with a session that was cut.
    Memory,
    /// The source failed; nothing was written.
    Read,
    /// The sink failed; it got a beginning of what was due.
    Write,
}

impl Status {
    /// The exit status: the place in the order of the variants, from 0 on.
    pub fn number(self) -> u8
        ensures { result ≡ number_of_status self }
    {
        self as u8
    }
}

/// What a call of the program gives back: how it ended, and the history of its table. Where no text of a run was due, the
/// history is empty.
#[derive(Drop)]
pub struct Outcome {
    pub status: Status,
    pub history: Vec<Entry>,
}
