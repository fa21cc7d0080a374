//! What the words say that the program is given.
use mars_base::NoMemory;
use sqlite_items::Items;
use std::alloc::AllocError;
use thiserror::Error;

/// The most steps of an ask that words may ask for.
pub const MOST_STEPS: u64 = 1_000_000_000;

/// The steps of an ask where no word says how many.
pub const USUAL_STEPS: u64 = 1_000_000;

/// The most rows of the table that words may ask for, and the rows where no word says how many.
pub const MOST_ROWS: u64 = 1_048_576;

/// The greatest number of a session.
pub const LAST_SESSION: u64 = 31;

/// The greatest start of the generator.
pub const LAST_START: u64 = u64::MAX;

/// The most rounds of the generator.
pub const MOST_ROUNDS: u64 = 512;

/// A list of numbers of sessions.
pub type SessionNumbers = Items<u32>;

/// The steps of each ask, the rows of the table, and whether the log is written.
#[derive(Clone, Copy, Debug, PartialEq, Eq, Hash)]
pub struct Options {
    pub budget: u64,
    pub rows: u64,
    pub log: bool,
}

/// What the program does.
#[derive(Debug, Drop)]
pub enum Mode {
    /// The sessions in threads.
    Run,
    /// One event after another: first of these sessions in this order.
    Order(SessionNumbers),
    /// A log is accepted or refused.
    Replay,
    /// The generator's input of so many rounds.
    Make { start: u64, size: u32 },
}

/// What the words say.
#[derive(Debug, Drop)]
pub struct Words {
    pub mode: Mode,
    pub options: Options,
}

/// Why words aren't read.
#[derive(Clone, Copy, Debug, PartialEq, Eq, Error)]
pub enum WordsError {
    /// The list isn't one of those that `IsWords` has.
    #[error("these words aren't accepted")]
    Bad,
    #[error("out of memory")]
    NoMemory,
}

impl From<NoMemory> for WordsError {
    ghost use Rattle.std.specs.Prelude.{◌≡◌};
    ghost use Rattle.mars_script.specs.declared.words.WordsError.TheVariants as why;

    ghost from_gives = { λ _ error. error ≡ why.NoMemory };

    fn from(_error: NoMemory) -> WordsError {
        WordsError::NoMemory
    }
}

impl From<AllocError> for WordsError {
    ghost use Rattle.std.specs.Prelude.{◌≡◌};
    ghost use Rattle.mars_script.specs.declared.words.WordsError.TheVariants as why;

    ghost from_gives = { λ _ error. error ≡ why.NoMemory };

    fn from(_error: AllocError) -> WordsError {
        WordsError::NoMemory
    }
}
